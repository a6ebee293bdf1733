//! Laws of what is answered on a line.
ghost use Rattle.seats.specs.Scripts.{LinesArePlayed};

/// The calls that are made for the requests of a line are those of the commands that these spell, in whatever script these are a
/// client's commands.
pub fn lines_are_played()
    ensures { LinesArePlayed }
{}
