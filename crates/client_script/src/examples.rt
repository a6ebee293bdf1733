// Worked examples, written by hand and computed by the checker.
ghost use Rattle.client_script.specs.Examples.{OneWord, Spellings};

/// What a word spells, and how lines are spelled. It has nothing to do.
pub fn words()
    ensures one { OneWord }
    ensures spellings { Spellings }
{}
