// The files of a folder into which calls are written.
ghost use Rattle.std.specs.Prelude.{◌≡◌, IfOk};

use emu_io::Counted;
use std::fs::{File, OpenOptions};
use std::io;

/// A file of which lines are written.
pub type FileSink = Counted<File>;

/// The file of this path, which is made, or emptied where it is there.
pub fn create(rt: &HostRuntime, path: &str) -> io::Result<FileSink>
    ensures { IfOk result (λ s. s ≡ 0) }
{
    let file = OpenOptions::new()
        .write(true)
        .create(true)
        .truncate(true)
        .open(rt, path)?;
    Ok(Counted::new(file))
}
