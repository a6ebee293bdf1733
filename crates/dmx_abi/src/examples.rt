// Worked examples, written by hand and computed by the checker.
ghost use Rattle.dmx_abi.specs.Layout.{AreNumbers};
ghost use Rattle.dmx_abi.specs.Examples.{SectionIsWritten};

/// The numbers of the requests, part by part. It has nothing to do.
pub fn numbers()
    ensures { AreNumbers }
{}

/// What is written of a section filter. It has nothing to do.
pub fn requests()
    ensures { SectionIsWritten }
{}
