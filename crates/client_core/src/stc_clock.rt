// The clock that a transport stream carries: the program clock references of its packets (ISO/IEC 13818-1, 2.4.3.5).
mod clock;
mod reference;

pub use clock::StcClock;
pub use reference::pcr;
