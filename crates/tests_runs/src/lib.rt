//! The tests above the program's and the server's top calls, of what no session says: ends that fail, threads that gates hold,
//! clocks of the tests' own, a lock beside itself, taps that no request makes. It has nothing but tests.
//!
//! `tests/faults` has inputs with their whole outputs, over ends in memory (`tests/ends`) of which reads or writes fail, and
//! `tests/serial` one that `serial` does; `tests/threads` holds threads by gates (`tests/gates`) and looks up replies in the
//! report (`tests/report_lines`), which `check` has to find right. `tests/locks` makes calls on one lock, by two threads and by
//! eight, joins passes in an odd order and rests; `tests/taps` attaches and detaches on a dvr node; `tests/lines` lets seats
//! serve lines that are cut, take no reply or are slow, where calls have moments behind their requests, and `tests/journals` a
//! server's files of which a write fails; `tests/entries` has the sizes of an entry and of a read.
//!
//! What is proved: that the tests are safe, and, but for those that wait, that they end. What is only tested, against values
//! worked out by hand from the rules: what is told and written where an end fails; that threads run beside each other in the
//! order that a gate forces, and that a made session ends; places and answers on a lock; what taps record; what a server leaves.
#![tactic(auto)]

#[cfg(test)]
mod tests;
