// Clients walked: whether the told entries of a client are just what its commands ask for.
mod event;
mod queue;
mod walk;

ghost use Rattle.report_check.specs.WalkLaws.{WalkedIsDone, DoneIsWalked, WalksAreOne};

pub(crate) use event::asked;
pub use event::is_event;
pub use walk::is_walked;

/// The law that what can be walked was done. It has nothing to do.
#[tactic(auto, using(crate::proofs::Doing::walked_is_done))]
pub fn walked_is_done()
    ensures { WalkedIsDone }
{}

/// The law that what was done can be walked. It has nothing to do.
#[tactic(auto, using(crate::proofs::Doing::done_is_walked))]
pub fn done_is_walked()
    ensures { DoneIsWalked }
{}

/// The law that queues can be walked in one way only. It has nothing to do.
#[tactic(auto, using(crate::proofs::Dealt::one_walk))]
pub fn walks_are_one()
    ensures { WalksAreOne }
{}
