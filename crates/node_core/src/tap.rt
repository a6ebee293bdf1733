// What Done tells of the tap by which the dvr node records what a node's filter names.
//
// A filter with DMX_OUT_TS_TAP gives nothing to the reader of its own node: while it runs, its packets go to the dvr node.
// Done tells the caller what to make of it there: attach these PIDs, detach, or keep what is there.

ghost use Rattle.std.specs.Prelude.{◌≡◌, if◌then◌else◌};
ghost use Rattle.dmx_calls.specs.declared.reply.Tap.TheVariants.{Keep as KeepTap, Detach as DetachTap};
ghost use Rattle.node_core.specs.Inside.KeptView.{is_recording_for, tap_told};

use crate::tenure::Tenure;
use dmx_calls::{Output, Params, State, Tap};

impl Tenure {
    /// The node records: its filter runs, and its packets go to the dvr node.
    pub fn is_recording(&self) -> bool
        ensures { result ≡ is_recording_for self.now }
    {
        match &self.params {
            Params::Pes { params, .. } if params.output == Output::TsTap => {
                self.state() == State::Go
            }
            _ => false,
        }
    }

    /// What Done tells of the tap after a call. `recorded` says that the node recorded before it; `renews`, that the call is a
    /// start or a set call, or one that changed the PIDs.
    pub fn tap(&self, recorded: bool, renews: bool) -> Tap
        ensures { result ≡ tap_told recorded renews self.now }
    {
        if !self.is_recording() {
            return tap_of_idle(recorded);
        }
        match &self.params {
            Params::Pes { pids, .. } if renews => Tap::Attach(pids.fitted()),
            _ => Tap::Keep,
        }
    }
}

/// The same after a call by which the node doesn't record, or no longer.
pub fn tap_of_idle(recorded: bool) -> Tap
    ensures { result ≡ if recorded then DetachTap else KeepTap }
{
    if recorded { Tap::Detach } else { Tap::Keep }
}
