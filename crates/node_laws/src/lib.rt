//! Laws of the histories that `dmx_calls` defines: each is the contract of a function that does nothing.
//!
//! What a contract sees: histories, and the `Rules` in which a demux node and the dvr node differ. `specs/Laws.antt`,
//! `specs/Owning.antt` and `specs/Bytes.antt` have the statements; what `dmx_calls` itself needs of them stands there.
//!
//! What is proved: every legal history is accounted, so each byte is given, named as lost or named as dropped, in its place; an
//! entry that isn't accepted changes nothing; the items of a capture only grow; an overflow's item needs more than the room
//! that it found; a node answers no more bytes than its passes bring, and an Overflow at least one; nobody but its owner reads
//! a node, and it stays the owner's whatever others call; entries of which each has the answer that those before it give are a
//! legal history; a Pass and an End are answered Passed; a report loses nothing of a call. `script_run` stands on some of
//! these; neither a node nor its buffer does. And one history worked out by hand, which the checker computes
//! (`specs/Examples.antt`); the sessions of `examples/rows` have the others.
//!
//! No code of the crate runs, so nothing of it is tested. All of it is this project's own.
#![tactic(auto)]

ghost use Rattle.node_laws.specs.Imports.{FilledIsTheCall, PassesGoBy, Rules, UnacceptedChangesNothing, demux, dvr};
ghost use Rattle.node_laws.specs.Owning.{OthersLeaveTheOwner, OthersDoNotRead, ReadersCallBetween};
ghost use Rattle.node_laws.specs.Bytes.{AnswersFitThePackets, OverflowNamesAByte};
ghost use Rattle.node_laws.specs.Examples.{SaidAtTheRead, SaidBehindTheRead, TapsAreRefused};
ghost use Rattle.node_laws.specs.Laws.{LegalIsAccounted, PlayedIsLegal, ItemsOnlyGrow, OverflowNeedsMore};

/// Each byte of each capture of a legal history is given, named as lost or named as dropped, in its place.
#[tactic(auto, using(crate::proofs::LawsHold::demux_accounted, crate::proofs::LawsHold::dvr_accounted))]
pub fn legal_histories_are_accounted()
    ensures demux_nodes { LegalIsAccounted demux }
    ensures dvr_node { LegalIsAccounted dvr }
{}

/// Entries of which each has the answer that those before it give are a legal history.
#[tactic(auto, using(crate::proofs::LawsHold::played_is_legal))]
pub fn played_entries_are_legal()
    ensures { (node : Rules) → PlayedIsLegal node }
{}

/// An entry that isn't accepted changes nothing of what was set, the capture, its items and its ledger.
pub fn unaccepted_entries_change_nothing()
    ensures demux_nodes { UnacceptedChangesNothing demux }
    ensures dvr_node { UnacceptedChangesNothing dvr }
{}

/// The items of a capture only grow.
#[tactic(auto, using(crate::proofs::LawsHold::demux_grows, crate::proofs::LawsHold::dvr_grows))]
pub fn items_only_grow()
    ensures demux_nodes { ItemsOnlyGrow demux }
    ensures dvr_node { ItemsOnlyGrow dvr }
{}

/// The item of a pending overflow needs more than the room that it found.
#[tactic(auto, using(crate::proofs::LawsHold::overflow_needs_more))]
pub fn overflows_need_more_than_their_room()
    ensures { (node : Rules) → OverflowNeedsMore node }
{}

/// A node answers, as given or as lost, no more bytes than its passes bring.
#[tactic(auto, using(crate::proofs::Bytes::demux_answers_fit, crate::proofs::Bytes::dvr_answers_fit))]
pub fn answers_fit_the_packets()
    ensures demux_nodes { AnswersFitThePackets demux }
    ensures dvr_node { AnswersFitThePackets dvr }
{}

/// Nobody but its owner reads a node, and it stays its owner's whatever others call.
pub fn a_node_is_its_owners()
    ensures stays { (node : Rules) → OthersLeaveTheOwner node }
    ensures reads { (node : Rules) → OthersDoNotRead node }
    ensures between { (node : Rules) → ReadersCallBetween node }
{}

/// An Overflow names at least one byte.
pub fn an_overflow_names_a_byte()
    ensures demux_nodes { OverflowNamesAByte demux }
    ensures dvr_node { OverflowNamesAByte dvr }
{}

/// A Pass and an End are answered Passed.
#[tactic(auto, using(dmx_calls::proofs::Telling::go_by))]
pub fn passes_go_by()
    ensures { (node : Rules) → PassesGoBy node }
{}

/// A report loses nothing of a call: filled with the packets that its caller brings, it is the call.
#[tactic(auto, using(dmx_calls::proofs::Telling::fills))]
pub fn filled_calls_are_the_calls()
    ensures { FilledIsTheCall }
{}

/// What the definitions say of a history that was worked out by hand, before an overflow and behind it; and that a demux node
/// refuses the calls of taps.
pub fn worked_histories()
    ensures at_the_read { SaidAtTheRead }
    ensures behind_the_read { SaidBehindTheRead }
    ensures taps { TapsAreRefused }
{}
