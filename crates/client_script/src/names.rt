// The names of commands and of targets.
ghost use Rattle.std.specs.Prelude.{◌≡◌, ◌≤◌, IfSome};
ghost use Rattle.client_script.specs.Grammar.{numbered_target as target_of_letter, target_of, name_of, IsTargetInRange};

use crate::line::Target;
use text_forms::{demux_named, is_word, slot_named};

/// A command, by its name alone.
#[derive(Clone, Copy, Debug, PartialEq, Eq, Drop)]
pub enum CommandName {
    Open,
    Close,
    Section,
    Pes,
    Add,
    Remove,
    Start,
    Stop,
    Size,
    Read,
    ReadWait,
    Drain,
    Poll,
    Ioctl,
}

/// The command of this name.
#[tactic(auto, unfolding(crate::specs::Grammar::name_of))]
pub fn command_named(word: &[u8]) -> Option<CommandName>
    ensures { result ≡ name_of word.now }
{
    if is_word(word, "open") {
        return Some(CommandName::Open);
    }
    if is_word(word, "close") {
        return Some(CommandName::Close);
    }
    if is_word(word, "section") {
        return Some(CommandName::Section);
    }
    if is_word(word, "pes") {
        return Some(CommandName::Pes);
    }
    if is_word(word, "add") {
        return Some(CommandName::Add);
    }
    if is_word(word, "remove") {
        return Some(CommandName::Remove);
    }
    if is_word(word, "start") {
        return Some(CommandName::Start);
    }
    if is_word(word, "stop") {
        return Some(CommandName::Stop);
    }
    if is_word(word, "size") {
        return Some(CommandName::Size);
    }
    if is_word(word, "read") {
        return Some(CommandName::Read);
    }
    if is_word(word, "readw") {
        return Some(CommandName::ReadWait);
    }
    if is_word(word, "drain") {
        return Some(CommandName::Drain);
    }
    if is_word(word, "poll") {
        return Some(CommandName::Poll);
    }
    if is_word(word, "ioctl") {
        return Some(CommandName::Ioctl);
    }
    None
}

// The node or the slot that a word names by its number.
#[tactic(auto, unfolding(crate::specs::Grammar::numbered_target))]
fn numbered_target(word: &[u8]) -> Option<Target>
    ensures value { result ≡ target_of_letter word.now }
    ensures range { IfSome result IsTargetInRange }
{
    if let Some(node) = demux_named(word) {
        return Some(Target::Node(node));
    }
    let slot = slot_named(word)?;
    Some(Target::Slot(slot))
}

/// The target that a word names.
#[tactic(auto, unfolding(crate::specs::Grammar::target_of))]
pub fn target_named(word: &[u8]) -> Option<Target>
    ensures value { result ≡ target_of word.now }
    ensures range { IfSome result IsTargetInRange }
{
    if is_word(word, "dvr") {
        return Some(Target::Dvr);
    }
    numbered_target(word)
}
