// Words, and those that name inputs and outputs.
ghost use Rattle.std.specs.Prelude.{◌≡◌, OnErr, ◌<◌};
ghost use Rattle.dmx_calls.specs.Names.{input_text, output_text};
ghost use Rattle.text_forms.specs.Words.{is_word as is_this_word, input_named as input_of_word, output_named as output_of_word};
ghost use Rattle.text_forms.specs.Appended.{Appended};

use dmx_calls::{Input, Output};
use std::alloc::AllocError as NoMemory;

/// Whether a word is this text.
pub fn is_word(word: &[u8], text: &str) -> bool
    ensures { result ≡ is_this_word word.now text.now }
{
    word == text.as_bytes()
}

/// Appends the word of an input.
///
/// # Errors
///
/// `NoMemory`; `out` is then as it was.
#[tactic(auto, using(crate::proofs::Short::short_input))]
pub fn write_input(out: &mut Vec<u8>, input: Input) -> Result<(), NoMemory>
    ensures appended { Appended 20 (input_text input) out.old out.new result }
    ensures unchanged { OnErr result (out.new.items ≡ out.old.items) }
{
    out.extend_from_slice(input.name().as_bytes())
}

/// Appends the word of an output.
///
/// # Errors
///
/// `NoMemory`; `out` is then as it was.
#[tactic(auto, using(crate::proofs::Short::short_output))]
pub fn write_output(out: &mut Vec<u8>, output: Output) -> Result<(), NoMemory>
    ensures appended { Appended 20 (output_text output) out.old out.new result }
    ensures unchanged { OnErr result (out.new.items ≡ out.old.items) }
{
    out.extend_from_slice(output.name().as_bytes())
}

/// The input of a word.
#[tactic(auto, unfolding(crate::specs::Words::input_named))]
pub fn input_named(word: &[u8]) -> Option<Input>
    ensures { result ≡ input_of_word word.now }
{
    if is_word(word, "frontend") {
        return Some(Input::Frontend);
    }
    if is_word(word, "dvr") {
        return Some(Input::Dvr);
    }
    None
}

/// The output of a word.
#[tactic(auto, unfolding(crate::specs::Words::output_named))]
pub fn output_named(word: &[u8]) -> Option<Output>
    ensures { result ≡ output_of_word word.now }
{
    if is_word(word, "decoder") {
        return Some(Output::Decoder);
    }
    if is_word(word, "tap") {
        return Some(Output::Tap);
    }
    if is_word(word, "ts_tap") {
        return Some(Output::TsTap);
    }
    if is_word(word, "tsdemux_tap") {
        return Some(Output::TsdemuxTap);
    }
    None
}
