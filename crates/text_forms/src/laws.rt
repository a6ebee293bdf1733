// Laws: reading a spelling gives its value again.
ghost use Rattle.std.specs.Prelude.{◌≡◌, ◌/◌, ◌%◌, ◌<◌, ◌≤◌, ◌^◌, ◌++◌, ℕ, List, length, Some, codes};
ghost use Rattle.text_forms.specs.Imports.{All, Input, Output, Place, SectionFilter, decimal, filter_with, flat_map, input_text, option_map, output_text};
ghost use Rattle.text_forms.specs.Numbers.{number_between};
ghost use Rattle.text_forms.specs.Hex.{hex_byte, hex_bytes, digit_text, hex_text};
ghost use Rattle.text_forms.specs.Names.{client_named, client_text, demux_named, demux_text, slot_named, slot_text, who_named, who_text, node_named, node_text};
ghost use Rattle.text_forms.specs.Places.{HasBytes, IsFilter, filter_text, filter_words, place_named, place_text, places_named};
ghost use Rattle.text_forms.specs.Words.{input_named, output_named};

/// Reading a number of 64 bits from its digits gives it again, where it is in the range that is asked for.
pub fn numbers_are_read_again()
    ensures { (least most n : ℕ) → n < 2 ^ 64 → least ≤ n → n ≤ most
        → number_between least most (decimal n) ≡ Some n }
{}

/// Reading a byte from its two digits gives it again, and so does reading several from a word.
pub fn bytes_are_read_again()
    ensures one { (byte : ℕ) → byte < 256 → hex_byte (digit_text (byte / 16)) (digit_text (byte % 16)) ≡ Some byte }
    ensures word { (most : ℕ) (bytes : List ℕ) → length bytes ≤ most → All (λ byte. byte < 256) bytes
        → hex_bytes most (hex_text bytes) ≡ Some bytes }
{}

/// Reading the name of a client, a demux node or a slot gives it again.
pub fn script_names_are_read_again()
    ensures clients { (client : ℕ) → client ≤ 7 → client_named (client_text client) ≡ Some client }
    ensures nodes { (node : ℕ) → node ≤ 31 → demux_named (demux_text node) ≡ Some node }
    ensures slots { (slot : ℕ) → slot ≤ 31 → slot_named (slot_text slot) ≡ Some slot }
{}

/// Reading the name of a caller or of a node in a report gives it again.
pub fn report_names_are_read_again()
    ensures callers { (who : ℕ) → who ≤ 8 → who_named (who_text who) ≡ Some who }
    ensures nodes { (node : ℕ) → node ≤ 32 → node_named (node_text node) ≡ Some node }
{}

/// Reading the word of an input or of an output gives it again.
pub fn words_are_read_again()
    ensures inputs { (input : Input) → input_named (input_text input) ≡ Some input }
    ensures outputs { (output : Output) → output_named (output_text output) ≡ Some output }
{}

/// Reading a place of a filter gives it again.
pub fn places_are_read_again()
    ensures { (least : ℕ) (p : Place) → least ≤ p.number → p.number ≤ 15 → HasBytes p
        → place_named least (place_text p) ≡ Some p }
{}

/// The text of a filter is its words, each behind a space, and reading these words gives the filter again.
pub fn filters_are_read_again()
    ensures words { (filter : SectionFilter) → filter_text filter
        ≡ flat_map (λ word. codes " " ++ word) (filter_words filter) }
    ensures read { (filter : SectionFilter) → IsFilter filter
        → option_map filter_with (places_named 0 (filter_words filter)) ≡ Some filter }
{}
