// Laws of the definitions.
ghost use Rattle.std.specs.Prelude.{◌≡◌, ◌<◌, ◌≤◌, ◌⊎◌, ◌++◌, ◌∷◌, [], ℕ, List, length, take, drop, codes, Some, None};
ghost use Rattle.std.specs.List.{All, flat_map, range_with_len};
ghost use Rattle.client_script.specs.Grammar.{IsInRange};
ghost use Rattle.client_script.specs.Script.{grammar, plain, Scripted, with_said, writes_of, named_among, AreWritten, HasWrite, IsOnDvr, split, most_bytes, script_len, whole_lines};
ghost use Rattle.client_script.specs.Spelling.{spelling, said_again, with_all};
ghost use Rattle.client_script.specs.declared.line.Line.{Line};

/// The script part of an input has the lines, or the fault, of all bytes that are searched for it: what stands behind the
/// line `stream` is never examined.
pub fn nothing_behind_the_stream_is_examined()
    ensures { (input : List ℕ) → grammar (split input).script ≡ grammar (take most_bytes input) }
{}

/// The lines of a client name its writes in their order, from 0 on, each once: so a script has no other writes than those of
/// its lines.
#[tactic(auto, using(crate::proofs::Numbering::named_in_order))]
pub fn each_write_has_its_line()
    ensures { (bytes : List ℕ) (s : Scripted) (client : ℕ) → client ≤ 7 → grammar bytes ≡ Ok s
        → named_among client s.lines ≡ range_with_len 0 (length (writes_of client s.writes)) }
{}

/// Reading the spellings of lines of a script, and the line `stream` behind them, gives what these lines say again, each with its
/// number in the script: the same calls, and the same bytes of writes. So it is for a single line.
pub fn printed_lines_are_read_again()
    ensures line { (s : Scripted) (line : Line) → All AreWritten s.writes → IsInRange line → IsOnDvr line
        → HasWrite s.writes line
        → grammar (spelling s.writes line ++ codes "stream\n")
        ≡ Ok (with_said (Some (said_again 1 s.writes line)) (plain [])) }
    ensures script { (s : Scripted) (lines : List Line) → All AreWritten s.writes → All IsInRange lines → All IsOnDvr lines
        → All (HasWrite s.writes) lines
        → grammar (flat_map (spelling s.writes) lines ++ codes "stream\n") ≡ Ok (with_all 1 s.writes lines (plain [])) }
{}

/// Where the first bytes of an input hold the whole line `stream`, they have its script part, and the others are its stream.
pub fn the_script_part_ends_with_its_line_stream()
    ensures { (first others : List ℕ) (n : ℕ) → length first ≤ most_bytes → script_len (whole_lines first) ≡ Some n
        → split (first ++ others) ≡ record { script = take n first; stream = Some (drop n first ++ others) } }
{}

/// Where all bytes that are searched, or all bytes of the input, don't hold the whole line `stream`, they are the script
/// part, and there is no stream.
pub fn without_a_line_stream_all_bytes_are_the_script_part()
    ensures { (first others : List ℕ) → length first ≤ most_bytes → script_len (whole_lines first) ≡ None
        → (length first ≡ most_bytes) ⊎ (others ≡ [])
        → split (first ++ others) ≡ record { script = first; stream = None } }
{}

/// The line `stream` ends behind all bytes that don't hold it.
#[tactic(auto, using(crate::proofs::Lengthening::stream_ends_later))]
pub fn the_line_stream_ends_behind_bytes_that_lack_it()
    ensures { (first others : List ℕ) (n : ℕ) → script_len (whole_lines first) ≡ None
        → script_len (whole_lines (first ++ others)) ≡ Some n → length first < n }
{}
