// The laws of reading, over the definitions alone.

ghost use Rattle.std.specs.Prelude.{◌≡◌, ◌+◌, ◌≤◌, ◌++◌, ◌↔◌, ℕ, true, false, List, [], length, None, Some, Ok};
ghost use Rattle.dp_lines.specs.Allowed.{IsAllowed};
ghost use Rattle.dp_lines.specs.RawLines.{raw_lines};
ghost use Rattle.dp_lines.specs.Lines.{judged_content, lines, lines_behind, no_lines, with_line};
ghost use Rattle.dp_lines.specs.Readers.{State, after, answer_of, fresh, left, standing};
ghost use Rattle.dp_lines.specs.Runs.{Call, IsInOrder, fed_by, run, with_all};
ghost use Rattle.dp_lines.specs.SoFar.{HasNoEnd, left_so_far, lines_so_far};
ghost use Rattle.dp_lines.specs.Standing.{HasNoWhole};
ghost use Rattle.dp_lines.specs.Lenient.{Spells, texts};
ghost use Rattle.dp_lines.specs.Words.{end_of, words};
ghost use Rattle.dp_lines.specs.FirstFlaw.{IsFirstRefusal};
ghost use Rattle.dp_lines.specs.declared.refusal.LineRefusal.{LineRefusal};
ghost use Rattle.dp_lines.specs.Spelling.{fields_text, line_text};
ghost use Rattle.dp_lines.specs.declared.judge.Judged.TheVariants.{Given, Refused};
ghost use Rattle.dp_lines.specs.declared.line.Line.{Line};
ghost use Rattle.dp_lines.specs.declared.refusal.Limits.{Limits};

/// However a text is fed and whenever a reader is asked: the lines that it has given, followed by those that are left, are
/// the lines of the whole text; and the lines that it has passed, with those that are left, are as many as the text has.
#[tactic(auto, using(crate::proofs::RunLaws::run_fresh, crate::proofs::RunLaws::counts_fresh))]
pub fn any_pieces()
    ensures lines { (calls : List Call) (limits : Limits) → IsInOrder false calls →
        with_all (run calls (fresh limits)).given (left (run calls (fresh limits)).state) ≡ lines limits (fed_by calls) }
    ensures numbers { (calls : List Call) (limits : Limits) → IsInOrder false calls →
        (run calls (fresh limits)).state.count + length (raw_lines (standing (run calls (fresh limits)).state)) ≡ length (raw_lines (fed_by calls)) }
{}

/// While a text comes: the lines that a reader has given, followed by those that it has not given yet of the lines whose end
/// has come, are the lines of the text so far. So where no whole line is left they are all given, and a refusal ends them.
#[tactic(auto, using(crate::proofs::RunLaws::run_so_far, crate::proofs::RunLaws::given_so_far, crate::proofs::RunLaws::refused_so_far))]
pub fn so_far()
    ensures lines { (calls : List Call) (limits : Limits) → HasNoEnd calls →
        with_all (run calls (fresh limits)).given (left_so_far (run calls (fresh limits)).state) ≡ lines_so_far limits (fed_by calls) }
    ensures given { (calls : List Call) (limits : Limits) → HasNoEnd calls → HasNoWhole (run calls (fresh limits)).state →
        (run calls (fresh limits)).state.refusal ≡ None →
        lines_so_far limits (fed_by calls) ≡ record { given = (run calls (fresh limits)).given; refusal = None } }
    ensures refused { (calls : List Call) (limits : Limits) (refusal : LineRefusal) → HasNoEnd calls →
        (run calls (fresh limits)).state.refusal ≡ Some refusal →
        lines_so_far limits (fed_by calls) ≡ record { given = (run calls (fresh limits)).given; refusal = Some refusal } }
{}

/// Behind the end, a reader that answers that nothing is left has given and passed all lines.
#[tactic(auto, using(crate::proofs::RunLaws::ends_empty, crate::proofs::RunLaws::ends_without))]
pub fn nothing_left()
    ensures lines { (s : State) → s.ended ≡ true → answer_of s ≡ Ok None → left (after s) ≡ no_lines }
    ensures text { (s : State) → s.ended ≡ true → answer_of s ≡ Ok None → standing (after s) ≡ [] }
{}

/// A line with allowed fields is read again from its canonical spelling: alone, and in a log whose limits hold it, where the
/// lines behind it are those of what follows.
#[tactic(auto, using(crate::proofs::RoundTrip::line_again, crate::proofs::RoundTrip::log_again))]
pub fn round_trip()
    ensures line { (number : ℕ) (line : Line) → IsAllowed line → judged_content number (fields_text line) ≡ Given line }
    ensures log { (limits : Limits) (count passed : ℕ) (line : Line) (rest : List ℕ) → IsAllowed line →
        length (fields_text line) ≤ limits.line → passed + length (line_text line) ≤ limits.total →
        lines_behind limits count passed (raw_lines (line_text line ++ rest))
        ≡ with_line (count + 1) line (lines_behind limits (count + 1) (passed + length (line_text line)) (raw_lines rest)) }
{}

/// The line of some bytes before a line's end is the one that their words spell, if they spell one.
#[tactic(auto, using(crate::proofs::LenientLaws::given_is_spelled))]
pub fn every_spelling()
    ensures { (number : ℕ) (bytes : List ℕ) (line : Line) → (judged_content number bytes ≡ Given line) ↔ Spells line (texts (words bytes)) }
{}

/// A line whose limits hold is refused for the first flaw of its words: those before it begin a line, and with it no words
/// spell one.
#[tactic(auto, using(crate::proofs::FlawLaws::refused_first))]
pub fn first_flaw()
    ensures { (number : ℕ) (bytes : List ℕ) (refusal : LineRefusal) → judged_content number bytes ≡ Refused refusal →
        IsFirstRefusal number (end_of bytes) (words bytes) refusal }
{}
