// The laws of reading canonical lines back, over the definitions alone.

ghost use Rattle.std.specs.Prelude.{◌≡◌, ◌+◌, ◌≤◌, ◌++◌, ℕ, false, List, [], length, None, Some, Ok};
ghost use Rattle.std.specs.List.{enumerate_from};
ghost use Rattle.dp_base.specs.Lists.{Each};
ghost use Rattle.dp_lines.specs.RawLines.{raw_lines};
ghost use Rattle.dp_lines.specs.Lines.{lines, lines_behind, no_lines};
ghost use Rattle.dp_lines.specs.Logs.{AreNext, Holds, IsNext, all_of, asked_for, behind_line, behind_log, log_text};
ghost use Rattle.dp_lines.specs.Readers.{State, after, answer_of, fed, fresh, left, standing};
ghost use Rattle.dp_lines.specs.Runs.{Call, IsInOrder, fed_by, run, with_all};
ghost use Rattle.dp_lines.specs.Spelling.{line_text};
ghost use Rattle.dp_lines.specs.declared.line.Line.{Line};
ghost use Rattle.dp_lines.specs.declared.refusal.Limits.{Limits};

/// A reader whose limits hold a line, and which holds the line's canonical spelling or is fed it, answers that line with the
/// next number, whatever stands behind it. Then just the bytes behind it are left.
#[tactic(auto, using(crate::proofs::ReadBackLaws::next_line, crate::proofs::ReadBackLaws::next_state, crate::proofs::ReadBackLaws::fed_line))]
pub fn line_read_back()
    ensures held { (s : State) (line : Line) (rest : List ℕ) → IsNext s line rest → answer_of s ≡ Ok (Some (s.count + 1, line)) }
    ensures passed { (s : State) (line : Line) (rest : List ℕ) → IsNext s line rest → after s ≡ behind_line s line rest }
    ensures fed { (s : State) (line : Line) (rest : List ℕ) → standing s ≡ [] → s.refusal ≡ None →
        Holds s.limits line → s.passed + length (line_text line) ≤ s.limits.total →
        answer_of (fed s (line_text line ++ rest)) ≡ Ok (Some (s.count + 1, line)) }
{}

/// A reader that holds a canonical log is asked for each of its lines: it gives just these, and then just the bytes behind them
/// are left.
#[tactic(auto, using(crate::proofs::ReadBackLaws::log_asked))]
pub fn lines_read_back()
    ensures { (s : State) (log : List Line) (rest : List ℕ) → AreNext s log rest →
        run (asked_for log) s ≡ record { given = enumerate_from (s.count + 1) log; state = behind_log s log rest } }
{}

/// A canonical log that the limits hold is read back as its lines, with their numbers from 1: before whatever stands behind it,
/// as a whole text, and by a reader that is fed it in any pieces.
#[tactic(auto, using(crate::proofs::ReadBackLaws::log_front, crate::proofs::ReadBackLaws::log_whole, crate::proofs::ReadBackLaws::log_told, crate::proofs::ReadBackLaws::log_given))]
pub fn log_read_back()
    ensures front { (limits : Limits) (log : List Line) (rest : List ℕ) → Each (Holds limits) log → length (log_text log) ≤ limits.total →
        lines limits (log_text log ++ rest)
        ≡ with_all (enumerate_from 1 log) (lines_behind limits (length log) (length (log_text log)) (raw_lines rest)) }
    ensures whole { (limits : Limits) (log : List Line) → Each (Holds limits) log → length (log_text log) ≤ limits.total →
        lines limits (log_text log) ≡ all_of log }
    ensures pieces { (calls : List Call) (limits : Limits) (log : List Line) → IsInOrder false calls → fed_by calls ≡ log_text log →
        Each (Holds limits) log → length (log_text log) ≤ limits.total →
        with_all (run calls (fresh limits)).given (left (run calls (fresh limits)).state) ≡ all_of log }
    ensures given { (calls : List Call) (limits : Limits) (log : List Line) → IsInOrder false calls → fed_by calls ≡ log_text log →
        Each (Holds limits) log → length (log_text log) ≤ limits.total →
        left (run calls (fresh limits)).state ≡ no_lines → (run calls (fresh limits)).given ≡ enumerate_from 1 log }
{}
