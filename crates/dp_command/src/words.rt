// The words of a command line.

ghost use Rattle.std.specs.Prelude.{ℕ, [], ◌∷◌, map, MatchOption};
ghost use Rattle.dp_command.specs.Asked.{asked};
ghost use Rattle.dp_command.specs.Words.{AreNoCommand, AreNone, AskBoth, AskConflicts, AskWorkers, IsCount, IsJudging, IsOther, Spells};

// The most nogoods that a search learns, where no option says another number.
const USUAL_CONFLICTS: u32 = 1_000_000;

// The most that an option may say of nogoods, of workers, and of the size of a generated model.
const MOST_CONFLICTS: u32 = 4_000_000_000;

const MOST_WORKERS: u32 = 64;

const MOST_BLOCKS: u32 = 5_000;

// A number has so many digits at most.
const MOST_DIGITS: usize = 10;

/// What the words ask for.
#[derive(Clone, Copy, Debug, PartialEq, Eq)]
pub enum Command<'a> {
    /// Judges a log of a model.
    Check {
        /// The name of the model's text.
        model: &'a str,
        /// The name of the log.
        log: &'a str,
    },
    /// Shows a log's steps with the names of their atoms.
    Show {
        /// The name of the log.
        log: &'a str,
    },
    /// Makes a scaffold of a model into a log.
    Process {
        /// The name of the model's text.
        model: &'a str,
        /// The name of the scaffold.
        scaffold: &'a str,
        /// The name of the log that is written.
        out: &'a str,
        /// How many workers justify the nogoods.
        workers: u32,
    },
    /// Solves a model, and writes what is learned as a scaffold.
    Solve {
        /// The name of the model's text.
        model: &'a str,
        /// The name of the scaffold that is written.
        out: &'a str,
        /// The most nogoods that are learned.
        conflicts: u64,
    },
    /// Solves a model, makes what is learned into a log, and judges that, all in memory.
    Prove {
        /// The name of the model's text.
        model: &'a str,
        /// How many workers justify the nogoods.
        workers: u32,
        /// The most nogoods that are learned.
        conflicts: u64,
    },
    /// Writes a generated model and a scaffold of it.
    Gen {
        /// How many blocks the model has.
        n: u32,
        /// The name of the model that is written.
        model: &'a str,
        /// The name of the scaffold that is written.
        scaffold: &'a str,
    },
}

/// Reads the words of a command line, which stand behind the program's name. None exactly where they are no
/// command.
pub fn read_words<'a>(words: &[&'a str]) -> Option<Command<'a>>
    ensures { let texts = map (λ w. w.now) words.now in MatchOption result (AreNoCommand texts) (λ command. Spells (asked command) texts) }
{
    match words {
        ["prove", model, options @ ..] => match both_of(options) {
            Some((workers, conflicts)) => Some(Command::Prove {
                model,
                workers,
                conflicts: u64::from(conflicts),
            }),
            None => None,
        },
        _ => read_other(words),
    }
}

// Reads the words of each command but a proof. None exactly where they are none.
fn read_other<'a>(words: &[&'a str]) -> Option<Command<'a>>
    ensures { let texts = map (λ w. w.now) words.now in MatchOption result (AreNone IsOther texts) (λ command. Spells (asked command) texts) }
{
    match words {
        ["solve", model, out, options @ ..] => match conflicts_of(options) {
            Some(conflicts) => Some(Command::Solve {
                model,
                out,
                conflicts: u64::from(conflicts),
            }),
            None => None,
        },
        ["gen", digits, model, scaffold] => match count_of(digits, MOST_BLOCKS) {
            Some(n) => Some(Command::Gen { n, model, scaffold }),
            None => None,
        },
        _ => read_judging(words),
    }
}

// Reads the words of a command that judges or shows what stands in a file of steps. None exactly where they are none.
fn read_judging<'a>(words: &[&'a str]) -> Option<Command<'a>>
    ensures { let texts = map (λ w. w.now) words.now in MatchOption result (AreNone IsJudging texts) (λ command. Spells (asked command) texts) }
{
    match words {
        ["check", model, log] => Some(Command::Check { model, log }),
        ["show", log] => Some(Command::Show { log }),
        ["process", model, scaffold, out, options @ ..] => match workers_of(options) {
            Some(workers) => Some(Command::Process {
                model,
                scaffold,
                out,
                workers,
            }),
            None => None,
        },
        _ => None,
    }
}

// How many workers the options ask for. None exactly where they are no options of a run with workers.
fn workers_of(options: &[&str]) -> Option<u32>
    ensures { let texts = map (λ w. w.now) options.now in MatchOption result ((workers : ℕ) → AskWorkers texts workers → ⊥) (AskWorkers texts) }
{
    match options {
        [] => Some(1),
        ["--workers", digits] => count_of(digits, MOST_WORKERS),
        _ => None,
    }
}

// The most nogoods that the options of a search allow. None exactly where they are no options of it.
fn conflicts_of(options: &[&str]) -> Option<u32>
    ensures { let texts = map (λ w. w.now) options.now in MatchOption result ((most : ℕ) → AskConflicts texts most → ⊥) (AskConflicts texts) }
{
    match options {
        [] => Some(USUAL_CONFLICTS),
        ["--conflicts", digits] => count_of(digits, MOST_CONFLICTS),
        _ => None,
    }
}

// The workers and the most nogoods that the options ask for. None exactly where they aren't both kinds of options.
fn both_of(options: &[&str]) -> Option<(u32, u32)>
    ensures { let texts = map (λ w. w.now) options.now in MatchOption result ((workers most : ℕ) → AskBoth texts workers most → ⊥) (λ both. AskBoth texts both.0 both.1) }
{
    match options {
        [] => Some((1, USUAL_CONFLICTS)),
        [word, digits] => one_of(word, digits),
        [word, digits, other, others] => each_of(word, digits, other, others),
        _ => None,
    }
}

// The workers and the most nogoods of two options. None exactly where they aren't one of each kind.
fn each_of(word: &str, digits: &str, other: &str, others: &str) -> Option<(u32, u32)>
    ensures { let texts = word.now ∷ digits.now ∷ other.now ∷ others.now ∷ [] in MatchOption result ((workers most : ℕ) → AskBoth texts workers most → ⊥) (λ both. AskBoth texts both.0 both.1) }
{
    if word == "--workers" && other == "--conflicts" {
        two_of(digits, others)
    } else if word == "--conflicts" && other == "--workers" {
        two_of(others, digits)
    } else {
        None
    }
}

// The workers and the most nogoods of one option, with the usual number of the other. None exactly where it is neither.
fn one_of(word: &str, digits: &str) -> Option<(u32, u32)>
    ensures { MatchOption result ((workers most : ℕ) → AskBoth (word.now ∷ digits.now ∷ []) workers most → ⊥) (λ both. AskBoth (word.now ∷ digits.now ∷ []) both.0 both.1) }
{
    match word {
        "--workers" => Some((count_of(digits, MOST_WORKERS)?, USUAL_CONFLICTS)),
        "--conflicts" => Some((1, count_of(digits, MOST_CONFLICTS)?)),
        _ => None,
    }
}

// The number of workers and of nogoods that two options' digits spell. None exactly where one spells none.
fn two_of(workers: &str, conflicts: &str) -> Option<(u32, u32)>
    ensures { MatchOption result ((n m : ℕ) → IsCount 64 workers.now n → IsCount 4000000000 conflicts.now m → ⊥) (λ both. IsCount 64 workers.now both.0 × IsCount 4000000000 conflicts.now both.1) }
{
    let workers = count_of(workers, MOST_WORKERS)?;
    let conflicts = count_of(conflicts, MOST_CONFLICTS)?;
    Some((workers, conflicts))
}

// The number that digits spell, from 1 to the greatest. None exactly where they spell none of these.
fn count_of(digits: &str, greatest: u32) -> Option<u32>
    ensures { MatchOption result ((n : ℕ) → IsCount greatest digits.now n → ⊥) (IsCount greatest digits.now) }
{
    if digits.len() > MOST_DIGITS || digits.starts_with('+') {
        return None;
    }
    match digits.parse::<u32>() {
        Ok(number) if 1 <= number && number <= greatest => Some(number),
        Ok(_) | Err(_) => None,
    }
}
