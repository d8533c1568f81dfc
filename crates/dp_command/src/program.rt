// The top call.

ghost use Rattle.std.specs.Prelude.{◌≡◌, ◌≢◌, ◌⊎◌, ◌<◌, ◌≤◌, map, IfOk, IsErrOf};
ghost use Rattle.dp_desk.specs.Channel.{Grows};
ghost use Rattle.dp_desk.specs.Causes.{Rose};
ghost use Rattle.dp_command.specs.Asked.{asked};
ghost use Rattle.dp_command.specs.Patience.{HasPatience, WasPatient};
ghost use Rattle.dp_command.specs.Words.{IsGen, IsInRange, IsProcess, IsSolve};
ghost use Rattle.dp_command.specs.declared.trouble.Trouble.TheVariants.{ReadFault};
ghost use Rattle.dp_command.specs.Inputs.{HasReadCause};
ghost use Rattle.dp_command.specs.Due.{Said, SaidPart, ChangesInputs, ChangesOutputs, Leaves, LeavesUnasked, AreAtEnd, ReadsToEnd};
ghost use Rattle.dp_command.specs.Promises.{Answers, AreTrue, CountsFaults, LeavesFronts, Touches};
ghost use Rattle.dp_command.specs.Solving.{IsReplied, IsSolved, SolvesModel, SolvesModelPart};
ghost use Rattle.dp_command.specs.Tasks.{IfGood, IsTask, IsTaskTo, LeavesUnreadBy};
ghost use Rattle.dp_command.specs.Texts.{read_fault};

use crate::check::check;
use crate::generate::generate;
use crate::process::process;
use crate::prove::prove;
use crate::reply::Reply;
use crate::saying::{hand_over, say};
use crate::show::show;
use crate::solve::{search, solve};
use crate::task::Task;
use crate::{Command, OUT_OF_MEMORY, READ_FAULT, Trouble, read_words};
use dp_base::Memory;
use dp_desk::Desk;
use dp_pool::Gate;
use std::alloc::Global;
use std::thread::Threads;

/// Does what the words ask for over a desk, and answers the status that the program ends with.
///
/// The words are judged first, then the model, then the log or the scaffold, line by line while it is read: a refusal
/// at a line comes before a later read. A log is shown without a model, and a model
/// is solved and proved without a log; a model and a scaffold are generated without an input. Status 0 comes where the log
/// is accepted or shown to its end, the scaffold is processed, the model is solved or proved or is generated, 1 where it is refused, 2 where the words are no command, 3 where the model
/// is refused, 4 where the most nogoods were learned, 5 and 6 where an input and where an output failed, and 7 for want
/// of memory. At each status but 7 a text is written as the answer. The processed log is opened and written only where
/// nothing but a write can fail, before the answer; the scaffold of a model that is solved is opened where the model is
/// not refused, and is written while it is solved; a model is proved without a file. A generated model is opened and written,
/// then its scaffold, then the answer. Several workers justify the nogoods of a scaffold, and the gate is told of each; what is
/// answered is the same for every number of workers and every gate.
pub fn run<R: Threads + Sync, D: Desk, G: Gate>(
    rt: &R,
    alloc: Global,
    words: &[&str],
    desk: &mut D,
    gate: &G,
) -> u8
    // Which status, which file and which text.
    ensures answered { let texts = map (λ w. w.now) words.now in Answers (D.sight desk.old).names texts result (D.sight desk.old) (D.sight desk.new) }
    // What that says of the model and of the scaffold is so.
    ensures holds { let texts = map (λ w. w.now) words.now in AreTrue (D.sight desk.old).names texts result (D.sight desk.old) (D.sight desk.new) }
    // Which inputs and outputs are opened, and which are read to their end.
    ensures touched { let texts = map (λ w. w.now) words.now in Touches texts result (D.sight desk.old) (D.sight desk.new) }
    // Faults have a cause and are never hidden.
    ensures faults { let texts = map (λ w. w.now) words.now in CountsFaults (D.sight desk.old).names texts result (D.faults_in desk.old) (D.faults_in desk.new) (D.faults_out desk.old) (D.faults_out desk.new) (D.sight desk.old) (D.sight desk.new) }
    // After a failed write and for want of memory fronts of what was due stand there.
    ensures fronts { let texts = map (λ w. w.now) words.now in LeavesFronts (D.sight desk.old).names texts result (Rose (D.faults_in desk.old) (D.faults_in desk.new)) (D.sight desk.old) (D.sight desk.new) }
{
    perform(rt, alloc, words, desk, gate)
}

// Does what the words ask for: the facts of which those of the top call are made.
fn perform<R: Threads + Sync, D: Desk, G: Gate>(
    rt: &R,
    alloc: Global,
    words: &[&str],
    desk: &mut D,
    gate: &G,
) -> u8
    ensures answered { let texts = map (λ w. w.now) words.now in IsReplied texts result → Said (D.sight desk.old).names texts result (D.sight desk.old) (D.sight desk.new) }
    ensures solved { let texts = map (λ w. w.now) words.now in IsSolved texts result → SolvesModel (D.sight desk.old).names texts result (D.sight desk.old) (D.sight desk.new) }
    ensures ended { let texts = map (λ w. w.now) words.now in result ≡ 0 → ReadsToEnd texts (D.sight desk.new) }
    ensures unread_log { result ≡ 3 → (D.sight desk.new).log ≡ (D.sight desk.old).log }
    ensures unasked { let texts = map (λ w. w.now) words.now in Leaves texts (D.sight desk.old) (D.sight desk.new) }
    ensures unfiled_words { let texts = map (λ w. w.now) words.now in (IsProcess texts → ⊥) → (IsSolve texts → ⊥) → (IsGen texts → ⊥) → (D.sight desk.new).first ≡ (D.sight desk.old).first }
    ensures unfiled { let texts = map (λ w. w.now) words.now in result ≢ 0 → result ≢ 6 → (IsSolve texts → result ≢ 4 × (result ≢ 7)) → (D.sight desk.new).first ≡ (D.sight desk.old).first }
    ensures second_words { let texts = map (λ w. w.now) words.now in (IsGen texts → ⊥) → (D.sight desk.new).second ≡ (D.sight desk.old).second }
    ensures second_unfiled { result ≢ 0 → result ≢ 6 → (D.sight desk.new).second ≡ (D.sight desk.old).second }
    ensures read_fault { result ≡ 5 → Rose (D.faults_in desk.old) (D.faults_in desk.new) × Grows (D.sight desk.old).answer (D.sight desk.new).answer read_fault }
    ensures write_fault { result ≡ 6 → Rose (D.faults_out desk.old) (D.faults_out desk.new) }
    ensures patient { let texts = map (λ w. w.now) words.now in result ≡ 5 → WasPatient (D.sight desk.old).names texts (D.sight desk.old).log (D.sight desk.new).log }
    ensures in_seen { D.faults_in desk.old < D.faults_in desk.new → 5 ≤ result }
    ensures out_seen { let texts = map (λ w. w.now) words.now in D.faults_out desk.old < D.faults_out desk.new → result ≡ 6 ⊎ (result ≡ 7 × IsSolve texts) }
    ensures in_counted { D.faults_in desk.old ≤ D.faults_in desk.new }
    ensures out_counted { D.faults_out desk.old ≤ D.faults_out desk.new }
    ensures front { let texts = map (λ w. w.now) words.now in result ≡ 6 → SaidPart (D.sight desk.old).names texts (Rose (D.faults_in desk.old) (D.faults_in desk.new)) (D.sight desk.old) (D.sight desk.new) ⊎ SolvesModelPart (D.sight desk.old).names texts (D.sight desk.old) (D.sight desk.new) }
    ensures left { let texts = map (λ w. w.now) words.now in result ≡ 7 → IsSolve texts → (D.sight desk.new).first ≡ (D.sight desk.old).first ⊎ SolvesModelPart (D.sight desk.old).names texts (D.sight desk.old) (D.sight desk.new) }
    ensures nothing { result ≡ 7 → (D.sight desk.new).answer ≡ (D.sight desk.old).answer }
    ensures rest { ChangesOutputs (D.sight desk.old) (D.sight desk.new) }
    ensures known { result ≤ 7 }
{
    match task_of(rt, alloc, words, desk, gate) {
        Ok(task) => match task {
            Task::Say(reply) => match reply.text(alloc) {
                Ok(text) => hand_over(desk, &reply, text.as_slice()),
                Err(Memory) => OUT_OF_MEMORY,
            },
            Task::Solve(found) => search(alloc, &found, desk),
        },
        Err(Trouble::ReadFault) => say(desk, b"read fault\n", READ_FAULT),
        Err(Trouble::Memory) => OUT_OF_MEMORY,
    }
}

// Reads and judges what the words ask for, and writes nothing.
fn task_of<R: Threads + Sync, D: Desk, G: Gate>(
    rt: &R,
    alloc: Global,
    words: &[&str],
    desk: &mut D,
    gate: &G,
) -> Result<Task, Trouble>
    ensures due { let texts = map (λ w. w.now) words.now in IfOk result (IsTask (D.sight desk.old).names texts) }
    ensures ended { let texts = map (λ w. w.now) words.now in IfOk result (λ task. IfGood task (ReadsToEnd texts (D.sight desk.new))) }
    ensures patient { let texts = map (λ w. w.now) words.now in IsErrOf result ReadFault → WasPatient (D.sight desk.old).names texts (D.sight desk.old).log (D.sight desk.new).log }
    ensures unread { IfOk result (λ task. LeavesUnreadBy task (D.sight desk.old) (D.sight desk.new)) }
    ensures unasked { let texts = map (λ w. w.now) words.now in Leaves texts (D.sight desk.old) (D.sight desk.new) }
    ensures rest { ChangesInputs (D.sight desk.old) (D.sight desk.new) }
    ensures cause { HasReadCause (D.faults_in desk.old) (D.faults_in desk.new) result }
    ensures other { D.faults_out desk.new ≡ D.faults_out desk.old }
{
    match read_words(words) {
        Some(command) => obey(rt, alloc, command, desk, gate),
        None => Ok(Task::Say(Reply::NoCommand)),
    }
}

// Reads and judges what a command asks for, and writes nothing.
fn obey<R: Threads + Sync, D: Desk, G: Gate>(
    rt: &R,
    alloc: Global,
    command: Command<'_>,
    desk: &mut D,
    gate: &G,
) -> Result<Task, Trouble>
    requires { IsInRange (asked command) }
    ensures due { IfOk result (IsTaskTo (D.sight desk.old).names (asked command.entry)) }
    ensures ended { IfOk result (λ task. IfGood task (AreAtEnd (asked command.entry) (D.sight desk.new))) }
    ensures patient { IsErrOf result ReadFault → HasPatience (D.sight desk.old).names (asked command.entry) (D.sight desk.old).log (D.sight desk.new).log }
    ensures unread { IfOk result (λ task. LeavesUnreadBy task (D.sight desk.old) (D.sight desk.new)) }
    ensures unasked { LeavesUnasked (asked command.entry) (D.sight desk.old) (D.sight desk.new) }
    ensures rest { ChangesInputs (D.sight desk.old) (D.sight desk.new) }
    ensures cause { HasReadCause (D.faults_in desk.old) (D.faults_in desk.new) result }
    ensures other { D.faults_out desk.new ≡ D.faults_out desk.old }
{
    match command {
        Command::Check { model, log } => Ok(Task::Say(check(alloc, model, log, desk)?)),
        Command::Show { log } => Ok(Task::Say(show(alloc, log, desk)?)),
        Command::Process {
            model,
            scaffold,
            out,
            workers,
        } => Ok(Task::Say(process(rt, alloc, model, scaffold, out, workers, desk, gate)?)),
        Command::Solve {
            model,
            out,
            conflicts,
        } => solve(alloc, model, out, conflicts, desk),
        Command::Prove {
            model,
            workers,
            conflicts,
        } => Ok(Task::Say(prove(rt, alloc, model, workers, conflicts, desk, gate)?)),
        Command::Gen { n, model, scaffold } => {
            let family = generate(alloc, n, model, scaffold)?;
            Ok(Task::Say(Reply::Generated(family)))
        }
    }
}
