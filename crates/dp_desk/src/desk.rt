// What a desk is: its calls, what it may tell of its bytes, and its two counts of faults.

ghost use Rattle.std.specs.Prelude.{◌≡◌, ◌≢◌, ◌<◌, ◌≤◌, ℕ, length, take, IfOk, OnOk, OnErr};
ghost use Rattle.dp_desk.specs.Causes.{HasCause};
ghost use Rattle.dp_desk.specs.Channel.{IsOpen, Opens, Takes, IsAtEnd, Starts, Grows};
ghost use Rattle.dp_desk.specs.Sight.{Sight, input, output, with_input, with_output, TellsInputs};

use thiserror::Error;

/// An input.
#[derive(Clone, Copy, Debug, PartialEq, Eq)]
pub enum In {
    /// The text of a model.
    Model,
    /// The lines of a log.
    Log,
}

/// An output.
#[derive(Clone, Copy, Debug, PartialEq, Eq)]
pub enum Out {
    /// What the program prints. It is always open.
    Answer,
    /// The first file to write.
    First,
    /// The second file to write.
    Second,
}

/// A call failed, and the count of the faults of its kind rose. Nothing else has changed.
#[derive(Clone, Copy, Debug, PartialEq, Eq, Error)]
#[error("the desk failed")]
pub struct Failed;

/// Where the inputs come from and the outputs go.
///
/// A desk tells which inputs and outputs were opened. It may tell the bytes that each name holds, the bytes left of
/// an input and the bytes written of an output. It counts its faults: those of `open_in` and `read`, and those of
/// `open_out` and `write`. What names hold never changes.
pub trait Desk {
    /// What is told of the names, the inputs and the outputs.
    ghost sight: { Self → Sight };

    /// How often opening or reading an input has failed.
    ghost faults_in: { Self → ℕ };

    /// How often opening an output or writing has failed.
    ghost faults_out: { Self → ℕ };

    /// Opens an input by name, from its beginning, also where it was opened before.
    fn open_in(&mut self, which: In, name: &str) -> Result<(), Failed>
        ensures opened { OnOk result (Opens (sight self.old).names name.now (input which (sight self.new))) }
        ensures rest { sight self.new ≡ with_input which (input which (sight self.new)) (sight self.old) }
        ensures failed { OnErr result (sight self.new ≡ sight self.old) }
        ensures cause { HasCause (faults_in self.old) (faults_in self.new) result }
        ensures other { faults_out self.new ≡ faults_out self.old };

    /// Takes the first bytes that are left into the first places of a buffer, and answers how many. Into a buffer
    /// that is not empty it answers 0 only at the end of the input.
    fn read(&mut self, which: In, into: &mut [u8]) -> Result<usize, Failed>
        requires { IsOpen (input which (sight self.old)) }
        ensures bound { IfOk result (λ count. count ≤ length into.old) }
        ensures took { IfOk result (λ count. Takes (input which (sight self.old)) (input which (sight self.new)) (take count into.new)) }
        ensures end { IfOk result (λ count. count ≡ 0 → 0 < length into.old → IsAtEnd (input which (sight self.old))) }
        ensures rest { sight self.new ≡ with_input which (input which (sight self.new)) (sight self.old) }
        ensures failed { OnErr result (sight self.new ≡ sight self.old) }
        ensures cause { HasCause (faults_in self.old) (faults_in self.new) result }
        ensures other { faults_out self.new ≡ faults_out self.old };

    /// Opens an output by name and makes it empty.
    fn open_out(&mut self, which: Out, name: &str) -> Result<(), Failed>
        requires { which ≢ Out.Answer }
        ensures opened { OnOk result (Starts (output which (sight self.new))) }
        ensures rest { sight self.new ≡ with_output which (output which (sight self.new)) (sight self.old) }
        ensures failed { OnErr result (sight self.new ≡ sight self.old) }
        ensures cause { HasCause (faults_out self.old) (faults_out self.new) result }
        ensures other { faults_in self.new ≡ faults_in self.old };

    /// Appends the first of these bytes to an output, and answers how many: at least one, if there are any.
    fn write(&mut self, which: Out, bytes: &[u8]) -> Result<usize, Failed>
        requires { IsOpen (output which (sight self.old)) }
        ensures bound { IfOk result (λ count. count ≤ length bytes.now) }
        ensures some { IfOk result (λ count. 0 < length bytes.now → 0 < count) }
        ensures grows { IfOk result (λ count. Grows (output which (sight self.old)) (output which (sight self.new)) (take count bytes.now)) }
        ensures rest { sight self.new ≡ with_output which (output which (sight self.new)) (sight self.old) }
        ensures failed { OnErr result (sight self.new ≡ sight self.old) }
        ensures cause { HasCause (faults_out self.old) (faults_out self.new) result }
        ensures other { faults_in self.new ≡ faults_in self.old };

    /// The answer is always open.
    ghost answer_open: { (desk : Self) → IsOpen (sight desk).answer };

    /// A desk that tells what its names hold tells what is left of each opened input.
    ghost tells_inputs: { (desk : Self) → TellsInputs (sight desk) };
}
