// A run of a command that answers its input.
//
// The input is read whole before it is answered, and the answers are made whole before one is written. So a
// fault before the writing has written no answer, and the answers to one input don't depend on how the console
// cuts it.
ghost use Rattle.std.specs.Prelude.{◌≡◌, ℕ, List, IfOk, IsTrue, false, length};
ghost use Rattle.sat_base.specs.Outside.{Rose, with_end};
ghost use Rattle.sat_console.specs.Run.{Answers, IsOutcome, Ran, Says, code_of, fault_line, input_room};

use crate::status::Status;
use sat_base::{Filling, Link, NoMemory, fill, write_all};
use std::alloc::Global;

// The most bytes that are taken of the input, one more than it may have.
const INPUT_ROOM: usize = 1048577;

/// What a command makes of its input.
#[derive(Drop)]
pub(crate) enum Outcome {
    /// The text of its answers.
    Text(Vec<u8>),
    /// The line that refuses it.
    Refused(Vec<u8>),
}

/// A command that answers its input.
pub(crate) trait Answering {
    /// Which texts are the answers to an input.
    ghost is_text: { Self → List ℕ → List ℕ → Type 0 };

    /// Which lines refuse an input.
    ghost is_refusal: { Self → List ℕ → List ℕ → Type 0 };

    fn answer(&self, alloc: Global, input: &[u8]) -> Result<Outcome, NoMemory>
        ensures { IfOk result (IsOutcome (is_text self.now) (is_refusal self.now) input.now) };
}

/// Writes a line on the console, and tells whether all of it is written.
pub fn say<C: Link>(console: &mut C, line: &[u8]) -> bool
    ensures says { Says line.now (C.about console.old) (C.about console.new) }
    ensures all { IsTrue result → (C.about console.new).written ≡ with_end (C.about console.old).written line.now }
    ensures cut { result ≡ false → Rose (C.about console.old).write_faults (C.about console.new).write_faults }
{
    write_all(console, line)
}

/// Says a fault on the console, and hands its status on.
pub fn fault<C: Link>(console: &mut C, status: Status) -> Status
    ensures status { result ≡ status }
    ensures says { Says (fault_line (code_of status)) (C.about console.old) (C.about console.new) }
{
    say(console, status.line());
    status
}

// So many bytes, all of them 0.
fn zeros(alloc: Global, len: usize) -> Result<Vec<u8>, NoMemory>
    ensures { IfOk result (λ v. length v.items ≡ len) }
{
    Ok(Vec::from_elem(alloc, 0u8, len)?)
}

// Answers an input that was read.
fn answer_read<C: Link, A: Answering>(
    alloc: Global,
    console: &mut C,
    command: &A,
    input: &[u8],
) -> Status
    ensures { Answers (A.is_text command.now) (A.is_refusal command.now) input.now
        (C.about console.old) (C.about console.new) (code_of result) }
{
    match command.answer(alloc, input) {
        Err(NoMemory) => fault(console, Status::NoMemory),
        Ok(Outcome::Refused(line)) => {
            say(console, &line);
            Status::Refused
        }
        Ok(Outcome::Text(text)) => {
            if write_all(console, &text) {
                Status::Ok
            } else {
                Status::SinkFault
            }
        }
    }
}

// Reads the input into a buffer and answers it.
fn answer_into<C: Link, A: Answering>(
    alloc: Global,
    console: &mut C,
    command: &A,
    buf: &mut [u8],
) -> Status
    requires { length buf.old ≡ input_room }
    ensures { Ran (A.is_text command.now) (A.is_refusal command.now)
        (C.about console.old) (C.about console.new) (code_of result) }
{
    let filled = fill(console, buf, 0);
    match filled.end {
        Filling::Failed => fault(console, Status::InputFault),
        Filling::Full => fault(console, Status::InputLong),
        Filling::Ended => answer_read(alloc, console, command, &buf[..filled.len]),
    }
}

/// Answers the console's input.
pub(crate) fn answer_input<C: Link, A: Answering>(
    alloc: Global,
    console: &mut C,
    command: &A,
) -> Status
    ensures { Ran (A.is_text command.now) (A.is_refusal command.now)
        (C.about console.old) (C.about console.new) (code_of result) }
{
    match zeros(alloc, INPUT_ROOM) {
        Err(NoMemory) => fault(console, Status::NoMemory),
        Ok(mut buf) => answer_into(alloc, console, command, &mut buf),
    }
}
