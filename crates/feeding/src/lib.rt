// Days that come through a reader: read in blocks, answered by the crate protocol, and the answers written. A failed
// read or write ends a day, and says so in one line on standard error.
#![tactic(auto)]

ghost use Rattle.std.specs.Prelude.{length};
ghost use Rattle.lines.specs.Rows.{pending_of};
ghost use Rattle.protocol.specs.Promises.{day_farm};
ghost use Rattle.protocol.specs.Reachable.{Reachable};
ghost use Rattle.feeding.specs.Fed.{Answers};

use protocol::Session;
use std::fmt;
use std::io::{self, Read, Write};

// What ends a day early.
#[derive(Clone, Copy)]
enum Failure {
    Unread,
    Unwritten,
}

impl fmt::Display for Failure {
    fn fmt<W: fmt::Write>(&self, f: &mut fmt::Formatter<W>) -> fmt::Result {
        f.write_str(match self {
            Failure::Unread => "the input could not be read",
            Failure::Unwritten => "the answers could not be written",
        })
    }
}

// Hands answers on, whole and at once.
fn hand_on<W: Write>(output: &mut W, answers: &[u8]) -> io::Result<()> {
    output.write_all(answers)?;
    output.flush()
}

// A block that was given up: it was answered up to the place `next`.
#[derive(Clone, Copy)]
struct GivenUp {
    next: usize,
}

// Answers a block. The answers are handed to the output at its end, and before it where `out` is full. It gives up only
// behind answers that could not be written, or where `out` has no room for an answer.
fn answer_all<W: Write>(
    output: &mut W,
    day: &mut Session,
    block: &[u8],
    out: &mut [u8],
) -> Result<(), GivenUp>
    requires { Reachable (day_farm day.old) }
    ensures { Answers (day_farm day.old) (pending_of day.old.rest) block.now (length out.old) result day.new }
{
    let mut next = 0;
    while next < block.len() {
        let done = day.answer_block(block, next, out);
        if hand_on(output, &out[..done.written]).is_err() || done.next == next {
            return Err(GivenUp { next: done.next });
        }
        next = done.next;
    }
    Ok(())
}

// The end of the input: a last line may lack its newline.
fn end<W: Write>(output: &mut W, day: &mut Session, out: &mut [u8]) -> io::Result<()>
    requires { Reachable (day_farm day.old) }
{
    let written = day.end_of_input(out);
    hand_on(output, &out[..written])
}

// A day from `input` to `output`. One read a turn, so that lines that come one by one are answered as they come. The
// turns are counted up to a number that no run uses up, since a proved loop has to end. The day is made once, with the
// memory for its answers, and lent to every block.
fn answer_day<R: Read, W: Write>(input: &mut R, output: &mut W) -> Result<(), Failure> {
    let mut block = [0u8; 65536];
    let mut out = [0u8; 262144];
    let mut day = protocol::start();
    for _ in 0..u64::MAX {
        let count = input.read(&mut block).map_err(|_| Failure::Unread)?;
        if count == 0 {
            return end(output, &mut day, &mut out).map_err(|_| Failure::Unwritten);
        }
        answer_all(output, &mut day, &block[..count], &mut out).map_err(|_| Failure::Unwritten)?;
    }
    Ok(())
}

// The same; what ended it early is told in a line on standard error.
pub fn answer_stream<R: Read, W: Write>(rt: &impl Eprint, input: &mut R, output: &mut W) {
    if let Err(failure) = answer_day(input, output) {
        let _ = eprintln!(rt; "{failure}");
    }
}
