ghost use Rattle.std.specs.Prelude.{◌≡◌, ℕ, ◌+◌, ◌^◌, ◌<◌, length, IfOk, string_bytes};
ghost use Rattle.std.specs.Iterator.Adapters.{enumerate_count};
ghost use Rattle.std.specs.Option.{option_map};
ghost use Rattle.std.specs.Result.{result_err};
ghost use Rattle.wording.specs.Pieces.{words};
ghost use Rattle.commands.specs.Commands.{command};
ghost use Rattle.script.specs.Sessions.{state, fresh, context, executed};
ghost use Rattle.script.specs.Scripts.{fault, ended, carried, begun, begun_of, left, reckoned, performed, Comes, Meets, FromOne, Numbered, Stepped};

use crate::fault::Fault;
use crate::session::{Session, context_of, empty_session, execute, finish};
use cells::Notation;
use commands::{Cause, Chosen, command_of, reckoning_of};
use reckoning::{Counts, Weights};
use std::alloc::Global;
use std::iter::Enumerate;
use wording::Lines;

// What a script prints, up to the first line that cannot be carried out, and what is wrong with that line. The output
// stands there in both cases, so that the fault is a part and not the other answer.
#[derive(Debug, PartialEq, Eq, Drop)]
pub struct Transcript {
    pub output: String,
    pub fault: Option<Fault>,
}

// Carries out one line.
fn step<N: Notation>(heap: Global, session: &mut Session<N::Cell>, line: &[u8]) -> Result<(), Cause>
    ensures { Stepped (executed N.Reckoning.meaning N.Notation.writes) result (state session.old) (state session.new) (command N.Notation.reads (context (state session.old)) (words line.now)) }
{
    let command = command_of::<N>(line, context_of(session))?;
    execute::<N>(heap, session, command)?;
    Ok(())
}

// What comes after the last line.
fn conclude<C>(heap: Global, session: &mut Session<C>) -> Result<(), Cause>
    ensures { (n : ℕ) → Comes (string_bytes session.new.output) (option_map (fault n) (result_err result)) (ended n (state session.old)) }
{
    if session.listing {
        return Err(Cause::NoEnd);
    }
    finish(heap, session)?;
    Ok(())
}

// Carries out the lines that are left after the one of this index, up to the first fault. That they are numbered from
// there on is asked by the three functions that pass them on: a struct that kept it would be this iterator again.
fn carry_out<N: Notation>(
    heap: Global,
    session: &mut Session<N::Cell>,
    lines: Enumerate<Lines>,
    read: usize,
) -> Result<(), Fault>
    requires { Numbered read lines }
    ensures from_one { FromOne (result_err result) }
    ensures meets { Meets (string_bytes session.new.output) (result_err result) (carried N.Reckoning.meaning N.Notation.reads N.Notation.writes (read + 1) (left lines.entry) (state session.old)) }
{
    let mut at = read;
    for (i, line) in lines {
        step::<N>(heap, session, line).map_err(|cause| Fault { line: i + 1, cause })?;
        at = i;
    }
    conclude(heap, session).map_err(|cause| Fault {
        line: at + 1,
        cause,
    })
}

fn carry_out_all<N: Notation>(heap: Global, lines: Enumerate<Lines>, read: usize) -> Transcript
    requires { Numbered read lines }
    ensures from_one { FromOne result.fault }
    ensures meets { Meets (string_bytes result.output) result.fault (carried N.Reckoning.meaning N.Notation.reads N.Notation.writes (read + 1) (left lines.entry) fresh) }
{
    let mut session = empty_session::<N::Cell>(heap);
    let fault = carry_out::<N>(heap, &mut session, lines, read).err();
    Transcript {
        output: session.output,
        fault,
    }
}

// A match: the reckonings are types, of which a script names one as it runs.
fn carry_out_in(heap: Global, reckoning: Chosen, lines: Enumerate<Lines>, read: usize) -> Transcript
    requires { Numbered read lines }
    ensures from_one { FromOne result.fault }
    ensures meets { Meets (string_bytes result.output) result.fault (reckoned reckoning (read + 1) (left lines.entry)) }
{
    match reckoning {
        Chosen::Counts => carry_out_all::<Counts>(heap, lines, read),
        Chosen::Weights => carry_out_all::<Weights>(heap, lines, read),
    }
}

// The reckoning that a text begins with, and the index of the line that names it.
fn begin(lines: &mut Enumerate<Lines>) -> Result<(Chosen, usize), Fault>
    requires first { enumerate_count lines.old ≡ 0 }
    requires room { length (left lines.old) < 2 ^ 64 }
    ensures is { begun_of result (left lines.new) ≡ begun 0 (left lines.old) }
    ensures from_one { FromOne (result_err result) }
    ensures numbered { IfOk result (λ p. Numbered p.1 lines.new) }
{
    let mut at = 0;
    // After a `for` over borrowed lines a proof does not know which of them are left.
    while let Some((i, line)) = lines.next() {
        let named = reckoning_of(line).map_err(|cause| Fault { line: i + 1, cause })?;
        if let Some(chosen) = named {
            return Ok((chosen, i));
        }
        at = i;
    }
    Err(Fault {
        line: at + 1,
        cause: Cause::NoReckoning,
    })
}

// Carries out a script, and says what it prints. A fault names a line from 1 on.
pub fn perform(heap: Global, text: &str) -> Transcript
    ensures from_one { FromOne result.fault }
    ensures meets { Meets (string_bytes result.output) result.fault (performed text.now) }
{
    let mut lines = Lines::new(text.as_bytes()).enumerate();
    match begin(&mut lines) {
        Ok((reckoning, read)) => carry_out_in(heap, reckoning, lines, read),
        Err(fault) => Transcript {
            output: String::new(heap),
            fault: Some(fault),
        },
    }
}
