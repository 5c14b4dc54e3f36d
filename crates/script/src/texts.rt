// The lines that a script prints. Each is made whole, so that an error leaves the output as it was.
ghost use Rattle.std.specs.Prelude.{◌≡◌, IfOk, string_bytes};
ghost use Rattle.script.specs.Texts.{ending_text, run_line, row};

use cells::Notation;
use machine::{Registers, Stopped};
use std::alloc::{AllocError, Global};

// A Result is not ours to display.
fn ending_text(heap: Global, ending: Result<(), Stopped>) -> Result<String, AllocError>
    ensures { IfOk result (λ s. string_bytes s ≡ ending_text ending) }
{
    match ending {
        Ok(()) => String::from_str(heap, "halt"),
        Err(stopped) => stopped.to_string(heap),
    }
}

pub(crate) fn run_line(
    heap: Global,
    ending: Result<(), Stopped>,
    registers: Registers,
    spent: u32,
) -> Result<String, AllocError>
    ensures { IfOk result (λ s. string_bytes s ≡ run_line ending registers spent) }
{
    let ending = ending_text(heap, ending)?;
    format!(in heap; "{ending} | {registers} spent {spent}\n")
}

// Cells on one line, with a space between two.
pub(crate) fn row<N: Notation>(heap: Global, cells: &[N::Cell]) -> Result<String, AllocError>
    ensures { IfOk result (λ s. string_bytes s ≡ row N.Notation.writes cells.now) }
{
    let mut line = String::new(heap);
    let mut rest = cells;
    while let Some((cell, others)) = rest.split_first() {
        let text = N::write(heap, *cell)?;
        line.push_str(text.as_str())?;
        line.push_str(if others.is_empty() { "\n" } else { " " })?;
        rest = others;
    }
    Ok(line)
}
