// What the lines of a script have come to so far, and what each command makes of it.
ghost use Rattle.std.specs.Prelude.{◌≡◌, true, [], take, drop, replicate, IfOk, slice_set};
ghost use Rattle.commands.specs.declared.Command.TheVariants.{Run, Show};
ghost use Rattle.script.specs.Sessions.{state, fresh, context, with_listing, with_word, executed, reported, Done};

use crate::report::Report;
use crate::texts;
use cells::Notation;
use commands::{Command, Context};
use machine::{Registers, run};
use std::alloc::{AllocError, Global};

#[derive(Drop)]
pub(crate) struct Session<C> {
    pub(crate) store: Vec<C>,
    // Two lists, since the machine takes words and places as two slices.
    pub(crate) code: Vec<u32>,
    pub(crate) places: Vec<u32>,
    pub(crate) registers: Option<Registers>,
    pub(crate) listing: bool,
    pub(crate) report: Report,
    pub(crate) output: String,
}

pub(crate) fn empty_session<C>(heap: Global) -> Session<C>
    ensures { state result ≡ fresh }
{
    Session {
        store: Vec::new(heap),
        code: Vec::new(heap),
        places: Vec::new(heap),
        registers: None,
        listing: false,
        report: Report::default(),
        output: String::new(heap),
    }
}

pub(crate) fn context_of<C>(session: &Session<C>) -> Context
    ensures { result ≡ context (state session.now) }
{
    Context {
        listing: session.listing,
        cells: session.store.len(),
        registers: session.registers,
    }
}

// So many cells of whole(0). Of `vec!` a proof knows clones alone, and no trait calls them equal.
fn empty_store<N: Notation>(heap: Global, cells: usize) -> Result<Vec<N::Cell>, AllocError>
    ensures { IfOk result (λ v. v.items ≡ replicate cells (N.Reckoning.meaning.whole 0)) }
{
    let mut store = Vec::new(heap);
    store.resize_with(cells, || N::whole(0))?;
    Ok(store)
}

// A part of the cells, as far as there are so many.
fn part<C>(cells: &[C], first: usize, count: usize) -> &[C]
    ensures { result.now ≡ take count (drop first cells.now) }
{
    let rest = cells.get(first..).unwrap_or(&[]);
    rest.get(..count).unwrap_or(rest)
}

fn put<C: Copy>(store: &mut Vec<C>, at: usize, value: C)
    ensures { store.new.items ≡ slice_set store.old.items at value }
{
    if let Some(cell) = store.get_mut(at) {
        *cell = value;
    }
}

fn open_listing<C>(session: &mut Session<C>)
    ensures { state session.new ≡ with_listing [] [] true (state session.old) }
{
    session.code.clear();
    session.places.clear();
    session.listing = true;
}

fn add_word<C>(session: &mut Session<C>, word: u32, place: u32) -> Result<(), AllocError>
    ensures { Done result (state session.old) (state session.new) (with_word word place (state session.old)) }
{
    session.code.push(word)?;
    session.places.push(place)?;
    Ok(())
}

fn run_from<N: Notation>(
    heap: Global,
    session: &mut Session<N::Cell>,
    before: Registers,
) -> Result<(), AllocError>
    ensures { Done result (state session.old) (state session.new) (executed N.Reckoning.meaning N.Notation.writes (state session.old) (Run before)) }
{
    let mut registers = before;
    let ending = run::<N>(
        &session.code,
        &session.places,
        &mut registers,
        &mut session.store,
    );
    let spent = before.budget.saturating_sub(registers.budget);
    session.registers = Some(registers);
    session.report.note(ending, spent);
    let line = texts::run_line(heap, ending, registers, spent)?;
    session.output.push_str(line.as_str())
}

fn show<N: Notation>(
    heap: Global,
    session: &mut Session<N::Cell>,
    first: usize,
    count: usize,
) -> Result<(), AllocError>
    ensures { Done result (state session.old) (state session.new) (executed N.Reckoning.meaning N.Notation.writes (state session.old) (Show first count)) }
{
    let line = texts::row::<N>(heap, part(&session.store, first, count))?;
    session.output.push_str(line.as_str())
}

// The set of commands is closed: a match, where a closure for each would have to be made and kept.
pub(crate) fn execute<N: Notation>(
    heap: Global,
    session: &mut Session<N::Cell>,
    command: Command<N::Cell>,
) -> Result<(), AllocError>
    ensures { Done result (state session.old) (state session.new) (executed N.Reckoning.meaning N.Notation.writes (state session.old) command) }
{
    match command {
        Command::Nothing => {}
        Command::Store(cells) => session.store = empty_store::<N>(heap, cells)?,
        Command::Cell(at, value) => put(&mut session.store, at, value),
        Command::Code => open_listing(session),
        Command::Word(word, place) => add_word(session, word, place)?,
        Command::End => session.listing = false,
        Command::Registers(registers) => session.registers = Some(registers),
        Command::Run(registers) => run_from::<N>(heap, session, registers)?,
        Command::Show(first, count) => show::<N>(heap, session, first, count)?,
    }
    Ok(())
}

// Prints the report.
pub(crate) fn finish<C>(heap: Global, session: &mut Session<C>) -> Result<(), AllocError>
    ensures { Done result (state session.old) (state session.new) (reported (state session.old)) }
{
    let report = session.report;
    let line = format!(in heap; "{report}\n")?;
    session.output.push_str(line.as_str())
}
