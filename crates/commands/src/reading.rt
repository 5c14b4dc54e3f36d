// What the lines of a script say.
ghost use Rattle.std.specs.Prelude.{◌≡◌};
ghost use Rattle.wording.specs.Pieces.{words};
ghost use Rattle.commands.specs.Commands.{chosen, reckoning, pointer, counter, six, store_size, shown, cell, from, outside, listed, command};

use crate::cause::Cause;
use crate::listing;
use crate::words::{below, between, is_comment, next_two, none, one, two, unsigned};
use cells::Notation;
use machine::Registers;
use wording::{first_word, is_word};

// The reckoning that a script names.
#[derive(Clone, Copy, Debug, PartialEq, Eq, Drop)]
pub enum Chosen {
    Counts,
    Weights,
}

// What a line says.
#[derive(Clone, Copy, Debug, PartialEq, Eq, Drop)]
pub enum Command<C> {
    Nothing,
    // so many cells
    Store(usize),
    // an address and what the cell there is to hold
    Cell(usize, C),
    Code,
    // a word of a listing, and its place
    Word(u32, u32),
    End,
    Registers(Registers),
    // from these registers
    Run(Registers),
    // the first cell, and how many
    Show(usize, usize),
}

// What a line is read by: whether it stands in a listing, how many cells the store has, and the registers.
#[derive(Clone, Copy, Debug, PartialEq, Eq, Drop)]
pub struct Context {
    pub listing: bool,
    pub cells: usize,
    pub registers: Option<Registers>,
}

impl TryFrom<&[u8]> for Chosen {
    ghost use Rattle.std.specs.Prelude.{◌≡◌};
    ghost use Rattle.commands.specs.Commands.{chosen};

    type Error = Cause;

    ghost try_from_gives = { λ name r. r ≡ chosen name.now };

    fn try_from(name: &[u8]) -> Result<Chosen, Cause> {
        match name {
            b"counts" => Ok(Chosen::Counts),
            b"weights" => Ok(Chosen::Weights),
            _ => Err(Cause::UnknownReckoning),
        }
    }
}

// The reckoning that a line names, or None where the line says nothing.
pub fn reckoning_of(line: &[u8]) -> Result<Option<Chosen>, Cause>
    ensures { result ≡ reckoning (words line.now) }
{
    let Some((first, rest)) = first_word(line) else {
        return Ok(None);
    };
    if is_comment(first) {
        return Ok(None);
    }
    if !is_word(first, "reckoning") {
        return Err(Cause::NoReckoning);
    }
    Chosen::try_from(one(rest)?).map(Some)
}

fn pointer(word: &[u8]) -> Result<i32, Cause>
    ensures { result ≡ pointer word.now }
{
    between(word, i32::MIN, i32::MAX, Cause::RegisterRange)
}

fn counter(word: &[u8]) -> Result<u32, Cause>
    ensures { result ≡ counter word.now }
{
    unsigned(word, Cause::RegisterRange)
}

fn six(line: &[u8]) -> Result<Registers, Cause>
    ensures { result ≡ six (words line.now) }
{
    let (pc, sp, rest) = next_two(line)?;
    let (fp, ep, rest) = next_two(rest)?;
    let (active, budget, rest) = next_two(rest)?;
    none(rest)?;
    Ok(Registers {
        pc: pointer(pc)?,
        sp: pointer(sp)?,
        fp: pointer(fp)?,
        ep: pointer(ep)?,
        active: counter(active)?,
        budget: counter(budget)?,
    })
}

fn store_size(line: &[u8]) -> Result<usize, Cause>
    ensures { result ≡ store_size (words line.now) }
{
    let cells = below(one(line)?, 1_000_001, Cause::StoreSize)?;
    if cells == 0 {
        Err(Cause::StoreSize)
    } else {
        Ok(cells)
    }
}

// The first of the cells to show, and how many there are.
fn shown(line: &[u8], cells: usize) -> Result<(usize, usize), Cause>
    ensures { result ≡ shown cells (words line.now) }
{
    let (first, last) = two(line)?;
    let first = below(first, cells, Cause::NoSuchCell)?;
    let last = below(last, cells, Cause::NoSuchCell)?;
    if last < first {
        Err(Cause::CellsBackward)
    } else {
        Ok((first, last + 1 - first))
    }
}

fn cell<N: Notation>(line: &[u8], cells: usize) -> Result<(usize, N::Cell), Cause>
    ensures { result ≡ cell N.Notation.reads cells (words line.now) }
{
    let (at, value) = two(line)?;
    let at = below(at, cells, Cause::NoSuchCell)?;
    let value = N::read(value).ok_or(Cause::NotACell)?;
    Ok((at, value))
}

// A line of a listing, or its end. The first word and the rest of its line stay two slices, of which each reader takes
// what it needs.
fn listed<N: Notation>(first: &[u8], rest: &[u8]) -> Result<Command<N::Cell>, Cause>
    ensures { result ≡ listed N.Notation.reads first.now (words rest.now) }
{
    if is_word(first, "end") {
        none(rest)?;
        return Ok(Command::End);
    }
    let (word, place) = listing::line(first, rest)?;
    Ok(Command::Word(word, place))
}

// A line outside a listing that sets something. The set of commands is closed: a match.
fn outside<N: Notation>(
    context: Context,
    first: &[u8],
    rest: &[u8],
) -> Result<Command<N::Cell>, Cause>
    ensures { result ≡ outside N.Notation.reads context first.now (words rest.now) }
{
    match first {
        b"store" => Ok(Command::Store(store_size(rest)?)),
        b"cell" => {
            let (at, value) = cell::<N>(rest, context.cells)?;
            Ok(Command::Cell(at, value))
        }
        b"code" => {
            none(rest)?;
            Ok(Command::Code)
        }
        b"registers" => Ok(Command::Registers(six(rest)?)),
        b"run" => {
            none(rest)?;
            Ok(Command::Run(context.registers.ok_or(Cause::NoRegisters)?))
        }
        b"show" => {
            let (from, count) = shown(rest, context.cells)?;
            Ok(Command::Show(from, count))
        }
        b"reckoning" => Err(Cause::SecondReckoning),
        _ => Err(Cause::UnknownCommand),
    }
}

// The command of a line. A blank line and a comment say nothing.
pub fn command_of<N: Notation>(line: &[u8], context: Context) -> Result<Command<N::Cell>, Cause>
    ensures { result ≡ command N.Notation.reads context (words line.now) }
{
    let Some((first, rest)) = first_word(line) else {
        return Ok(Command::Nothing);
    };
    if is_comment(first) {
        return Ok(Command::Nothing);
    }
    if context.listing {
        listed::<N>(first, rest)
    } else {
        outside::<N>(context, first, rest)
    }
}
