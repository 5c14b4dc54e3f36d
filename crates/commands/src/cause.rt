use std::alloc::AllocError;
use std::error::Error;
use std::fmt;

// What is wrong with a line.
#[derive(Clone, Copy, Debug, PartialEq, Eq, Drop)]
pub enum Cause {
    NoReckoning,
    UnknownReckoning,
    SecondReckoning,
    UnknownCommand,
    MissingWord,
    ExtraWord,
    NotANumber,
    StoreSize,
    NoSuchCell,
    NotACell,
    UnknownInstruction,
    OperandRange,
    WordRange,
    PlaceRange,
    RegisterRange,
    NoRegisters,
    CellsBackward,
    NoEnd,
    NoMemory,
}

impl fmt::Display for Cause {
    fn fmt<W: fmt::Write>(&self, f: &mut fmt::Formatter<W>) -> fmt::Result {
        f.write_str(match self {
            Cause::NoReckoning => "a script begins with 'reckoning counts' or 'reckoning weights'",
            Cause::UnknownReckoning => "the reckonings are 'counts' and 'weights'",
            Cause::SecondReckoning => "the reckoning is named once, at the start",
            Cause::UnknownCommand => "the commands are store, cell, code, registers, run and show",
            Cause::MissingWord => "a word is missing",
            Cause::ExtraWord => "there is a word too many",
            Cause::NotANumber => "a whole number was expected",
            Cause::StoreSize => "a store has 1 to 1,000,000 cells",
            Cause::NoSuchCell => "the store has no such cell",
            Cause::NotACell => "no cell holds this value",
            Cause::UnknownInstruction => "there is no instruction of this name",
            Cause::OperandRange => "an operand lies from -8,388,608 to 8,388,607",
            Cause::WordRange => "a word lies from 0 to 4,294,967,295",
            Cause::PlaceRange => "a place lies from 0 to 4,294,967,295",
            Cause::RegisterRange => "pc, sp, fp and ep lie from -2,147,483,648 to 2,147,483,647, \
                active and budget from 0 to 4,294,967,295",
            Cause::NoRegisters => "registers are to be set before the first run",
            Cause::CellsBackward => "the last cell to show lies before the first",
            Cause::NoEnd => "the listing has no 'end'",
            Cause::NoMemory => "there is not enough memory for it",
        })
    }
}

impl Error for Cause {}

impl From<AllocError> for Cause {
    ghost use Rattle.std.specs.Prelude.{◌≡◌};
    ghost use Rattle.commands.specs.declared.cause.Cause.TheVariants.{NoMemory};

    ghost from_gives = { λ _ cause. cause ≡ NoMemory };

    fn from(_: AllocError) -> Self {
        Self::NoMemory
    }
}
