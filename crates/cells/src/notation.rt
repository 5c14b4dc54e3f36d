// How the cells of a reckoning are written in a script. A trait of our own: the cell of Counts is an i32.
ghost use Rattle.std.specs.Prelude.{◌≡◌, ℕ, List, IfOk, string_bytes, Option};
ghost use Rattle.std.specs.Fmt.{signed_decimal};
ghost use Rattle.cells.specs.Cells.{count_read, weight_read, weight_written};

use reckoning::{Counts, Reckoning, Weight, Weights};
use std::alloc::{AllocError, Global};
use wording::{integer_within, thousandths_within, written_thousandths};

pub trait Notation: Reckoning {
    ghost reads: { List ℕ → Option Self.Cell };

    ghost writes: { Self.Cell → List ℕ };

    // The cell of a word, if some cell is written so.
    fn read(word: &[u8]) -> Option<Self::Cell>
        ensures { result ≡ reads word.now };

    fn write(heap: Global, cell: Self::Cell) -> Result<String, AllocError>
        ensures { IfOk result (λ s. string_bytes s ≡ writes cell) };
}

impl Notation for Counts {
    ghost reads = { count_read };

    ghost writes = { signed_decimal };

    fn read(word: &[u8]) -> Option<i32> {
        let count = integer_within(word, -0x8000_0000, 0x7fff_ffff).ok()?;
        i32::try_from(count).ok()
    }

    fn write(heap: Global, cell: i32) -> Result<String, AllocError> {
        format!(in heap; "{cell}")
    }
}

impl Notation for Weights {
    ghost reads = { weight_read };

    ghost writes = { weight_written };

    fn read(word: &[u8]) -> Option<Weight> {
        let thousandths = thousandths_within(word, -2_000_000_000, 2_000_000_000).ok()?;
        Weight::new(thousandths).ok()
    }

    fn write(heap: Global, cell: Weight) -> Result<String, AllocError> {
        written_thousandths(heap, cell.thousandths())
    }
}
