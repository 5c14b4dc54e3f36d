ghost use Rattle.std.specs.Prelude.{◌≡◌};
ghost use Rattle.reckoning.specs.Counts.{counts_meaning};
ghost use Rattle.std.proofs.Common.{rules};

use crate::base::{Comparison, Reckoning, Stop};
use crate::wide;

// Cells are whole numbers from -2,147,483,648 to 2,147,483,647.
pub enum Counts {}

impl Reckoning for Counts {
    type Cell = i32;

    ghost meaning = { counts_meaning };

    ghost lawful = { Prim.search rules };

    fn whole(n: u16) -> i32 {
        i32::from(n)
    }

    fn place(cell: i32) -> Option<u16> {
        // Not by u16::try_from and filter: with those here and in the machine a run takes a fifth more instructions.
        if cell >= 0 && cell <= 16_383 {
            Some(cell as u16)
        } else {
            None
        }
    }

    // This, the difference and the product are those of 64 bits, of which none is lost, as for Weights: one arithmetic
    // (`wide`) with its own clauses for both, where checked_add and its likes would be a second one.
    fn add(left: i32, right: i32) -> Result<i32, Stop> {
        wide::narrow(wide::sum(left, right), i32::MIN, i32::MAX).ok_or(Stop::OutOfRange)
    }

    fn subtract(left: i32, right: i32) -> Result<i32, Stop> {
        wide::narrow(wide::difference(left, right), i32::MIN, i32::MAX).ok_or(Stop::OutOfRange)
    }

    fn multiply(left: i32, right: i32) -> Result<i32, Stop> {
        wide::narrow(wide::product(left, right), i32::MIN, i32::MAX).ok_or(Stop::OutOfRange)
    }

    fn divide(left: i32, right: i32) -> Result<i32, Stop> {
        // The test of a divisor is a line in each of the four divisions, which are four different ones.
        if right == 0 {
            return Err(Stop::ZeroDivisor);
        }
        left.checked_div(right).ok_or(Stop::OutOfRange)
    }

    fn remainder(left: i32, right: i32) -> Result<i32, Stop> {
        if right == 0 {
            return Err(Stop::ZeroDivisor);
        }
        Ok(left.wrapping_rem(right))
    }

    fn negate(cell: i32) -> Result<i32, Stop> {
        Self::subtract(0, cell)
    }

    fn compare(how: Comparison, left: i32, right: i32) -> Result<i32, Stop> {
        Ok(i32::from(how.holds(left, right)))
    }

    fn test(cell: i32) -> Result<bool, Stop> {
        Ok(cell != 0)
    }
}
