ghost use Rattle.std.specs.Prelude.{◌≡◌};
ghost use Rattle.reckoning.specs.Meaning.{within};
ghost use Rattle.reckoning.specs.Weights.{highest, lowest, nearest, weighed, weight_quotient, weight_remainder, weights_meaning};
ghost use Rattle.std.proofs.Common.{rules};

use crate::base::{Comparison, Reckoning, Stop};
use crate::wide;

// Cells are weights: thousandths of a kilogram from -2,000,000,000 to 2,000,000,000.
pub enum Weights {}

const LOWEST: i32 = -2_000_000_000;

const HIGHEST: i32 = 2_000_000_000;

// A number of thousandths of a kilogram. It is made by a check, so that none lies outside the range;
// one that did would count as the nearer end.
#[derive(Clone, Copy, Debug, PartialEq, Eq)]
pub struct Weight {
    thousandths: i32,
}

impl Weight {
    // The weight of a number of thousandths, if the number is in range. No TryFrom: it is how weights are made.
    pub fn new(thousandths: i64) -> Result<Weight, Stop>
        ensures { result ≡ weighed thousandths }
    {
        wide::narrow(thousandths, LOWEST, HIGHEST)
            .map(|thousandths| Weight { thousandths })
            .ok_or(Stop::OutOfRange)
    }

    pub fn thousandths(self) -> i32
        ensures { result ≡ nearest self }
    {
        self.thousandths.clamp(LOWEST, HIGHEST)
    }

    fn is_in_range(self) -> bool
        ensures { result ≡ within lowest highest self.thousandths }
    {
        (LOWEST..=HIGHEST).contains(&self.thousandths)
    }
}

// The thousandths of two weights. Nearly always both are in range, and to test that is quicker than to
// move each into the range.
fn operands(left: Weight, right: Weight) -> (i32, i32)
    ensures { (result.0 ≡ nearest left) × (result.1 ≡ nearest right) }
{
    if left.is_in_range() && right.is_in_range() {
        (left.thousandths, right.thousandths)
    } else {
        (left.thousandths(), right.thousandths())
    }
}

// left × 1,000 / right, all in thousandths.
fn quotient(left: i32, right: i32) -> Result<Weight, Stop>
    ensures { result ≡ weight_quotient left right }
{
    if right == 0 {
        Err(Stop::ZeroDivisor)
    } else {
        Weight::new(wide::scaled(left, 1000, right))
    }
}

// What left / right leaves, in thousandths.
fn remainder(left: i32, right: i32) -> Result<Weight, Stop>
    ensures { result ≡ weight_remainder left right }
{
    if right == 0 {
        Err(Stop::ZeroDivisor)
    } else {
        Weight::new(i64::from(left.wrapping_rem(right)))
    }
}

impl Reckoning for Weights {
    type Cell = Weight;

    ghost meaning = { weights_meaning };

    ghost lawful = { Prim.search rules };

    // At most 65,535,000 thousandths, which is in range.
    fn whole(n: u16) -> Weight {
        Weight {
            thousandths: i32::from(n) * 1000,
        }
    }

    // Tested as Counts::place is, for its reason. Neither end of the range has a place, so a weight outside the range has none either, and is not moved.
    fn place(cell: Weight) -> Option<u16> {
        let thousandths = cell.thousandths;
        if thousandths >= 0 && thousandths <= 16_383_000 && thousandths % 1000 == 0 {
            Some((thousandths / 1000) as u16)
        } else {
            None
        }
    }

    // This and the difference are not made by Weight::new, for the reason that wide::narrow gives.
    fn add(left: Weight, right: Weight) -> Result<Weight, Stop> {
        let (left, right) = operands(left, right);
        wide::narrow(wide::sum(left, right), LOWEST, HIGHEST)
            .map(|thousandths| Weight { thousandths })
            .ok_or(Stop::OutOfRange)
    }

    fn subtract(left: Weight, right: Weight) -> Result<Weight, Stop> {
        let (left, right) = operands(left, right);
        wide::narrow(wide::difference(left, right), LOWEST, HIGHEST)
            .map(|thousandths| Weight { thousandths })
            .ok_or(Stop::OutOfRange)
    }

    fn multiply(left: Weight, right: Weight) -> Result<Weight, Stop> {
        let (left, right) = operands(left, right);
        Weight::new(wide::scaled(left, right, 1000))
    }

    fn divide(left: Weight, right: Weight) -> Result<Weight, Stop> {
        let (left, right) = operands(left, right);
        quotient(left, right)
    }

    fn remainder(left: Weight, right: Weight) -> Result<Weight, Stop> {
        let (left, right) = operands(left, right);
        remainder(left, right)
    }

    fn negate(cell: Weight) -> Result<Weight, Stop> {
        Weight::new(wide::difference(0, cell.thousandths()))
    }

    fn compare(how: Comparison, left: Weight, right: Weight) -> Result<Weight, Stop> {
        let (left, right) = operands(left, right);
        Ok(Self::whole(u16::from(how.holds(left, right))))
    }

    fn test(cell: Weight) -> Result<bool, Stop> {
        Ok(cell.thousandths() != 0)
    }
}
