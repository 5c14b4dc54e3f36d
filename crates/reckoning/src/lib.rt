// Reckonings: what a cell of the machine's store holds, and how cells are added, compared and tested.
#![tactic(auto)]

mod base;
mod examples;
mod in_counts;
mod in_weights;
mod wide;

pub use base::{Comparison, Operator, Reckoning, Stop, operate};
pub use examples::worked_examples;
pub use in_counts::Counts;
pub use in_weights::{Weight, Weights};
