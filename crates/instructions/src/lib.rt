// The instructions of the CMa, the words that they are coded as, and why a run stops.
#![tactic(auto)]

mod set;
mod stops;

pub use set::{Instruction, NAMES, OperandRange, UnknownWord, operand_of, word_of};
pub use stops::{Layer, Stop};
