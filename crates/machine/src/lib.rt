// The CMa: a stack machine for C, over a store of cells that a reckoning gives their meaning.
#![tactic(auto)]

mod cycle;
mod effects;
mod memory;
mod state;

pub use cycle::{run, step};
pub use state::{Flow, Registers, Stopped};
