// The lines of a script: which command each is, and what is wrong with one that is none.
#![tactic(auto)]

mod cause;
mod listing;
mod reading;
mod words;

pub use cause::Cause;
pub use reading::{Chosen, Command, Context, command_of, reckoning_of};
