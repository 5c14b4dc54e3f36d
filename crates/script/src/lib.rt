// Scripts for the machine: a store, a listing, registers, and runs from them.
#![tactic(auto)]

mod examples;
mod fault;
mod report;
mod session;
mod texts;
mod transcript;

pub use commands::Cause;
pub use examples::worked_examples;
pub use fault::Fault;
pub use transcript::{Transcript, perform};
