// A call of one function of a sheet whose code stands in a code list.
#![tactic(auto)]

mod calls;

pub use calls::{Answer, call};
