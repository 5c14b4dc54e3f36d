// How the cells of the reckonings are written in text.
#![tactic(auto)]

mod notation;

pub use notation::Notation;
