// From a rule's text to its tokens in a table that the caller supplies, one record for each token, and the grammar over it.
#![tactic(auto)]

mod filling;
mod looks;
mod nodes;
mod refusal;

pub use filling::fill;
pub use nodes::{Kind, Mark, Node};
pub use refusal::{Reason, Refusal};
