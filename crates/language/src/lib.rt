// The language of sheets: trees, what their names stand for, and what they mean.
#![tactic(auto)]

mod laws;
mod scope;

pub use laws::reading_laws;
pub use scope::scope_laws;
