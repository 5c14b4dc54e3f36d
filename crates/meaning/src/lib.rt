// What a sheet means and what it translates to agree.
#![tactic(auto)]

mod examples;
mod laws;

pub use examples::worked_examples;
pub use laws::agreement_laws;
