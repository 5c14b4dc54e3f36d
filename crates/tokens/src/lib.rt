// The reader of a rule's text: kept words, signs, names and numbers, each with its place.
#![tactic(auto)]

mod bytes;
mod examples;
mod fault;
mod lexemes;
mod numerals;
mod reader;
mod spellings;
mod stream;
mod whole;

pub use examples::worked_examples;
pub use fault::{Cause, Fault};
pub use lexemes::{Found, Sign, Spanned, Token, Word};
pub use reader::next_token;
pub use stream::Tokens;
pub use whole::read;
