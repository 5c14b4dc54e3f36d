// Lines, words and numbers in text, as bytes: a line keeps its carriage return, which `lines` of a &str takes off.
#![tactic(auto)]

mod lines;
mod numerals;
mod pieces;

pub use lines::Lines;
pub use numerals::{Misread, index_below, integer_within, thousandths_within, written_thousandths};
pub use pieces::{first_line, first_word, is_word, place_of};
