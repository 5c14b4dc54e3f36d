// The words after the first of a line.
ghost use Rattle.std.specs.Prelude.{◌≡◌};
ghost use Rattle.wording.specs.Pieces.{words};
ghost use Rattle.commands.specs.Arguments.{cause_of, none, next, one, next_two, two, below, between, comment, word_of, pair_of, next_of, rest_of};

use crate::cause::Cause;
use wording::{Misread, first_word, index_below, integer_within};

// A word that begins with '#' makes a comment of its line.
pub(crate) fn is_comment(word: &[u8]) -> bool
    ensures { result ≡ comment word.now }
{
    matches!(word, [b'#', ..])
}

pub(crate) fn none(line: &[u8]) -> Result<(), Cause>
    ensures { result ≡ none (words line.now) }
{
    match first_word(line) {
        Some(_) => Err(Cause::ExtraWord),
        None => Ok(()),
    }
}

// A word, and the line after it.
fn next(line: &[u8]) -> Result<(&[u8], &[u8]), Cause>
    ensures { next_of result ≡ next (words line.now) }
{
    first_word(line).ok_or(Cause::MissingWord)
}

pub(crate) fn one(line: &[u8]) -> Result<&[u8], Cause>
    ensures { word_of result ≡ one (words line.now) }
{
    let (word, rest) = next(line)?;
    none(rest)?;
    Ok(word)
}

// Two words, and the line after them.
pub(crate) fn next_two(line: &[u8]) -> Result<(&[u8], &[u8], &[u8]), Cause>
    ensures { rest_of result ≡ next_two (words line.now) }
{
    let (first, rest) = next(line)?;
    let (second, rest) = next(rest)?;
    Ok((first, second, rest))
}

pub(crate) fn two(line: &[u8]) -> Result<(&[u8], &[u8]), Cause>
    ensures { pair_of result ≡ two (words line.now) }
{
    let (first, second, rest) = next_two(line)?;
    none(rest)?;
    Ok((first, second))
}

// What is wrong with a word that gave no number, where `outside` is the cause of one out of range.
fn cause_of(misread: Misread, outside: Cause) -> Cause
    ensures { result ≡ cause_of outside misread }
{
    match misread {
        Misread::NotANumber => Cause::NotANumber,
        Misread::OutOfRange => outside,
    }
}

// A number from 0 to below `count`, where `outside` is what is wrong with any other.
pub(crate) fn below(word: &[u8], count: usize, outside: Cause) -> Result<usize, Cause>
    ensures { result ≡ below count outside word.now }
{
    index_below(word, count).map_err(|misread| cause_of(misread, outside))
}

// A number from `low` to `high`, where `outside` is what is wrong with any other.
pub(crate) fn between(word: &[u8], low: i32, high: i32, outside: Cause) -> Result<i32, Cause>
    ensures { result ≡ between low high outside word.now }
{
    let number = integer_within(word, i64::from(low), i64::from(high));
    let number = number.map_err(|misread| cause_of(misread, outside))?;
    i32::try_from(number).map_err(|_| outside)
}

// A number of 32 bits and no sign, where `outside` is what is wrong with any other.
// It is apart from `between`, since its clause speaks of natural numbers and not of integers.
pub(crate) fn unsigned(word: &[u8], outside: Cause) -> Result<u32, Cause>
    ensures { result ≡ below 4294967296 outside word.now }
{
    let number = below(word, 0x1_0000_0000, outside)?;
    u32::try_from(number).map_err(|_| outside)
}
