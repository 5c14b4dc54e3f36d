// The token at an offset of a text.
ghost use Rattle.std.specs.Prelude.{◌≡◌, ◌<◌, length, drop};
ghost use Rattle.tokens.specs.Tokens.{kept, named, numbered, signed, front_of, next};
ghost use Rattle.tokens.specs.Laws.{First};
ghost use Rattle.tokens.specs.Answers.{lexed, measured, answered};

use crate::bytes::{front_length, is_gap, is_inner, is_letter};
use crate::fault::{Cause, Fault};
use crate::lexemes::{Found, Spanned, Token};
use crate::numerals::{has_needless_zero, value_of};
use crate::spellings::{kept_word, one_character, two_characters};

// What follows an offset: nothing, past the end.
fn rest(text: &[u8], from: usize) -> &[u8]
    ensures { result.now ≡ drop from text.now }
{
    text.get(from..).unwrap_or(&[])
}

// A kept word, or else a name of at most 24 bytes. A match, since the length is tested on the way.
fn word_or_name(bytes: &[u8]) -> Result<Token<'_>, Cause>
    ensures { lexed result ≡ named bytes.now (kept bytes.now) }
{
    match kept_word(bytes) {
        Some(word) => Ok(Token::Word(word)),
        None if bytes.len() <= 24 => Ok(Token::Name(bytes)),
        None => Err(Cause::Limit),
    }
}

// A number of at most 16,383, without a needless 0.
fn number(digits: &[u8]) -> Result<Token<'_>, Cause>
    ensures { lexed result ≡ numbered digits.now }
{
    // Asked first, so that zeros are not multiplied.
    if has_needless_zero(digits) {
        return Err(Cause::Limit);
    }
    let value = value_of(digits);
    if value > 16383 {
        Err(Cause::Limit)
    } else {
        Ok(Token::Number(digits, value))
    }
}

// The sign of the first two bytes, or else of the first.
fn sign(first: u8, behind: &[u8]) -> Result<(Token<'static>, usize), Cause>
    ensures { measured result ≡ signed first behind.now }
{
    let first = char::from(first);
    if let [second, ..] = behind
        && let Some(sign) = two_characters(first, char::from(*second))
    {
        return Ok((Token::Sign(sign), 2));
    }
    one_character(first)
        .map(|sign| (Token::Sign(sign), 1))
        .ok_or(Cause::Stray)
}

// The longest token at the front, and its length.
fn front(bytes: &[u8]) -> Result<(Token<'_>, usize), Cause>
    requires { 0 < length bytes.now }
    ensures { measured result ≡ front_of bytes.now }
{
    let first = bytes[0];
    if is_letter(first) {
        let length = front_length(bytes, is_inner);
        word_or_name(&bytes[..length]).map(|token| (token, length))
    } else if first.is_ascii_digit() {
        let length = front_length(bytes, |byte| byte.is_ascii_digit());
        number(&bytes[..length]).map(|token| (token, length))
    } else {
        sign(first, &bytes[1..])
    }
}

// The first token from an offset on, its place and where it ends; none where only gaps are left.
pub fn next_token(text: &[u8], from: usize) -> Result<Option<Found<'_>>, Fault>
    ensures is { answered result ≡ next text.now from }
    ensures first { First from (drop from text.now) (answered result) }
{
    let place = from + front_length(rest(text, from), is_gap);
    let bytes = rest(text, place);
    if bytes.is_empty() {
        return Ok(None);
    }
    let (token, length) = front(bytes).map_err(|cause| Fault { cause, place })?;
    Ok(Some(Spanned {
        item: token,
        place,
        end: place + length,
    }))
}
