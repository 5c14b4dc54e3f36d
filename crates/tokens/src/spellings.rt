// What kept words and signs are spelled with. Matches on literals, and no TryFrom, whose error nobody would read.
ghost use Rattle.std.specs.Prelude.{◌≡◌};
ghost use Rattle.tokens.specs.Tokens.{kept, single, double};

use crate::lexemes::{Sign, Word};

pub(crate) fn kept_word(bytes: &[u8]) -> Option<Word>
    ensures { result ≡ kept bytes.now }
{
    match bytes {
        b"int" => Some(Word::Int),
        b"if" => Some(Word::If),
        b"else" => Some(Word::Else),
        b"while" => Some(Word::While),
        b"for" => Some(Word::For),
        b"return" => Some(Word::Return),
        _ => None,
    }
}

pub(crate) fn one_character(first: char) -> Option<Sign>
    ensures { result ≡ single first }
{
    match first {
        '(' => Some(Sign::OpenRound),
        ')' => Some(Sign::CloseRound),
        '{' => Some(Sign::OpenCurly),
        '}' => Some(Sign::CloseCurly),
        '[' => Some(Sign::OpenSquare),
        ']' => Some(Sign::CloseSquare),
        ';' => Some(Sign::Semicolon),
        ',' => Some(Sign::Comma),
        '=' => Some(Sign::Becomes),
        '+' => Some(Sign::Plus),
        '-' => Some(Sign::Minus),
        '*' => Some(Sign::Star),
        '/' => Some(Sign::Slash),
        '%' => Some(Sign::Percent),
        '<' => Some(Sign::Less),
        '>' => Some(Sign::Greater),
        '!' => Some(Sign::Bang),
        _ => None,
    }
}

pub(crate) fn two_characters(first: char, second: char) -> Option<Sign>
    ensures { result ≡ double first second }
{
    match (first, second) {
        ('<', '=') => Some(Sign::AtMost),
        ('>', '=') => Some(Sign::AtLeast),
        ('=', '=') => Some(Sign::Equal),
        ('!', '=') => Some(Sign::NotEqual),
        _ => None,
    }
}
