// The records of a text's tokens.
ghost use Rattle.std.specs.Prelude.{◌≡◌};
ghost use Rattle.tokens.specs.Answers.{lexeme_of};
ghost use Rattle.sheet.specs.Nodes.{kind_of_word, kind_of_sign, kind_of};

use reckoning::{Comparison, Operator};
use tokens::{Sign, Spanned, Token, Word};

// The tokens that say nothing but which they are.
#[derive(Debug, Clone, Copy, PartialEq, Eq, Drop)]
pub enum Mark {
    Round,
    EndRound,
    Square,
    EndSquare,
    Brace,
    EndBrace,
    Comma,
    Semicolon,
    Int,
    Return,
    If,
    Else,
    While,
    For,
}

// What the grammar tells apart. A minus is an operator, before one operand too.
#[derive(Debug, Clone, Copy, PartialEq, Eq, Drop)]
pub enum Kind {
    Number(u32),
    Name,
    Operator(Operator),
    Exclamation,
    Equals,
    Mark(Mark),
}

// What the grammar is told of a token, with its place and where it ends.
pub type Node = Spanned<Kind>;

impl From<Word> for Kind {
    ghost from_gives = { λ word kind. kind ≡ kind_of_word word };

    fn from(word: Word) -> Self {
        match word {
            Word::Int => Kind::Mark(Mark::Int),
            Word::If => Kind::Mark(Mark::If),
            Word::Else => Kind::Mark(Mark::Else),
            Word::While => Kind::Mark(Mark::While),
            Word::For => Kind::Mark(Mark::For),
            Word::Return => Kind::Mark(Mark::Return),
        }
    }
}

impl From<Sign> for Kind {
    ghost from_gives = { λ sign kind. kind ≡ kind_of_sign sign };

    fn from(sign: Sign) -> Self {
        match sign {
            Sign::OpenRound => Kind::Mark(Mark::Round),
            Sign::CloseRound => Kind::Mark(Mark::EndRound),
            Sign::OpenCurly => Kind::Mark(Mark::Brace),
            Sign::CloseCurly => Kind::Mark(Mark::EndBrace),
            Sign::OpenSquare => Kind::Mark(Mark::Square),
            Sign::CloseSquare => Kind::Mark(Mark::EndSquare),
            Sign::Semicolon => Kind::Mark(Mark::Semicolon),
            Sign::Comma => Kind::Mark(Mark::Comma),
            Sign::Becomes => Kind::Equals,
            Sign::Plus => Kind::Operator(Operator::Add),
            Sign::Minus => Kind::Operator(Operator::Subtract),
            Sign::Star => Kind::Operator(Operator::Multiply),
            Sign::Slash => Kind::Operator(Operator::Divide),
            Sign::Percent => Kind::Operator(Operator::Remainder),
            Sign::Less => Kind::Operator(Operator::Compare(Comparison::Less)),
            Sign::Greater => Kind::Operator(Operator::Compare(Comparison::Greater)),
            Sign::Bang => Kind::Exclamation,
            Sign::AtMost => Kind::Operator(Operator::Compare(Comparison::AtMost)),
            Sign::AtLeast => Kind::Operator(Operator::Compare(Comparison::AtLeast)),
            Sign::Equal => Kind::Operator(Operator::Compare(Comparison::Equal)),
            Sign::NotEqual => Kind::Operator(Operator::Compare(Comparison::NotEqual)),
        }
    }
}

impl From<Token<'_>> for Kind {
    ghost from_gives = { λ token kind. kind ≡ kind_of (lexeme_of token) };

    fn from(token: Token<'_>) -> Self {
        match token {
            Token::Word(word) => word.into(),
            Token::Sign(sign) => sign.into(),
            Token::Name(_) => Kind::Name,
            Token::Number(_, value) => Kind::Number(value),
        }
    }
}
