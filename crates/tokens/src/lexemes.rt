// The words that are no names.
#[derive(Debug, Clone, Copy, PartialEq, Eq, Drop)]
pub enum Word {
    Int,
    If,
    Else,
    While,
    For,
    Return,
}

#[derive(Debug, Clone, Copy, PartialEq, Eq, Drop)]
pub enum Sign {
    OpenRound,
    CloseRound,
    OpenCurly,
    CloseCurly,
    OpenSquare,
    CloseSquare,
    Semicolon,
    Comma,
    Becomes,
    Plus,
    Minus,
    Star,
    Slash,
    Percent,
    Less,
    Greater,
    Bang,
    AtMost,
    AtLeast,
    Equal,
    NotEqual,
}

// A name and a number borrow their part of the text; a number has its value beside its digits.
#[derive(Debug, Clone, Copy, PartialEq, Eq, Drop)]
pub enum Token<'a> {
    Word(Word),
    Sign(Sign),
    Name(&'a [u8]),
    Number(&'a [u8], u32),
}

// Something of a text, the place of its first byte, and the place behind its last.
#[derive(Debug, Clone, Copy, PartialEq, Eq, Drop)]
pub struct Spanned<T> {
    pub item: T,
    pub place: usize,
    pub end: usize,
}

pub type Found<'a> = Spanned<Token<'a>>;
