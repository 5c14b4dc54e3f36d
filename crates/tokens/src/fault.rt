ghost use Rattle.std.specs.Prelude.{◌≡◌};
ghost use Rattle.tokens.specs.Tokens.{cause_number};

// What a text is refused for.
#[derive(Debug, Clone, Copy, PartialEq, Eq, Drop)]
pub enum Cause {
    // a byte that is neither a gap nor in a token
    Stray = 3,
    // a name or a number past its limit, or a number with a needless 0
    Limit = 4,
    // a token too many
    Count = 5,
}

// The earliest fault of a text, at a byte offset.
#[derive(Debug, Clone, Copy, PartialEq, Eq, Drop)]
pub struct Fault {
    pub cause: Cause,
    pub place: usize,
}

impl Fault {
    pub fn number(&self) -> u8
        ensures { result ≡ cause_number self.now.cause }
    {
        self.cause as u8
    }
}
