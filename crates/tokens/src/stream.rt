// The tokens of a text, one after another.
ghost use Rattle.std.specs.Prelude.{◌-◌, length};

use crate::fault::Fault;
use crate::lexemes::Found;
use crate::reader::next_token;

// The tokens from an offset on, up to the first fault.
#[derive(Debug, Clone, Drop)]
pub struct Tokens<'a> {
    text: &'a [u8],
    from: usize,
}

impl<'a> Tokens<'a> {
    ghost use Rattle.tokens.specs.Stream.{Starts};

    pub fn new(text: &'a [u8]) -> Self
        ensures { Starts text.now result }
    {
        Tokens { text, from: 0 }
    }
}

impl<'a> Iterator for Tokens<'a> {
    ghost use Rattle.std.specs.Iterator.{at_most};
    ghost use Rattle.tokens.specs.Stream.{Gives};

    type Item = Result<Found<'a>, Fault>;

    ghost next_gives = { Gives };

    ghost remaining = { λ s. at_most (length s.text.now - s.from) };

    fn next(&mut self) -> Option<Self::Item> {
        let found = next_token(self.text, self.from).transpose();
        self.from = match found {
            Some(Ok(found)) => found.end,
            _ => self.text.len(),
        };
        found
    }
}
