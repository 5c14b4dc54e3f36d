ghost use Rattle.std.specs.Prelude.{◌≡◌};
ghost use Rattle.sheet.specs.Runs.{reason_number};

// Why a token is refused.
#[derive(Debug, Clone, Copy, PartialEq, Eq, Drop)]
pub enum Reason {
    // no sheet goes on with it
    Grammar = 6,
    // it goes past a limit of depth
    Depth = 7,
}

// The token that is refused, by its index; the count of tokens stands for the end. No Fault of the reader, whose place
// counts bytes.
#[derive(Debug, Clone, Copy, PartialEq, Eq, Drop)]
pub struct Refusal {
    pub reason: Reason,
    pub index: usize,
}

impl Refusal {
    pub fn number(&self) -> u8
        ensures { result ≡ reason_number self.now.reason }
    {
        self.reason as u8
    }
}
