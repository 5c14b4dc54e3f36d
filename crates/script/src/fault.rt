use commands::Cause;
use std::error::Error;
use std::fmt;

// The first line that cannot be carried out, from 1, and what is wrong with it. That it is from 1 on is said in clauses
// (`from_one`): as a part of the type, which is public, it would be asked of whoever makes a fault or changes its line.
#[derive(Clone, Copy, Debug, PartialEq, Eq, Drop)]
pub struct Fault {
    pub line: usize,
    pub cause: Cause,
}

impl fmt::Display for Fault {
    fn fmt<W: fmt::Write>(&self, f: &mut fmt::Formatter<W>) -> fmt::Result {
        let Fault { line, cause } = self;
        write!(f, "line {line}: {cause}")
    }
}

impl Error for Fault {}
