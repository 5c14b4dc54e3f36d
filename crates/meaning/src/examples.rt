ghost use Rattle.std.specs.Prelude.{◌≡◌, length};
ghost use Rattle.meaning.specs.Examples.{examples, Agree};

// How many worked examples the definitions of reading and translation have. Each gives what it should.
// It has its likes in other crates: what differs is the promise, and a contract is no parameter.
pub fn worked_examples() -> u8
    ensures number { result ≡ length examples }
    ensures agree { Agree }
{
    16
}
