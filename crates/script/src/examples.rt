ghost use Rattle.std.specs.Prelude.{◌≡◌, length};
ghost use Rattle.script.specs.Examples.{examples, Agree};

fn all_agree()
    ensures { Agree }
{}

// How many worked examples the definition of a script has. Each gives what it should.
// It has its likes in other crates: what differs is the promise, and a contract is no parameter.
pub fn worked_examples() -> u8
    ensures number { result ≡ length examples }
    ensures agree { Agree }
{
    all_agree();
    5
}
