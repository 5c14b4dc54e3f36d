ghost use Rattle.std.specs.Prelude.{◌≡◌};
ghost use Rattle.language.specs.Scoping.{Scoping};

fn scoped()
    ensures { Scoping }
{}

// How many laws of scope there are. Each holds of every sheet.
// It has its likes in other crates: what differs is the promise, and a contract is no parameter.
pub fn scope_laws() -> u8
    ensures number { result ≡ 15 }
    ensures scoping { Scoping }
{
    scoped();
    15
}
