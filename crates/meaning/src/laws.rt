ghost use Rattle.std.specs.Prelude.{◌≡◌};
ghost use Rattle.meaning.specs.Agreement.{Agreement, Encodable};

use reckoning::Reckoning;

fn agree<R: Reckoning>()
    ensures agreement { Agreement R.Reckoning.meaning }
    ensures encodable { Encodable }
{}

// How many laws tie the code of every sheet to its reading, in every reckoning.
// It has its likes in other crates: what differs is the promise, and a contract is no parameter.
pub fn agreement_laws<R: Reckoning>() -> u8
    ensures number { result ≡ 2 }
    ensures agreement { Agreement R.Reckoning.meaning }
    ensures encodable { Encodable }
{
    agree::<R>();
    2
}
