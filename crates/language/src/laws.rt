ghost use Rattle.std.specs.Prelude.{◌≡◌};
ghost use Rattle.language.specs.Readings.{ReadingLaws};

use reckoning::Reckoning;

fn obeyed<R: Reckoning>()
    ensures { ReadingLaws R.Reckoning.meaning }
{}

// How many laws the readings of every sheet obey, in every reckoning.
// It has its likes in other crates: what differs is the promise, and a contract is no parameter.
pub fn reading_laws<R: Reckoning>() -> u8
    ensures number { result ≡ 8 }
    ensures laws { ReadingLaws R.Reckoning.meaning }
{
    obeyed::<R>();
    8
}
