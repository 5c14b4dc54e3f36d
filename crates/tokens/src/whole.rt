// The tokens of a whole text.
ghost use Rattle.std.specs.Prelude.{◌≡◌};
ghost use Rattle.tokens.specs.Laws.{Whole};
ghost use Rattle.tokens.specs.Tokens.{tokens, number_of};

use crate::fault::{Cause, Fault};
use crate::stream::Tokens;

// The loop of `fill` in `sheet` again, which stores what is counted here: shared, it would take a closure that writes
// the caller's table. The count is the answer.
// How many tokens a text has: at most 4,096, and at most as many as there are records.
pub fn read(text: &[u8], records: usize) -> Result<usize, Fault>
    ensures is { result ≡ number_of (tokens text.now records) }
    ensures whole { Whole text.now result }
{
    let limit = records.min(4096);
    let mut count = 0;
    for found in Tokens::new(text) {
        let found = found?;
        if count == limit {
            return Err(Fault {
                cause: Cause::Count,
                place: found.place,
            });
        }
        count += 1;
    }
    Ok(count)
}
