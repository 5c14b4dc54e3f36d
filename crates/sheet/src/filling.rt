// The tokens of a text, each in a record of its own. The table is the caller's, and how much of it is filled the answer.
ghost use Rattle.std.specs.Prelude.{◌≡◌, length};
ghost use Rattle.tokens.specs.Tokens.{tokens};
ghost use Rattle.sheet.specs.Nodes.{filled, shown, told, meant};

use crate::nodes::Node;
use tokens::{Cause, Fault, Spanned, Tokens};

// How many tokens a text has, each shown by its record: at most 4,096, and at most as many as there are records.
pub fn fill(text: &[u8], nodes: &mut [Node]) -> Result<usize, Fault>
    ensures records { shown result nodes.new ≡ filled (tokens text.now (length nodes.old)) }
    ensures grammar { told text.now (shown result nodes.new) ≡ meant (tokens text.now (length nodes.old)) }
{
    let limit = nodes.len().min(4096);
    let mut count = 0;
    for found in Tokens::new(text) {
        let found = found?;
        if count == limit {
            return Err(Fault {
                cause: Cause::Count,
                place: found.place,
            });
        }
        nodes[count] = Spanned {
            item: found.item.into(),
            place: found.place,
            end: found.end,
        };
        count += 1;
    }
    Ok(count)
}
