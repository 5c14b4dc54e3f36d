// The translation of sheets into code for the machine.
#![tactic(auto)]

ghost use Rattle.std.specs.Prelude.{◌≡◌};
ghost use Rattle.translation.specs.Layout.{SameSize, InOnePiece};

fn laid_out()
    ensures same_size { SameSize }
    ensures in_one_piece { InOnePiece }
{}

// How many laws the layout of every sheet's code obeys.
// It has its likes in other crates: what differs is the promise, and a contract is no parameter.
pub fn layout_laws() -> u8
    ensures number { result ≡ 2 }
    ensures same_size { SameSize }
    ensures in_one_piece { InOnePiece }
{
    laid_out();
    2
}
