// The questions that a sheet's tree must answer before it is translated, and what their answers say.
#![tactic(auto)]

ghost use Rattle.std.specs.Prelude.{◌≡◌, length};
ghost use Rattle.names.specs.Examples.{examples, Agree};
ghost use Rattle.names.specs.Laws.{QuestionLaws};

fn obeyed()
    ensures agree { Agree }
    ensures laws { QuestionLaws }
{}

// How many worked examples the questions have. Each gives what it should, and the laws of the questions hold of every sheet.
// It has its likes in other crates: what differs is the promise, and a contract is no parameter.
pub fn question_laws() -> u8
    ensures number { result ≡ length examples }
    ensures agree { Agree }
    ensures laws { QuestionLaws }
{
    obeyed();
    28
}
