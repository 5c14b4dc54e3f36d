// The grammar of sheets: which lists of tokens are sheets, with which tree, and where any other is refused.
#![tactic(auto)]

ghost use Rattle.std.specs.Prelude.{◌≡◌, length};
ghost use Rattle.grammar.specs.Examples.{examples, Agree};
ghost use Rattle.grammar.specs.Laws.{GrammarLaws};

fn obeyed()
    ensures agree { Agree }
    ensures laws { GrammarLaws }
{}

// How many worked examples the definitions have. Each gives what it should, and the laws of the grammar hold.
// It has its likes in other crates: what differs is the promise, and a contract is no parameter.
pub fn grammar_laws() -> u8
    ensures number { result ≡ length examples }
    ensures agree { Agree }
    ensures laws { GrammarLaws }
{
    obeyed();
    24
}
