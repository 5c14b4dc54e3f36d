// What a table shows at an index. Table and index stay two: the one is fixed, and a parser answers the other.
ghost use Rattle.std.specs.Prelude.{◌≡◌};
ghost use Rattle.grammar.specs.Words.{level};
ghost use Rattle.sheet.specs.Looks.{kind_at, start_of, binding, is_at, equals_at, opening_at};

use crate::nodes::{Kind, Mark, Node};
use reckoning::{Comparison, Operator};

// What an operand begins with.
#[derive(Debug, Clone, Copy, PartialEq, Eq, Drop)]
pub(crate) enum Start {
    Sign,
    Number,
    Name,
    Open,
    Other,
}

// Nothing past the end.
pub(crate) fn kind_at(nodes: &[Node], at: usize) -> Option<Kind>
    ensures { result ≡ kind_at nodes.now at }
{
    nodes.get(at).map(|node| node.item)
}

pub(crate) fn start_of(kind: Option<Kind>) -> Start
    ensures { result ≡ start_of kind }
{
    match kind {
        Some(Kind::Number(_)) => Start::Number,
        Some(Kind::Name) => Start::Name,
        Some(Kind::Operator(Operator::Subtract) | Kind::Exclamation) => Start::Sign,
        Some(Kind::Mark(Mark::Round)) => Start::Open,
        _ => Start::Other,
    }
}

fn level_of(operator: Operator) -> u8
    ensures { result ≡ level operator }
{
    match operator {
        Operator::Compare(Comparison::Equal | Comparison::NotEqual) => 1,
        Operator::Compare(_) => 2,
        Operator::Add | Operator::Subtract => 3,
        Operator::Multiply | Operator::Divide | Operator::Remainder => 4,
    }
}

// How tightly an operator binds there, 0 where there is none: one number to compare with a level.
pub(crate) fn binding_at(nodes: &[Node], at: usize) -> u8
    ensures { result ≡ binding (kind_at nodes.now at) }
{
    match kind_at(nodes, at) {
        Some(Kind::Operator(operator)) => level_of(operator),
        _ => 0,
    }
}

pub(crate) fn is_at(nodes: &[Node], at: usize, mark: Mark) -> bool
    ensures { result ≡ is_at nodes.now at mark }
{
    matches!(kind_at(nodes, at), Some(Kind::Mark(found)) if found == mark)
}

pub(crate) fn equals_at(nodes: &[Node], at: usize) -> bool
    ensures { result ≡ equals_at (kind_at nodes.now at) }
{
    matches!(kind_at(nodes, at), Some(Kind::Equals))
}

// Whether "(" or "[" stands there.
pub(crate) fn opening_at(nodes: &[Node], at: usize) -> bool
    ensures { result ≡ opening_at nodes.now at }
{
    is_at(nodes, at, Mark::Round) || is_at(nodes, at, Mark::Square)
}
