ghost use Rattle.std.specs.Prelude.{◌≡◌, ◌≤◌};
ghost use Rattle.reckoning.specs.Meaning.{Meaning, Laws, number, holds, applied};

// Why an operation gives no cell: each case has one of the numbers 45 to 59. Those after 46 are kept for further reckonings.
#[derive(Clone, Copy, Debug, PartialEq, Eq)]
pub enum Stop {
    OutOfRange = 45,
    ZeroDivisor = 46,
    Kept47 = 47,
    Kept48 = 48,
    Kept49 = 49,
    Kept50 = 50,
    Kept51 = 51,
    Kept52 = 52,
    Kept53 = 53,
    Kept54 = 54,
    Kept55 = 55,
    Kept56 = 56,
    Kept57 = 57,
    Kept58 = 58,
    Kept59 = 59,
}

impl Stop {
    // A method and not From, since it says what the number is.
    pub fn number(self) -> u8
        ensures is { result ≡ number self }
        ensures range { (45 ≤ result) × (result ≤ 59) }
    {
        self as u8
    }
}

#[derive(Clone, Copy, Debug, PartialEq, Eq)]
pub enum Comparison {
    Equal,
    NotEqual,
    Less,
    AtMost,
    Greater,
    AtLeast,
}

impl Comparison {
    pub fn holds(self, left: i32, right: i32) -> bool
        ensures { result ≡ holds self left right }
    {
        match self {
            Comparison::Equal => left == right,
            Comparison::NotEqual => left != right,
            Comparison::Less => left < right,
            Comparison::AtMost => left <= right,
            Comparison::Greater => left > right,
            Comparison::AtLeast => left >= right,
        }
    }
}

// The operators that take two cells.
#[derive(Clone, Copy, Debug, PartialEq, Eq)]
pub enum Operator {
    Add,
    Subtract,
    Multiply,
    Divide,
    Remainder,
    Compare(Comparison),
}

// A reckoning says what a cell holds and how cells are combined and tested.
// It is a type with no values: its operations depend on their operands alone.
pub trait Reckoning {
    type Cell: Copy;

    ghost meaning: { Meaning Self.Cell };

    // The cell that stands for n; the laws speak of n up to 16,383.
    fn whole(n: u16) -> Self::Cell
        ensures { result ≡ meaning.whole n };

    // The number up to 16,383 that the cell stands for, if it stands for one.
    fn place(cell: Self::Cell) -> Option<u16>
        ensures { result ≡ meaning.place cell };

    fn add(left: Self::Cell, right: Self::Cell) -> Result<Self::Cell, Stop>
        ensures { result ≡ meaning.add left right };

    fn subtract(left: Self::Cell, right: Self::Cell) -> Result<Self::Cell, Stop>
        ensures { result ≡ meaning.subtract left right };

    fn multiply(left: Self::Cell, right: Self::Cell) -> Result<Self::Cell, Stop>
        ensures { result ≡ meaning.multiply left right };

    fn divide(left: Self::Cell, right: Self::Cell) -> Result<Self::Cell, Stop>
        ensures { result ≡ meaning.divide left right };

    fn remainder(left: Self::Cell, right: Self::Cell) -> Result<Self::Cell, Stop>
        ensures { result ≡ meaning.remainder left right };

    fn negate(cell: Self::Cell) -> Result<Self::Cell, Stop>
        ensures { result ≡ meaning.negate cell };

    fn compare(how: Comparison, left: Self::Cell, right: Self::Cell) -> Result<Self::Cell, Stop>
        ensures { result ≡ meaning.compare how left right };

    fn test(cell: Self::Cell) -> Result<bool, Stop>
        ensures { result ≡ meaning.test cell };

    ghost lawful: { Laws meaning };
}

// The set of operators is closed: a match, which needs no value of a function.
pub fn operate<R: Reckoning>(
    operator: Operator,
    left: R::Cell,
    right: R::Cell,
) -> Result<R::Cell, Stop>
    ensures { result ≡ applied R.Reckoning.meaning operator left right }
{
    match operator {
        Operator::Add => R::add(left, right),
        Operator::Subtract => R::subtract(left, right),
        Operator::Multiply => R::multiply(left, right),
        Operator::Divide => R::divide(left, right),
        Operator::Remainder => R::remainder(left, right),
        Operator::Compare(how) => R::compare(how, left, right),
    }
}
