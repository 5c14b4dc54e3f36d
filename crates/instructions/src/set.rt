ghost use Rattle.std.specs.Prelude.{Some, ◌≡◌, ◌%◌, ◌≤◌};
ghost use Rattle.std.specs.Option.{ok_or};
ghost use Rattle.instructions.specs.Words.{signed, decoded, number, operand, word_of, encoded, unknown, out_of_range, Encodes, Decodes};
ghost use Rattle.instructions.specs.Faults.{unknown_text, range_text};

use reckoning::{Comparison, Operator};
use std::error::Error;
use std::fmt;

// What the instructions are called in a listing, in the order of their numbers.
pub const NAMES: [&'static str; 27] = [
    "halt", "loadc", "loadrc", "load", "store", "pop", "add", "sub", "mul", "div", "mod", "eq",
    "neq", "le", "leq", "gr", "geq", "neg", "not", "jump", "jumpz", "mark", "call", "enter",
    "alloc", "return", "chk",
];

#[derive(Clone, Copy, Debug, PartialEq, Eq)]
pub enum Instruction {
    Halt,
    LoadConstant(i32),
    LoadRelative(i32),
    Load,
    Store,
    Pop,
    Operate(Operator),
    Negate,
    Not,
    Jump(i32),
    JumpZero(i32),
    Mark,
    Call(i32),
    Enter(i32),
    Allocate(i32),
    Return,
    Check(i32),
}

pub fn operand_of(word: u32) -> i32
    ensures { result ≡ signed (word % 16777216) }
{
    ((word % 0x100_0000 + 0x80_0000) % 0x100_0000) as i32 - 0x80_0000
}

// A word whose number no instruction has.
#[derive(Clone, Copy, Debug, PartialEq, Eq)]
pub struct UnknownWord(pub u32);

impl fmt::Display for UnknownWord {
    ghost output = { λ e. Some (unknown_text e.0) };

    fn fmt<W: fmt::Write>(&self, f: &mut fmt::Formatter<W>) -> fmt::Result {
        write!(f, "no instruction has the word {}", self.0)
    }
}

impl Error for UnknownWord {}

impl TryFrom<u32> for Instruction {
    type Error = UnknownWord;

    ghost try_from_gives = { λ word r. (r ≡ ok_or (decoded word) (unknown word)) × Encodes word r };

    fn try_from(word: u32) -> Result<Self, UnknownWord> {
        let operand = operand_of(word);
        let instruction = match word / 0x100_0000 {
            0 => Instruction::Halt,
            1 => Instruction::LoadConstant(operand),
            2 => Instruction::LoadRelative(operand),
            3 => Instruction::Load,
            4 => Instruction::Store,
            5 => Instruction::Pop,
            6 => Instruction::Operate(Operator::Add),
            7 => Instruction::Operate(Operator::Subtract),
            8 => Instruction::Operate(Operator::Multiply),
            9 => Instruction::Operate(Operator::Divide),
            10 => Instruction::Operate(Operator::Remainder),
            11 => Instruction::Operate(Operator::Compare(Comparison::Equal)),
            12 => Instruction::Operate(Operator::Compare(Comparison::NotEqual)),
            13 => Instruction::Operate(Operator::Compare(Comparison::Less)),
            14 => Instruction::Operate(Operator::Compare(Comparison::AtMost)),
            15 => Instruction::Operate(Operator::Compare(Comparison::Greater)),
            16 => Instruction::Operate(Operator::Compare(Comparison::AtLeast)),
            17 => Instruction::Negate,
            18 => Instruction::Not,
            19 => Instruction::Jump(operand),
            20 => Instruction::JumpZero(operand),
            21 => Instruction::Mark,
            22 => Instruction::Call(operand),
            23 => Instruction::Enter(operand),
            24 => Instruction::Allocate(operand),
            25 => Instruction::Return,
            26 => Instruction::Check(operand),
            _ => return Err(UnknownWord(word)),
        };
        Ok(instruction)
    }
}

impl Instruction {
    // No cast, since cases have fields; a method and not From, since it says what the number is.
    pub fn number(self) -> u32
        ensures is { result ≡ number self }
        ensures small { result ≤ 26 }
    {
        match self {
            Instruction::Halt => 0,
            Instruction::LoadConstant(_) => 1,
            Instruction::LoadRelative(_) => 2,
            Instruction::Load => 3,
            Instruction::Store => 4,
            Instruction::Pop => 5,
            Instruction::Operate(Operator::Add) => 6,
            Instruction::Operate(Operator::Subtract) => 7,
            Instruction::Operate(Operator::Multiply) => 8,
            Instruction::Operate(Operator::Divide) => 9,
            Instruction::Operate(Operator::Remainder) => 10,
            Instruction::Operate(Operator::Compare(how)) => 11 + how as u32,
            Instruction::Negate => 17,
            Instruction::Not => 18,
            Instruction::Jump(_) => 19,
            Instruction::JumpZero(_) => 20,
            Instruction::Mark => 21,
            Instruction::Call(_) => 22,
            Instruction::Enter(_) => 23,
            Instruction::Allocate(_) => 24,
            Instruction::Return => 25,
            Instruction::Check(_) => 26,
        }
    }

    // The operand of an instruction that takes one, and 0 of any other.
    pub fn operand(self) -> i32
        ensures { result ≡ operand self }
    {
        match self {
            Instruction::LoadConstant(operand)
            | Instruction::LoadRelative(operand)
            | Instruction::Jump(operand)
            | Instruction::JumpZero(operand)
            | Instruction::Call(operand)
            | Instruction::Enter(operand)
            | Instruction::Allocate(operand)
            | Instruction::Check(operand) => operand,
            _ => 0,
        }
    }
}

// The word of an instruction's number and an operand, if the operand has 24 bits.
pub fn word_of(number: u8, operand: i32) -> Option<u32>
    ensures { result ≡ word_of number operand }
{
    let low_bits = operand.rem_euclid(0x100_0000) as u32;
    let word = 0x100_0000 * u32::from(number) + low_bits;
    (-0x80_0000..=0x7f_ffff).contains(&operand).then_some(word)
}

// An operand that has no 24 bits.
#[derive(Clone, Copy, Debug, PartialEq, Eq)]
pub struct OperandRange(pub i32);

impl fmt::Display for OperandRange {
    ghost output = { λ e. Some (range_text e.0) };

    fn fmt<W: fmt::Write>(&self, f: &mut fmt::Formatter<W>) -> fmt::Result {
        write!(f, "the operand {} has more than 24 bits", self.0)
    }
}

impl Error for OperandRange {}

// The word of an instruction.
impl TryFrom<Instruction> for u32 {
    type Error = OperandRange;

    ghost try_from_gives = { λ instruction r. (r ≡ ok_or (encoded instruction) (out_of_range (operand instruction))) × Decodes instruction r };

    fn try_from(instruction: Instruction) -> Result<u32, OperandRange> {
        let operand = instruction.operand();
        word_of(instruction.number() as u8, operand).ok_or(OperandRange(operand))
    }
}
