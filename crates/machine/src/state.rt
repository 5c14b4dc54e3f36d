ghost use Rattle.std.specs.Prelude.{Some};
ghost use Rattle.machine.specs.Endings.{registers_text, stopped_text};

use instructions::Stop;
use std::error::Error;
use std::fmt;

// The machine's registers: program counter, stack pointer, frame pointer, extreme pointer (the highest address that the active
// function may need), how many functions are active, and the units of work that are left.
#[derive(Clone, Copy, Debug, PartialEq, Eq)]
pub struct Registers {
    pub pc: i32,
    pub sp: i32,
    pub fp: i32,
    pub ep: i32,
    pub active: u32,
    pub budget: u32,
}

impl fmt::Display for Registers {
    ghost output = { λ r. Some (registers_text r) };

    fn fmt<W: fmt::Write>(&self, f: &mut fmt::Formatter<W>) -> fmt::Result {
        let Registers {
            pc,
            sp,
            fp,
            ep,
            active,
            budget,
        } = self;
        write!(
            f,
            "pc {pc} sp {sp} fp {fp} ep {ep} active {active} budget {budget}"
        )
    }
}

// Why a run stops, and at which place of the text.
#[derive(Clone, Copy, Debug, PartialEq, Eq)]
pub struct Stopped {
    pub stop: Stop,
    pub place: u32,
}

impl fmt::Display for Stopped {
    ghost output = { λ s. Some (stopped_text s) };

    fn fmt<W: fmt::Write>(&self, f: &mut fmt::Formatter<W>) -> fmt::Result {
        let number = self.stop.number();
        let layer = self.stop.layer();
        let place = self.place;
        write!(f, "stop {number} {layer} at {place}")
    }
}

impl Error for Stopped {}

// Whether the machine goes on after an instruction.
#[derive(Clone, Copy, Debug, PartialEq, Eq)]
pub enum Flow {
    Onward,
    Halts,
}
