// The cycle of the machine: fetch a word, raise the program counter, execute.
ghost use Rattle.std.specs.Prelude.{◌≡◌};
ghost use Rattle.machine.specs.Runs.{run, Ran, Alone};
ghost use Rattle.machine.specs.Seen.{going_on, flowed, stepped};
ghost use Rattle.machine.specs.Steps.{beside, perform, act, step};

use crate::effects::*;
use crate::memory::{raised, read};
use crate::state::{Flow, Registers, Stopped};
use instructions::{Stop, operand_of};
use reckoning::{Comparison, Operator, Reckoning};

fn place_beside(places: &[u32], pc: i32) -> u32
    ensures { result ≡ beside places.now pc }
{
    read(places, pc).unwrap_or(0)
}

// The machine goes on after an instruction that does not stop.
fn onward(answer: Result<(), Stop>) -> Result<Flow, Stop>
    ensures { result ≡ going_on answer }
{
    answer.map(|()| Flow::Onward)
}

// One case a number, so that a word is dispatched on once: decoded to an Instruction first, a run takes a fifth more
// instructions and 1.4 times as long. The set is closed: a match, and no table of functions.
fn perform<R: Reckoning>(
    number: u32,
    operand: i32,
    r: &mut Registers,
    store: &mut [R::Cell],
) -> Result<Flow, Stop>
    ensures { (result, (r.new, store.new)) ≡ flowed (r.old, store.old) (perform R.Reckoning.meaning number operand r.old store.old) }
{
    match number {
        0 => Ok(Flow::Halts),
        1 => onward(push::<R>(operand, r, store)),
        2 => onward(relative::<R>(operand, r, store)),
        3 => onward(load::<R>(r, store)),
        4 => onward(store_top::<R>(r, store)),
        5 => onward(pop(r)),
        6 => onward(binary::<R>(Operator::Add, r, store)),
        7 => onward(binary::<R>(Operator::Subtract, r, store)),
        8 => onward(binary::<R>(Operator::Multiply, r, store)),
        9 => onward(binary::<R>(Operator::Divide, r, store)),
        10 => onward(binary::<R>(Operator::Remainder, r, store)),
        11 => onward(binary::<R>(Operator::Compare(Comparison::Equal), r, store)),
        12 => onward(binary::<R>(Operator::Compare(Comparison::NotEqual), r, store)),
        13 => onward(binary::<R>(Operator::Compare(Comparison::Less), r, store)),
        14 => onward(binary::<R>(Operator::Compare(Comparison::AtMost), r, store)),
        15 => onward(binary::<R>(Operator::Compare(Comparison::Greater), r, store)),
        16 => onward(binary::<R>(Operator::Compare(Comparison::AtLeast), r, store)),
        17 => onward(negate::<R>(r, store)),
        18 => onward(invert::<R>(r, store)),
        19 => onward(jump(operand, r)),
        20 => onward(branch::<R>(operand, r, store)),
        21 => onward(mark::<R>(r, store)),
        22 => onward(call::<R>(operand, r, store)),
        23 => onward(enter(operand, r, store)),
        24 => onward(allocate::<R>(operand, r, store)),
        25 => onward(leave::<R>(r, store)),
        26 => onward(check::<R>(operand, r, store)),
        _ => Err(Stop::Broken),
    }
}

fn act<R: Reckoning>(code: &[u32], r: &mut Registers, store: &mut [R::Cell]) -> Result<Flow, Stop>
    ensures { (result, (r.new, store.new)) ≡ flowed (r.old, store.old) (act R.Reckoning.meaning code.now r.old store.old) }
{
    let own = r.pc;
    let word = read(code, own)?;
    r.pc = raised(own, 1)?;
    match perform::<R>(word / 0x100_0000, operand_of(word), r, store) {
        Ok(Flow::Onward) => Ok(Flow::Onward),
        Ok(Flow::Halts) => {
            r.pc = own;
            Ok(Flow::Halts)
        }
        Err(stop) => {
            r.pc = own;
            Err(stop)
        }
    }
}

// Code and places are two lists as the caller supplies them, here and in `run`.
// One step of a run. Where the run ends, registers and store stay as they are.
pub fn step<R: Reckoning>(
    code: &[u32],
    places: &[u32],
    registers: &mut Registers,
    store: &mut [R::Cell],
) -> Result<Flow, Stopped>
    ensures { (result, (registers.new, store.new)) ≡ stepped (registers.old, store.old) (step R.Reckoning.meaning code.now places.now (registers.old, store.old)) }
{
    act::<R>(code, registers, store).map_err(|stop| Stopped {
        stop,
        place: place_beside(places, registers.pc),
    })
}

// Runs from these registers to the first halt or stop, and leaves registers and store as they then are.
pub fn run<R: Reckoning>(
    code: &[u32],
    places: &[u32],
    registers: &mut Registers,
    store: &mut [R::Cell],
) -> Result<(), Stopped>
    ensures is { (result, (registers.new, store.new)) ≡ run R.Reckoning.meaning code.now places.now (registers.old, store.old) }
    ensures ran { Ran R.Reckoning.meaning code.now places.now (registers.old, store.old) result (registers.new, store.new) }
    ensures alone { Alone R.Reckoning.meaning code.now places.now (registers.old, store.old) result (registers.new, store.new) }
{
    let mut current = *registers;
    'cycle: loop {
        match act::<R>(code, &mut current, store) {
            Ok(flow) => match flow {
                Flow::Onward => {}
                Flow::Halts => {
                    *registers = current;
                    return Ok(());
                }
            },
            Err(stop) => {
                let place = place_beside(places, current.pc);
                *registers = current;
                return Err(Stopped { stop, place });
            }
        }
    }
}
