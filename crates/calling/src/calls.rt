ghost use Rattle.std.specs.Prelude.{◌≡◌};
ghost use Rattle.calling.specs.Calls.{framed_where, begun, answered, called, Agrees};

use machine::{Registers, Stopped, run};
use reckoning::Reckoning;

// What a call of a function comes to: its value, or a stop at a place of the text; and the units that it spent.
#[derive(Clone, Copy, Debug, PartialEq, Eq)]
pub struct Answer<C> {
    pub value: Result<C, Stopped>,
    pub spent: u32,
}

// Writes the first frame above cell `cells`, if there is room for it: the result's cell and what a call would save, each
// `empty`, then the arguments.
// An Option of nothing, which `?` takes in a function that answers an Option.
fn write_frame<C: Copy>(store: &mut [C], cells: usize, empty: C, arguments: &[C]) -> Option<()>
    ensures { (result, store.new) ≡ framed_where empty cells arguments.now store.old }
{
    if store.len() < 5 || cells > store.len() - 5 || arguments.len() > store.len() - 5 - cells {
        return None;
    }
    let first = cells + 5;
    store[cells + 1..first].copy_from_slice(&[empty; 4]);
    store[first..first + arguments.len()].copy_from_slice(arguments);
    Some(())
}

// Makes the machine ready to run the function at `start`. Its address and those of all cells must be numbers that a cell
// can hold.
fn begin<R: Reckoning>(
    store: &mut [R::Cell],
    cells: usize,
    start: u16,
    arguments: &[R::Cell],
    budget: u32,
) -> Option<Registers>
    ensures { (result, store.new) ≡ begun R.Reckoning.meaning start cells arguments.now budget store.old }
{
    if start > 16_383 || store.len() > 16_384 {
        return None;
    }
    write_frame(store, cells, R::whole(0), arguments)?;
    let frame = cells as i32 + 4;
    Some(Registers {
        pc: i32::from(start),
        sp: frame + arguments.len() as i32,
        fp: frame,
        ep: 0,
        active: 1,
        budget,
    })
}

fn conclude<C: Copy>(ending: Result<(), Stopped>, outcome: C, spent: u32) -> Answer<C>
    ensures { result ≡ answered ending outcome spent }
{
    Answer {
        value: ending.map(|()| outcome),
        spent,
    }
}

// Code and places are two lists, and the store a slice, as the caller supplies them.
// Runs the function whose code starts at `start`, with its first frame above cell `cells`, the last one of its sheet.
// None, and the store as it was, where there is no room for the frame or an address is too large for a cell.
pub fn call<R: Reckoning>(
    code: &[u32],
    places: &[u32],
    store: &mut [R::Cell],
    cells: usize,
    start: u16,
    arguments: &[R::Cell],
    budget: u32,
) -> Option<Answer<R::Cell>>
    ensures is { (result, store.new) ≡ called R.Reckoning.meaning code.now places.now start cells arguments.now budget store.old }
    ensures agrees { Agrees R.Reckoning.meaning code.now places.now start cells arguments.now budget store.old (result, store.new) }
{
    let mut registers = begin::<R>(store, cells, start, arguments, budget)?;
    let ending = run::<R>(code, places, &mut registers, store);
    Some(conclude(ending, store[cells + 1], budget - registers.budget))
}
