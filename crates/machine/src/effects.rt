// One function for each instruction. The program counter is past the instruction already.
// A stop leaves registers and store as they were.
// The two are parameters and no struct: so their types say which of them an instruction changes, only reads or does
// not touch, where the clauses of a struct's methods would have to, and that the borrowed store is still the same one.
ghost use Rattle.std.specs.Prelude.{◌≡◌, ◌<◌, OnOk};
ghost use Rattle.machine.specs.Instructions.{push, relative, load, store_top, pop, binary, negate, invert, spent, toll, jump, branch, mark, admitted, read_after, link, call, enter, allocate, fewer, saved, leave, check};
ghost use Rattle.machine.specs.Seen.{after};

use crate::memory::{
    cell_of, clear, lowered, number_of, raised, read, top_two, write, write_above, write_three,
};
use crate::state::Registers;
use instructions::Stop;
use reckoning::{Operator, Reckoning, operate};

pub(crate) fn push<R: Reckoning>(
    n: i32,
    r: &mut Registers,
    store: &mut [R::Cell],
) -> Result<(), Stop>
    ensures { (result, (r.new, store.new)) ≡ after (r.old, store.old) (push R.Reckoning.meaning n r.old store.old) }
{
    let c = cell_of::<R>(n)?;
    r.sp = write_above(store, r.sp, c)?;
    Ok(())
}

#[tactic(auto, unfolding(crate::specs::Instructions::relative))]
pub(crate) fn relative<R: Reckoning>(
    j: i32,
    r: &mut Registers,
    store: &mut [R::Cell],
) -> Result<(), Stop>
    ensures { (result, (r.new, store.new)) ≡ after (r.old, store.old) (relative R.Reckoning.meaning j r.old store.old) }
{
    let n = raised(r.fp, j)?;
    push::<R>(n, r, store)
}

pub(crate) fn load<R: Reckoning>(r: &mut Registers, store: &mut [R::Cell]) -> Result<(), Stop>
    ensures { (result, (r.new, store.new)) ≡ after (r.old, store.old) (load R.Reckoning.meaning r.old store.old) }
{
    let top = read(store, r.sp)?;
    let at = number_of::<R>(top)?;
    let c = read(store, at)?;
    write(store, r.sp, c)
}

pub(crate) fn store_top<R: Reckoning>(r: &mut Registers, store: &mut [R::Cell]) -> Result<(), Stop>
    ensures { (result, (r.new, store.new)) ≡ after (r.old, store.old) (store_top R.Reckoning.meaning r.old store.old) }
{
    let (sp, below, top) = top_two(store, r.sp)?;
    let at = number_of::<R>(top)?;
    write(store, at, below)?;
    r.sp = sp;
    Ok(())
}

pub(crate) fn pop(r: &mut Registers) -> Result<(), Stop>
    ensures { (result, r.new) ≡ after r.old (pop r.old) }
{
    r.sp = lowered(r.sp, 1)?;
    Ok(())
}

pub(crate) fn binary<R: Reckoning>(
    operator: Operator,
    r: &mut Registers,
    store: &mut [R::Cell],
) -> Result<(), Stop>
    ensures { (result, (r.new, store.new)) ≡ after (r.old, store.old) (binary R.Reckoning.meaning operator r.old store.old) }
{
    let (sp, left, right) = top_two(store, r.sp)?;
    let c = operate::<R>(operator, left, right)?;
    write(store, sp, c)?;
    r.sp = sp;
    Ok(())
}

pub(crate) fn negate<R: Reckoning>(r: &mut Registers, store: &mut [R::Cell]) -> Result<(), Stop>
    ensures { (result, (r.new, store.new)) ≡ after (r.old, store.old) (negate R.Reckoning.meaning r.old store.old) }
{
    let top = read(store, r.sp)?;
    let c = R::negate(top)?;
    write(store, r.sp, c)
}

pub(crate) fn invert<R: Reckoning>(r: &mut Registers, store: &mut [R::Cell]) -> Result<(), Stop>
    ensures { (result, (r.new, store.new)) ≡ after (r.old, store.old) (invert R.Reckoning.meaning r.old store.old) }
{
    let top = read(store, r.sp)?;
    let nonzero = R::test(top)?;
    let c = R::whole(u16::from(!nonzero));
    write(store, r.sp, c)
}

fn spend(budget: &mut u32) -> Result<(), Stop>
    ensures { (result, budget.new) ≡ after budget.old (spent budget.old) }
{
    *budget = budget.checked_sub(1).ok_or(Stop::Budget)?;
    Ok(())
}

fn pay_jump(to: i32, pc: i32, budget: &mut u32) -> Result<(), Stop>
    ensures { (result, budget.new) ≡ after budget.old (toll to pc budget.old) }
{
    if to < pc { spend(budget) } else { Ok(()) }
}

pub(crate) fn jump(to: i32, r: &mut Registers) -> Result<(), Stop>
    ensures { (result, r.new) ≡ after r.old (jump to r.old) }
{
    pay_jump(to, r.pc, &mut r.budget)?;
    r.pc = to;
    Ok(())
}

pub(crate) fn branch<R: Reckoning>(
    to: i32,
    r: &mut Registers,
    store: &[R::Cell],
) -> Result<(), Stop>
    ensures { (result, r.new) ≡ after r.old (branch R.Reckoning.meaning to r.old store.now) }
{
    let top = read(store, r.sp)?;
    let sp = lowered(r.sp, 1)?;
    let nonzero = R::test(top)?;
    if !nonzero {
        pay_jump(to, r.pc, &mut r.budget)?;
        r.pc = to;
    }
    r.sp = sp;
    Ok(())
}

pub(crate) fn mark<R: Reckoning>(r: &mut Registers, store: &mut [R::Cell]) -> Result<(), Stop>
    ensures { (result, (r.new, store.new)) ≡ after (r.old, store.old) (mark R.Reckoning.meaning r.old store.old) }
{
    let ep = cell_of::<R>(r.ep)?;
    let fp = cell_of::<R>(r.fp)?;
    let sp = raised(r.sp, 4)?;
    write_three(store, r.sp, R::whole(0), ep, fp)?;
    r.sp = sp;
    Ok(())
}

fn admit(active: u32, budget: &mut u32) -> Result<(), Stop>
    ensures is { (result, budget.new) ≡ after budget.old (admitted active budget.old) }
    ensures few { OnOk result (active < 24) }
{
    if active >= 24 {
        Err(Stop::Depth)
    } else {
        spend(budget)
    }
}

fn retire(active: u32) -> Result<u32, Stop>
    ensures { result ≡ fewer active }
{
    active.checked_sub(1).ok_or(Stop::Broken)
}

// The number that was saved so many cells below the frame pointer.
fn saved<R: Reckoning>(store: &[R::Cell], fp: i32, below: i32) -> Result<i32, Stop>
    ensures { result ≡ saved R.Reckoning.meaning store.now fp below }
{
    let at = lowered(fp, below)?;
    let c = read(store, at)?;
    number_of::<R>(c)
}

// What a cell holds once `value` is written at `at`.
fn read_after<C: Copy>(store: &[C], at: i32, value: C, address: i32) -> Result<C, Stop>
    ensures { result ≡ read_after store.now at value address }
{
    read(store, at)?;
    if address == at {
        Ok(value)
    } else {
        read(store, address)
    }
}

fn link<R: Reckoning>(
    sp: i32,
    fp: i32,
    back: R::Cell,
    r: &mut Registers,
    store: &mut [R::Cell],
) -> Result<(), Stop>
    ensures { (result, (r.new, store.new)) ≡ after (r.old, store.old) (link R.Reckoning.meaning sp fp back r.old store.old) }
{
    let top = read_after(store, fp, back, r.sp)?;
    let pc = number_of::<R>(top)?;
    let mut budget = r.budget;
    admit(r.active, &mut budget)?;
    write(store, fp, back)?;
    *r = Registers {
        pc,
        sp,
        fp,
        active: r.active + 1,
        budget,
        ..*r
    };
    Ok(())
}

pub(crate) fn call<R: Reckoning>(
    n: i32,
    r: &mut Registers,
    store: &mut [R::Cell],
) -> Result<(), Stop>
    ensures { (result, (r.new, store.new)) ≡ after (r.old, store.old) (call R.Reckoning.meaning n r.old store.old) }
{
    let sp = lowered(r.sp, 1)?;
    let fp = lowered(sp, n)?;
    let back = cell_of::<R>(r.pc)?;
    link::<R>(sp, fp, back, r, store)
}

pub(crate) fn enter<C>(q: i32, r: &mut Registers, store: &[C]) -> Result<(), Stop>
    ensures { (result, r.new) ≡ after r.old (enter q r.old store.now) }
{
    if q < 0 {
        return Err(Stop::Broken);
    }
    let ep = raised(r.sp, q)?;
    if usize::try_from(ep).is_ok_and(|ep| ep >= store.len()) {
        return Err(Stop::Cells);
    }
    r.ep = ep;
    Ok(())
}

pub(crate) fn allocate<R: Reckoning>(
    k: i32,
    r: &mut Registers,
    store: &mut [R::Cell],
) -> Result<(), Stop>
    ensures { (result, (r.new, store.new)) ≡ after (r.old, store.old) (allocate R.Reckoning.meaning k r.old store.old) }
{
    let count = u32::try_from(k).map_err(|_| Stop::Broken)?;
    let sp = raised(r.sp, k)?;
    clear(store, r.sp, count, R::whole(0))?;
    r.sp = sp;
    Ok(())
}

pub(crate) fn leave<R: Reckoning>(r: &mut Registers, store: &[R::Cell]) -> Result<(), Stop>
    ensures { (result, r.new) ≡ after r.old (leave R.Reckoning.meaning r.old store.now) }
{
    let active = retire(r.active)?;
    let pc = saved::<R>(store, r.fp, 0)?;
    let fp = saved::<R>(store, r.fp, 1)?;
    let ep = saved::<R>(store, r.fp, 2)?;
    let sp = lowered(r.fp, 3)?;
    *r = Registers {
        pc,
        sp,
        fp,
        ep,
        active,
        ..*r
    };
    Ok(())
}

pub(crate) fn check<R: Reckoning>(n: i32, r: &Registers, store: &[R::Cell]) -> Result<(), Stop>
    ensures { (result, r.now) ≡ after r.now (check R.Reckoning.meaning n r.now store.now) }
{
    let top = read(store, r.sp)?;
    if R::place(top).is_some_and(|i| i32::from(i) < n) {
        Ok(())
    } else {
        Err(Stop::Index)
    }
}
