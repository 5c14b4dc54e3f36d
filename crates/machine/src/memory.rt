// The store, and the numbers that it and the registers hold.
ghost use Rattle.std.specs.Prelude.{◌≡◌, pos, ◌+ℤ◌, ◌-ℤ◌};
ghost use Rattle.machine.specs.Instructions.{register, cell, put, natural, three, clear, whole, address, tops, pushed};
ghost use Rattle.machine.specs.Seen.{after, given};

use instructions::Stop;
use reckoning::Reckoning;

// Two functions, not one over a sign: each is one method of the library, and a call says which way it goes.
pub(crate) fn raised(n: i32, by: i32) -> Result<i32, Stop>
    ensures { result ≡ register (n +ℤ by) }
{
    n.checked_add(by).ok_or(Stop::Broken)
}

pub(crate) fn lowered(n: i32, by: i32) -> Result<i32, Stop>
    ensures { result ≡ register (n -ℤ by) }
{
    n.checked_sub(by).ok_or(Stop::Broken)
}

pub(crate) fn read<C: Copy>(store: &[C], at: i32) -> Result<C, Stop>
    ensures { result ≡ cell store.now at }
{
    let at = usize::try_from(at).map_err(|_| Stop::Broken)?;
    store.get(at).copied().ok_or(Stop::Broken)
}

pub(crate) fn write<C: Copy>(store: &mut [C], at: i32, value: C) -> Result<(), Stop>
    ensures { (result, store.new) ≡ after store.old (put store.old at value) }
{
    // Not by usize::try_from and `?`: so a run of the machine takes a tenth more instructions.
    if at >= 0 && (at as usize) < store.len() {
        store[at as usize] = value;
        Ok(())
    } else {
        Err(Stop::Broken)
    }
}

pub(crate) fn cell_of<R: Reckoning>(n: i32) -> Result<R::Cell, Stop>
    ensures { result ≡ whole R.Reckoning.meaning n }
{
    // Not by u16::try_from and filter: with those here and in Counts::place a run takes a fifth more instructions.
    if n >= 0 && n <= 16_383 {
        Ok(R::whole(n as u16))
    } else {
        Err(Stop::Broken)
    }
}

pub(crate) fn number_of<R: Reckoning>(c: R::Cell) -> Result<i32, Stop>
    ensures { result ≡ address R.Reckoning.meaning c }
{
    R::place(c).map(i32::from).ok_or(Stop::Broken)
}

// The index of the cell above an address.
fn above(address: i32) -> Result<usize, Stop>
    ensures { result ≡ natural (address +ℤ pos 1) }
{
    usize::try_from(i64::from(address) + 1).map_err(|_| Stop::Broken)
}

// Writes c into each of the `count` cells above an address, or into none.
pub(crate) fn clear<C: Copy>(store: &mut [C], address: i32, count: u32, c: C) -> Result<(), Stop>
    ensures { (result, store.new) ≡ after store.old (clear c store.old address count) }
{
    if count == 0 {
        return Ok(());
    }
    let first = above(address)?;
    if first >= store.len() || count as usize > store.len() - first {
        return Err(Stop::Broken);
    }
    // No fill, which asks for a clone that cannot fail: C: Copy does not say that of its clone.
    for cell in store[first..first + count as usize].iter_mut() {
        *cell = c;
    }
    Ok(())
}

// Writes the three cells above an address, or none.
pub(crate) fn write_three<C: Copy>(
    store: &mut [C],
    address: i32,
    x: C,
    y: C,
    z: C,
) -> Result<(), Stop>
    ensures { (result, store.new) ≡ after store.old (three store.old address x y z) }
{
    let first = above(address)?;
    if store.len() < 3 || first > store.len() - 3 {
        return Err(Stop::Broken);
    }
    store[first..first + 3].copy_from_slice(&[x, y, z]);
    Ok(())
}

// The address of the cell below the topmost one, and what the two hold.
pub(crate) fn top_two<C: Copy>(store: &[C], sp: i32) -> Result<(i32, C, C), Stop>
    ensures { result ≡ tops store.now sp }
{
    let right = read(store, sp)?;
    let below = lowered(sp, 1)?;
    let left = read(store, below)?;
    Ok((below, left, right))
}

// Writes a cell on top of the stack, and answers its address.
pub(crate) fn write_above<C: Copy>(store: &mut [C], sp: i32, c: C) -> Result<i32, Stop>
    ensures { (result, store.new) ≡ given store.old (pushed c store.old sp) }
{
    let top = raised(sp, 1)?;
    write(store, top, c)?;
    Ok(top)
}
