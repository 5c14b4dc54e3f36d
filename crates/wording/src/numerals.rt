ghost use Rattle.std.specs.Prelude.{◌≡◌, ℕ, Bool, true, false, IfOk, string_bytes, Option};
ghost use Rattle.std.specs.Fn.{FnReturnsAt};
ghost use Rattle.std.specs.Option.{option_map};
ghost use Rattle.wording.specs.Numerals.{digits, minus, unsigned, signed, integer, fraction, scaled, thousandths, read_within, read_below, thousandths_written};
ghost use Rattle.wording.specs.Caps.{capped};
ghost use Rattle.wording.specs.Conversions.{IsConverted};

use crate::pieces::cut;
use std::alloc::{AllocError, Global};

// Why a word gives no number.
#[derive(Clone, Copy, Debug, PartialEq, Eq, Drop)]
pub enum Misread {
    NotANumber,
    OutOfRange,
}

// The number that decimal digits stand for, if it has 64 bits, or else the largest that has.
fn digits(text: &[u8]) -> Option<u64>
    ensures { result ≡ capped (digits text.now) }
{
    if text.is_empty() {
        return None;
    }
    text.iter().try_fold(0, |value: u64, b| {
        let digit = char::from(*b).to_digit(10)?;
        Some(value.saturating_mul(10).saturating_add(u64::from(digit)))
    })
}

// A number with a minus sign in front or none, by what says the magnitude of the digits behind it.
fn signed<F: Fn(&[u8]) -> Option<u64>>(text: &[u8], magnitude: F) -> Option<i128>
    requires { F.IsAlwaysCallable magnitude }
    ensures { (o : Option ℕ) × FnReturnsAt F.Fn magnitude (unsigned text.now) o × (result ≡ option_map (signed (minus text.now)) o) }
{
    match text.strip_prefix(b"-") {
        Some(text) => magnitude(text).map(|n| -i128::from(n)),
        None => magnitude(text).map(i128::from),
    }
}

// The whole number that a word stands for, with a magnitude cut off at 64 bits.
fn integer(text: &[u8]) -> Option<i128>
    ensures { result ≡ option_map (signed (minus text.now)) (capped (digits (unsigned text.now))) }
{
    signed(text, digits)
}

// The number, if it lies from `low` to `high`, in the type of the answer.
fn within<T: TryFrom<i128>>(number: Option<i128>, low: i128, high: i128) -> Result<T, Misread>
where
    T::Error: Drop,
    ensures { IsConverted T.TryFrom.try_from_gives (read_within low high number) result }
{
    let number = number.ok_or(Misread::NotANumber)?;
    if !(low..=high).contains(&number) {
        return Err(Misread::OutOfRange);
    }
    T::try_from(number).map_err(|_| Misread::OutOfRange)
}

// The number, if it lies from `low` to `high`, with a magnitude cut off at 64 bits or not.
fn within_i64(number: Option<i128>, low: i64, high: i64) -> Result<i64, Misread>
    ensures { (negative : Bool) (o : Option ℕ) → number ≡ option_map (signed negative) (capped o) → result ≡ read_within low high (option_map (signed negative) o) }
{
    within(number, i128::from(low), i128::from(high))
}

// The whole number that a word stands for, if it lies from `low` to `high`.
pub fn integer_within(text: &[u8], low: i64, high: i64) -> Result<i64, Misread>
    ensures { result ≡ read_within low high (integer text.now) }
{
    within_i64(integer(text), low, high)
}

// The whole number that a word stands for, if it lies from 0 to below `count`.
pub fn index_below(text: &[u8], count: usize) -> Result<usize, Misread>
    ensures { result ≡ read_below count (integer text.now) }
{
    within(integer(text), 0, count as i128 - 1)
}

// One to three digits after the point, in thousandths.
fn fraction(text: &[u8]) -> Option<u64>
    ensures { result ≡ fraction text.now }
{
    let value = digits(text)?;
    match text.len() {
        1 => Some(value.saturating_mul(100)),
        2 => Some(value.saturating_mul(10)),
        3 => Some(value),
        _ => None,
    }
}

fn scaled(text: &[u8]) -> Option<u64>
    ensures { result ≡ capped (scaled text.now) }
{
    let Some((whole, after)) = cut(text, b'.') else {
        return Some(digits(text)?.saturating_mul(1000));
    };
    Some(
        digits(whole)?
            .saturating_mul(1000)
            .saturating_add(fraction(after)?),
    )
}

// The thousandths of a number, with a magnitude cut off at 64 bits.
fn thousandths(text: &[u8]) -> Option<i128>
    ensures { result ≡ option_map (signed (minus text.now)) (capped (scaled (unsigned text.now))) }
{
    signed(text, scaled)
}

// The thousandths of a number with up to three digits after the point, if they are in the range.
pub fn thousandths_within(text: &[u8], low: i64, high: i64) -> Result<i64, Misread>
    ensures { result ≡ read_within low high (thousandths text.now) }
{
    within_i64(thousandths(text), low, high)
}

// A number of thousandths, with three digits after the point.
pub fn written_thousandths(heap: Global, thousandths: i32) -> Result<String, AllocError>
    ensures { IfOk result (λ s. string_bytes s ≡ thousandths_written thousandths) }
{
    let n = thousandths.unsigned_abs();
    let sign = if thousandths < 0 { "-" } else { "" };
    format!(in heap; "{sign}{}.{:03}", n / 1000, n % 1000)
}
