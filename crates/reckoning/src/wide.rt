// Arithmetic of 32-bit numbers in 64 bits, which hold every sum, difference and product of two of them.
ghost use Rattle.std.specs.Prelude.{◌≡◌, true, false, ◌+ℤ◌, ◌-ℤ◌, ◌*ℤ◌, Some, None, int_div};
ghost use Rattle.reckoning.specs.Meaning.{is_zero, within};

pub(crate) fn sum(left: i32, right: i32) -> i64
    ensures { result ≡ left +ℤ right }
{
    i64::from(left) + i64::from(right)
}

pub(crate) fn difference(left: i32, right: i32) -> i64
    ensures { result ≡ left -ℤ right }
{
    i64::from(left) - i64::from(right)
}

pub(crate) fn product(left: i32, right: i32) -> i64
    ensures { result ≡ left *ℤ right }
{
    i64::from(left) * i64::from(right)
}

// number × factor / divisor, with the fraction dropped toward zero.
pub(crate) fn scaled(number: i32, factor: i32, divisor: i32) -> i64
    requires { is_zero divisor ≡ false }
    ensures { result ≡ int_div (number *ℤ factor) divisor }
{
    product(number, factor) / i64::from(divisor)
}

// The number in 32 bits, if it lies from low to high. It is an Option, of which each operation makes its own
// answer: so compiled, the range is one branch, where a shared Result is packed into a word and taken apart again.
pub(crate) fn narrow(number: i64, low: i32, high: i32) -> Option<i32>
    ensures { elim result [ Some n ↦ (n ≡ number) × (within low high number ≡ true) | None ↦ within low high number ≡ false ] }
{
    i32::try_from(number)
        .ok()
        .filter(|number| (low..=high).contains(number))
}
