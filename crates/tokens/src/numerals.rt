ghost use Rattle.std.specs.Prelude.{◌≡◌, min};
ghost use Rattle.tokens.specs.Tokens.{value, needless};

// What digits are worth, at most the largest u32: all past 16,383 are refused alike. `digits` of `wording` beside it also
// finds out whether they are digits; here they are.
pub(crate) fn value_of(digits: &[u8]) -> u32
    ensures { result ≡ min (value digits.now) 4294967295 }
{
    digits.iter().fold(0, |sum: u32, digit| {
        sum.saturating_mul(10)
            .saturating_add(u32::from(digit.saturating_sub(b'0')))
    })
}

pub(crate) fn has_needless_zero(digits: &[u8]) -> bool
    ensures { result ≡ needless digits.now }
{
    matches!(digits, [b'0', _, ..])
}
