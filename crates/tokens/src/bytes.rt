// The classes of bytes, and the longest run of one.
ghost use Rattle.std.specs.Prelude.{◌≡◌, ℕ, ◌≤◌, Bool, length};
ghost use Rattle.std.specs.List.{prefix_len};
ghost use Rattle.tokens.specs.Tokens.{gap, letter, inner};

pub(crate) fn is_gap(byte: u8) -> bool
    ensures { result ≡ gap byte }
{
    matches!(byte, b'\t' | b'\n' | b'\r' | b' ')
}

pub(crate) fn is_letter(byte: u8) -> bool
    ensures { result ≡ letter byte }
{
    matches!(byte, b'A'..=b'Z' | b'a'..=b'z' | b'_')
}

pub(crate) fn is_inner(byte: u8) -> bool
    ensures { result ≡ inner byte }
{
    is_letter(byte) || byte.is_ascii_digit()
}

// How many bytes at the front pass a test.
pub(crate) fn front_length<F: Fn(u8) -> bool>(bytes: &[u8], test: F) -> usize
    requires { F.IsAlwaysCallable test }
    ensures is { (p : ℕ → Bool) → ((b : ℕ) (r : Bool) → F.post test b r → r ≡ p b) → result ≡ prefix_len p bytes.now }
    ensures few { result ≤ length bytes.now }
{
    bytes.iter().take_while(|byte| test(**byte)).count()
}
