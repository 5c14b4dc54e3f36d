ghost use Rattle.std.specs.Prelude.{◌≡◌, ◌<◌, map, length, IfSome};
ghost use Rattle.std.specs.Str.{bytes_eq};
ghost use Rattle.wording.specs.Pieces.{cut, lines, words, held, with_rest, place_of};

// What stands before the first such byte, and what stands after it.
pub(crate) fn cut(bytes: &[u8], at: u8) -> Option<(&[u8], &[u8])>
    ensures { held result ≡ cut at bytes.now }
{
    let i = bytes.iter().position(|b| *b == at)?;
    Some((&bytes[..i], &bytes[i + 1..]))
}

// The first line of a text, and the text after it.
pub fn first_line(text: &[u8]) -> Option<(&[u8], &[u8])>
    ensures is { lines text.now ≡ with_rest lines (held result) }
    ensures shorter { IfSome (held result) (λ p. length p.1 < length text.now) }
{
    if text.is_empty() {
        return None;
    }
    Some(cut(text, b'\n').unwrap_or((text, &[])))
}

// The first word of a line, and the line after it.
pub fn first_word(line: &[u8]) -> Option<(&[u8], &[u8])>
    ensures { words line.now ≡ with_rest words (held result) }
{
    let rest = line.trim_ascii_start();
    if rest.is_empty() {
        return None;
    }
    let end = rest
        .iter()
        .position(u8::is_ascii_whitespace)
        .unwrap_or(rest.len());
    let (word, after) = rest.split_at(end);
    Some((word, after))
}

// Whether a word is this name.
pub fn is_word(word: &[u8], name: &str) -> bool
    ensures { result ≡ bytes_eq word.now name.now }
{
    word == name.as_bytes()
}

// Which of the names a word is, from 0.
pub fn place_of(word: &[u8], names: &[&str]) -> Option<usize>
    ensures { result ≡ place_of word.now (map (λ x. x.now) names.now) }
{
    names.iter().position(|name| is_word(word, name))
}
