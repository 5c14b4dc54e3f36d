// A line of a listing: NAME [OPERAND] [@PLACE], or word N [@PLACE].
ghost use Rattle.std.specs.Prelude.{◌≡◌, ◌+◌, ◌*◌, ◌&&◌, if◌then◌else◌, pos, negsuc, Some, None, Ok, Err, int_le};
ghost use Rattle.std.specs.Option.{option_map, ok_or};
ghost use Rattle.wording.specs.Pieces.{words, place_of};
ghost use Rattle.commands.specs.Listings.{names, after_at, word, place, lone, placed, line};
ghost use Rattle.instructions.specs.Words.{low_bits};

use crate::cause::Cause;
use crate::words::{between, none, unsigned};
use instructions::{NAMES, word_of};
use wording::{first_word, is_word, place_of};

fn number_of(name: &[u8]) -> Result<u8, Cause>
    ensures { result ≡ ok_or (place_of name.now names) Cause.UnknownInstruction }
{
    let number = place_of(name, &NAMES).ok_or(Cause::UnknownInstruction)?;
    u8::try_from(number).map_err(|_| Cause::UnknownInstruction)
}

// What stands after '@'.
fn after_at(word: &[u8]) -> Option<&[u8]>
    ensures { option_map (λ x. x.now) result ≡ after_at word.now }
{
    word.strip_prefix(b"@")
}

// The word of an instruction's number and an operand.
fn word_with(number: u8, operand: i64) -> Result<u32, Cause>
    ensures { result ≡ (if int_le (negsuc 8388607) operand && int_le operand (pos 8388607) then Ok (16777216 * number + low_bits operand) else Err Cause.OperandRange) }
{
    let operand = i32::try_from(operand).map_err(|_| Cause::OperandRange)?;
    word_of(number, operand).ok_or(Cause::OperandRange)
}

// The word of a name that no operand follows.
fn bare(name: &[u8]) -> Result<u32, Cause>
    ensures { result ≡ word name.now None }
{
    if is_word(name, "word") {
        return Err(Cause::MissingWord);
    }
    word_with(number_of(name)?, 0)
}

// The word of a name and its operand.
fn with_operand(name: &[u8], operand: &[u8]) -> Result<u32, Cause>
    ensures { result ≡ word name.now (Some operand.now) }
{
    if is_word(name, "word") {
        return unsigned(operand, Cause::WordRange);
    }
    let number = number_of(name)?;
    let operand = between(operand, -0x80_0000, 0x7f_ffff, Cause::OperandRange)?;
    word_with(number, i64::from(operand))
}

fn place(word: &[u8]) -> Result<u32, Cause>
    ensures { result ≡ place (Some word.now) }
{
    unsigned(word, Cause::PlaceRange)
}

// A single word after the name is a place or an operand.
fn lone(name: &[u8], word: &[u8]) -> Result<(u32, u32), Cause>
    ensures { result ≡ lone name.now word.now (after_at word.now) }
{
    let Some(at) = after_at(word) else {
        return Ok((with_operand(name, word)?, 0));
    };
    let word = bare(name)?;
    Ok((word, place(at)?))
}

// Of two words after the name the last is a place.
fn placed(name: &[u8], operand: &[u8], last: &[u8]) -> Result<(u32, u32), Cause>
    ensures { result ≡ placed name.now operand.now (after_at last.now) }
{
    let Some(at) = after_at(last) else {
        return Err(Cause::ExtraWord);
    };
    let word = with_operand(name, operand)?;
    Ok((word, place(at)?))
}

// The word of a line that begins with a name, and its place.
pub(crate) fn line(name: &[u8], rest: &[u8]) -> Result<(u32, u32), Cause>
    ensures { result ≡ line name.now (words rest.now) }
{
    let Some((first, rest)) = first_word(rest) else {
        return Ok((bare(name)?, 0));
    };
    let Some((second, rest)) = first_word(rest) else {
        return lone(name, first);
    };
    none(rest)?;
    placed(name, first, second)
}
