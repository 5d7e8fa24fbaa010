//! Numbers as decimal digits (`docs/FORMATS.md`, "Pieces").
//!
//! Most numbers have up to three digits. Two or three digits, and the space before them, are put together first, so that the
//! text asks once whether it has room; a digit alone is written as it is.

ghost use Rattle.std.specs.Prelude.{◌≡◌, ◌++◌, ◌∷◌, ◌<◌, ◌≤◌, ◌+◌, OnOk, string_bytes};
ghost use Rattle.std.specs.Fmt.{decimal};
ghost use Rattle.std.specs.Str.{IsAscii};

use hk_model::NoMemory;
use itoa::Buffer;

/// Writes a number. The only error is want of memory.
#[inline(always)]
pub fn write_number(out: &mut String, n: u64) -> Result<(), NoMemory>
    ensures { OnOk result (string_bytes out.new ≡ string_bytes out.old ++ decimal n) }
{
    if n < 10 {
        return write_digit(out, n);
    }
    write_longer(out, n)
}

/// Writes a space and a number. The only error is want of memory.
#[inline(always)]
pub fn write_next_number(out: &mut String, n: u64) -> Result<(), NoMemory>
    ensures { OnOk result (string_bytes out.new ≡ string_bytes out.old ++ 32 ∷ decimal n) }
{
    if n < 10 {
        out.push(' ')?;
        return write_digit(out, n);
    }
    write_next_longer(out, n)
}

/// Writes a space and the number of an operand. It stands apart, since a line may have several operands, of many kinds, and
/// each would lay it in. The only error is want of memory.
#[inline(never)]
pub(crate) fn write_next_operand(out: &mut String, n: u64) -> Result<(), NoMemory>
    ensures { OnOk result (string_bytes out.new ≡ string_bytes out.old ++ 32 ∷ decimal n) }
{
    write_next_number(out, n)
}

/// Writes a number of more than one digit. It stands apart, since most callers lay in the case of one digit.
#[tactic(auto, using(crate::proofs::Digits::two_digits, crate::proofs::Digits::three_digits))]
#[inline(never)]
fn write_longer(out: &mut String, n: u64) -> Result<(), NoMemory>
    requires { 10 ≤ n }
    ensures { OnOk result (string_bytes out.new ≡ string_bytes out.old ++ decimal n) }
{
    if n < 100 {
        return write_ascii(out, &[digit(n / 10), digit(n % 10)]);
    }
    if n < 1000 {
        let bytes = [digit(n / 100), digit(n / 10 % 10), digit(n % 10)];
        return write_ascii(out, &bytes);
    }
    write_long(out, n)
}

/// Writes a space and a number of more than one digit. It stands apart, as `write_longer` does.
#[tactic(auto, using(crate::proofs::Digits::two_digits, crate::proofs::Digits::three_digits))]
#[inline(never)]
fn write_next_longer(out: &mut String, n: u64) -> Result<(), NoMemory>
    requires { 10 ≤ n }
    ensures { OnOk result (string_bytes out.new ≡ string_bytes out.old ++ 32 ∷ decimal n) }
{
    if n < 100 {
        return write_ascii(out, &[b' ', digit(n / 10), digit(n % 10)]);
    }
    if n < 1000 {
        let bytes = [b' ', digit(n / 100), digit(n / 10 % 10), digit(n % 10)];
        return write_ascii(out, &bytes);
    }
    out.push(' ')?;
    write_long(out, n)
}

/// Writes a number of any length. It stands apart, since few numbers come to it.
#[inline(never)]
fn write_long(out: &mut String, n: u64) -> Result<(), NoMemory>
    ensures { OnOk result (string_bytes out.new ≡ string_bytes out.old ++ decimal n) }
{
    let mut digits = Buffer::new();
    out.push_str(digits.format(n))?;
    Ok(())
}

/// Writes a number of one digit.
#[tactic(auto, using(std::proofs::lemmas::Fmt::decimal_digit))]
#[inline(always)]
fn write_digit(out: &mut String, n: u64) -> Result<(), NoMemory>
    requires { n < 10 }
    ensures { OnOk result (string_bytes out.new ≡ string_bytes out.old ++ decimal n) }
{
    out.push(digit(n) as char)?;
    Ok(())
}

/// The letter of a digit.
#[inline(always)]
fn digit(n: u64) -> u8
    requires { n < 10 }
    ensures { result ≡ 48 + n }
{
    b'0' + n as u8
}

/// Writes bytes that are ASCII.
#[tactic(auto, using(crate::proofs::Digits::ascii_is_text))]
#[inline(always)]
fn write_ascii(out: &mut String, bytes: &[u8]) -> Result<(), NoMemory>
    requires { IsAscii bytes.now }
    ensures { OnOk result (string_bytes out.new ≡ string_bytes out.old ++ bytes.now) }
{
    out.push_str(unsafe { str::from_utf8_unchecked(bytes) })?;
    Ok(())
}
