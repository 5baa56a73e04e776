//! Digits, both ways.
ghost use Rattle.std.specs.Prelude.{◌≡◌, ◌+◌, ◌-◌, ◌*◌, ◌%◌, ◌^◌, ◌≤◌, ◌<◌, ◌++◌, length, decimal, drop};
ghost use Rattle.arrayvec.specs.ArrayVec.{array_vec_len};
ghost use Rattle.axp_trace.specs.Digits.{hex, hex_digit_value};
ghost use Rattle.axp_trace.specs.declared.lines.TheConstants.{LINE_ROOM};
ghost use Rattle.axp_source.specs.Fields.{digit_behind, number_in, hex_in};
ghost use Rattle.axp_source.specs.declared.numbers.TheConstants.{LONG_DIGITS, VALUE_DIGITS};

use axp_trace::{LineText, write_value};
use itoa::Buffer;

/// Half of the range of a displacement of the memory format.
pub(crate) const MEMORY_HALF: u32 = 1 << 15;

/// Half of the range of a displacement of the branch format.
pub const BRANCH_HALF: u32 = 1 << 20;

/// The most decimal digits of a number of 64 bits.
const LONG_DIGITS: usize = 20;

/// The hexadecimal digits of a number of 64 bits.
const VALUE_DIGITS: usize = 16;

/// Appends bytes.
pub(crate) fn push_all(out: &mut LineText, bytes: &[u8])
    requires { array_vec_len out.old + length bytes.now ≤ LINE_ROOM }
    ensures text { out.new.items ≡ out.old.items ++ bytes.now }
    ensures len { array_vec_len out.new ≡ array_vec_len out.old + length bytes.now }
{
    out.try_extend_from_slice(bytes).unwrap();
}

/// Appends a number in decimal.
#[tactic(auto, using(axp_trace::proofs::DigitLemmas::short_long))]
pub(crate) fn push_decimal(out: &mut LineText, n: u64)
    requires { array_vec_len out.old + LONG_DIGITS ≤ LINE_ROOM }
    ensures text { out.new.items ≡ out.old.items ++ decimal n }
    ensures len { array_vec_len out.new ≤ array_vec_len out.old + LONG_DIGITS }
{
    let mut buffer = Buffer::new();
    push_all(out, buffer.format(n).as_bytes());
}

/// Appends a number below 256 in decimal.
#[tactic(auto, using(axp_trace::proofs::DigitLemmas::short_byte))]
pub(crate) fn push_byte(out: &mut LineText, n: u8)
    requires { array_vec_len out.old + 3 ≤ LINE_ROOM }
    ensures text { out.new.items ≡ out.old.items ++ decimal n }
    ensures len { array_vec_len out.new ≤ array_vec_len out.old + 3 }
{
    let mut buffer = Buffer::new();
    push_all(out, buffer.format(n).as_bytes());
}

/// The last bytes of a text.
fn last_bytes(text: &[u8], count: usize) -> &[u8]
    requires { count ≤ length text.now }
    ensures { result.now ≡ drop (length text.now - count) text.now }
{
    &text[text.len() - count..]
}

/// Appends the lowest hexadecimal digits of a number, the highest first.
pub(crate) fn push_hex(out: &mut LineText, digits: usize, n: u64)
    requires few { digits ≤ VALUE_DIGITS }
    requires room { array_vec_len out.old + digits ≤ LINE_ROOM }
    ensures text { out.new.items ≡ out.old.items ++ hex digits n }
    ensures len { array_vec_len out.new ≡ array_vec_len out.old + digits }
{
    let value = write_value(n);
    push_all(out, last_bytes(value.as_slice(), digits));
}

/// The number of the digits so far and one more byte, which counts if it is a digit, without what
/// is above 64 bits.
fn with_digit(number: u64, byte: u8) -> u64
    ensures { result ≡ digit_behind number byte % 2 ^ 64 }
{
    if byte.is_ascii_digit() {
        number.wrapping_mul(10).wrapping_add((byte - b'0') as u64)
    } else {
        number
    }
}

/// The number of the decimal digits among the bytes of a word, without what is above 64 bits.
pub(crate) fn number_in(word: &[u8]) -> u64
    ensures { result ≡ number_in word.now }
{
    let mut number: u64 = 0;
    for byte in word {
        number = with_digit(number, *byte);
    }
    number
}

/// What a hexadecimal digit in upper case stands for; for another byte some number below 16.
fn digit_value(byte: u8) -> u8
    ensures { result ≡ hex_digit_value byte }
{
    let value = if byte < b'A' {
        byte.saturating_sub(b'0')
    } else {
        byte - (b'A' - 10)
    };
    value % 16
}

/// The number of the hexadecimal digits so far and one more, without what is above 64 bits.
fn with_hex_digit(number: u64, byte: u8) -> u64
    ensures { result ≡ (number * 16 + hex_digit_value byte) % 2 ^ 64 }
{
    number
        .wrapping_mul(16)
        .wrapping_add(digit_value(byte) as u64)
}

/// The number of a word of hexadecimal digits, without what is above 64 bits.
pub(crate) fn hex_in(word: &[u8]) -> u64
    ensures { result ≡ hex_in word.now }
{
    let mut number: u64 = 0;
    for byte in word {
        number = with_hex_digit(number, *byte);
    }
    number
}
