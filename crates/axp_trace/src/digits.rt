ghost use Rattle.std.specs.Prelude.{ℕ, ◌≡◌, ◌+◌, ◌*◌, ◌^◌, ◌≤◌, ◌<◌, ◌++◌, length, decimal, Some};
ghost use Rattle.arrayvec.specs.ArrayVec.{array_vec_len};
ghost use Rattle.axp_trace.specs.Digits.{hex, hex_digit, hex_digit_value, hex_value, number_of};
ghost use Rattle.axp_trace.specs.Digits.{hex_number_of, within, number_within};
ghost use Rattle.axp_trace.specs.declared.lines.TheConstants.{LINE_ROOM};
ghost use Rattle.axp_trace.specs.declared.digits.TheConstants.{MOST_DIGITS, VALUE_DIGITS};
ghost use Rattle.axp_trace.specs.declared.digits.TheConstants.{LONG_DIGITS};

use crate::{LINE_ROOM, LineText};
use itoa::Buffer;

/// The most digits of a number below 2 ^ 32.
const MOST_DIGITS: usize = 10;

/// The hexadecimal digits of an address.
pub(crate) const ADDRESS_DIGITS: usize = 8;

/// The hexadecimal digits of a number of 64 bits.
pub(crate) const VALUE_DIGITS: usize = 16;

/// The most decimal digits of a number of 64 bits.
const LONG_DIGITS: usize = 20;

/// Appends bytes.
pub(crate) fn push_all(out: &mut LineText, bytes: &[u8])
    requires { array_vec_len out.old + length bytes.now ≤ LINE_ROOM }
    ensures text { out.new.items ≡ out.old.items ++ bytes.now }
    ensures len { array_vec_len out.new ≡ array_vec_len out.old + length bytes.now }
{
    out.try_extend_from_slice(bytes).unwrap();
}

/// Appends a number in decimal.
#[tactic(auto, using(crate::proofs::DigitLemmas::short_decimal))]
pub(crate) fn push_decimal(out: &mut LineText, n: u32)
    requires { array_vec_len out.old + MOST_DIGITS ≤ LINE_ROOM }
    ensures text { out.new.items ≡ out.old.items ++ decimal n }
    ensures len { array_vec_len out.new ≤ array_vec_len out.old + MOST_DIGITS }
{
    let mut buffer = Buffer::new();
    push_all(out, buffer.format(n).as_bytes());
}

/// Appends a number of 64 bits in decimal.
#[tactic(auto, using(crate::proofs::DigitLemmas::short_long))]
pub(crate) fn push_long(out: &mut LineText, n: u64)
    requires { array_vec_len out.old + LONG_DIGITS ≤ LINE_ROOM }
    ensures text { out.new.items ≡ out.old.items ++ decimal n }
    ensures len { array_vec_len out.new ≤ array_vec_len out.old + LONG_DIGITS }
{
    let mut buffer = Buffer::new();
    push_all(out, buffer.format(n).as_bytes());
}

/// Appends a number below 256 in decimal.
#[tactic(auto, using(crate::proofs::DigitLemmas::short_byte))]
pub(crate) fn push_byte(out: &mut LineText, n: u8)
    requires { array_vec_len out.old + 3 ≤ LINE_ROOM }
    ensures text { out.new.items ≡ out.old.items ++ decimal n }
    ensures len { array_vec_len out.new ≤ array_vec_len out.old + 3 }
{
    let mut buffer = Buffer::new();
    push_all(out, buffer.format(n).as_bytes());
}

/// One hexadecimal digit in upper case.
fn digit(d: u8) -> u8
    requires { d < 16 }
    ensures { result ≡ hex_digit d }
{
    if d < 10 { b'0' + d } else { b'A' - 10 + d }
}

/// Appends the lowest hexadecimal digits of a number, the highest first.
pub(crate) fn push_hex(out: &mut LineText, digits: u8, n: u64)
    requires room { array_vec_len out.old + digits ≤ LINE_ROOM }
    requires few { digits ≤ 16 }
    ensures text { out.new.items ≡ out.old.items ++ hex digits n }
    ensures len { array_vec_len out.new ≡ array_vec_len out.old + digits }
{
    for k in (0..digits).rev() {
        out.push(digit(((n >> (4 * k)) % 16) as u8));
    }
}

/// The 16 digits of a number of 64 bits in hexadecimal, as the lines of a trace have them.
pub fn write_value(n: u64) -> LineText
    ensures { result.items ≡ hex VALUE_DIGITS n }
{
    let mut out = LineText::new();
    push_hex(&mut out, VALUE_DIGITS as u8, n);
    out
}

/// The number that a word stands for if its bytes are decimal digits; `None` where it has more than
/// [`MOST_DIGITS`].
pub(crate) fn read_number(word: &[u8]) -> Option<u64>
    ensures { result ≡ number_of word.now }
{
    if word.len() > MOST_DIGITS {
        return None;
    }
    let mut value: u64 = 0;
    for byte in word {
        value = value * 10 + byte.saturating_sub(b'0') as u64;
    }
    Some(value)
}

/// The number, where it is from `least` to `most`.
fn within_limits(number: u64, least: u64, most: u64) -> Option<u64>
    ensures { result ≡ within least most (Some number) }
{
    if (least..=most).contains(&number) {
        Some(number)
    } else {
        None
    }
}

/// The number from `least` to `most` that a word stands for if its bytes are decimal digits; `None`
/// where there is none.
pub(crate) fn read_within(word: &[u8], least: u64, most: u64) -> Option<u64>
    ensures { result ≡ number_within least most word.now }
{
    within_limits(read_number(word)?, least, most)
}

/// What a hexadecimal digit in upper case stands for; for another byte some number below 16.
fn digit_value(byte: u8) -> u8
    ensures { result ≡ hex_digit_value byte }
{
    let value = if byte < b'A' {
        byte.saturating_sub(b'0')
    } else {
        byte - (b'A' - 10)
    };
    value % 16
}

/// The number that a word stands for if its bytes are hexadecimal digits; `None` where it has more
/// than `most`.
pub(crate) fn read_hex(word: &[u8], most: usize) -> Option<u64>
    requires { most ≤ VALUE_DIGITS }
    ensures { result ≡ hex_number_of most word.now }
{
    if word.len() > most {
        return None;
    }
    let mut value: u64 = 0;
    for byte in word {
        value = value * 16 + digit_value(*byte) as u64;
    }
    Some(value)
}

/// Hexadecimal digits are as many as are asked for, and give their number back.
pub fn hex_gives_back()
    ensures width { (k n : ℕ) → length (hex k n) ≡ k }
    ensures value { (k n : ℕ) → n < 2 ^ (4 * k) → hex_value (hex k n) ≡ n }
{}

/// A number below 2 ^ 32 in decimal gives itself back.
pub fn decimal_gives_back()
    ensures { (n : ℕ) → n < 2 ^ 32 → number_of (decimal n) ≡ Some n }
{}
