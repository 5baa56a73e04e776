//! The fields that lines have in common, both ways: words, processors, banks, lines of memory, turns
//! and entries, and the bytes that an access moves.
ghost use Rattle.std.specs.Prelude.{◌≡◌, ◌+◌, ◌≤◌, ◌<◌, ◌++◌, IsNone, IfSome, Some, map, length};
ghost use Rattle.arrayvec.specs.ArrayVec.{array_vec_len};
ghost use Rattle.axp_access.specs.Spelling.{IsTurn};
ghost use Rattle.axp_trace.specs.Digits.{number_of, hex_number_of};
ghost use Rattle.axp_trace.specs.Fields.{words_of, cpu_in, line_in, bank_in, data_bank_in, turn_in};
ghost use Rattle.axp_trace.specs.Fields.{entry_in, is_size, moved_in, data_in};
ghost use Rattle.axp_trace.specs.Lines.{bank_text, bank_number_text, address_text, turn_text};
ghost use Rattle.axp_trace.specs.Lines.{entry_text};
ghost use Rattle.axp_trace.specs.declared.digits.TheConstants.{ADDRESS_DIGITS};
ghost use Rattle.axp_trace.specs.declared.fields.TheConstants.{MOST_WORDS};
ghost use Rattle.axp_trace.specs.declared.lines.TheConstants.{LINE_ROOM};

use crate::LineText;
use crate::cuts::cut;
use crate::digits::{
    ADDRESS_DIGITS, push_all, push_decimal, push_hex, read_hex, read_number, read_within,
};
use arrayvec::ArrayVec;
use axp_base::{Bank, Cpu, Line, MAX_BUDGET};

/// The most words that a line has, or a part of it.
const MOST_WORDS: usize = 8;

/// The byte between two words.
pub(crate) const BLANK: u8 = b' ';

/// The greatest number that a line has in decimal.
pub(crate) const MOST_NUMBER: u64 = u32::MAX as u64;

/// The words of a line.
pub(crate) type Words<'a> = ArrayVec<&'a [u8], MOST_WORDS>;

/// The bytes that an access moves, or the number that it sends.
#[derive(Clone, Copy, Debug, PartialEq, Eq)]
pub(crate) struct Moved {
    /// The address; 0 where no memory is named.
    pub(crate) address: u64,
    /// How many bytes; 0 where no memory is named.
    pub(crate) size: u8,
    /// The bytes as a little-endian number, or the number.
    pub(crate) value: u64,
}

/// Appends a bank.
pub(crate) fn push_bank(out: &mut LineText, bank: Bank)
    requires { array_vec_len out.old + 2 ≤ LINE_ROOM }
    ensures text { out.new.items ≡ out.old.items ++ bank_text bank }
    ensures len { array_vec_len out.new ≤ array_vec_len out.old + 2 }
{
    match bank {
        Bank::Even => push_all(out, b"d0"),
        Bank::Odd => push_all(out, b"d1"),
        Bank::Code => push_all(out, b"i"),
    }
}

/// Appends the number of a data bank.
pub(crate) fn push_bank_number(out: &mut LineText, bank: Bank)
    requires { array_vec_len out.old + 1 ≤ LINE_ROOM }
    ensures text { out.new.items ≡ out.old.items ++ bank_number_text bank }
    ensures len { array_vec_len out.new ≤ array_vec_len out.old + 1 }
{
    match bank {
        Bank::Even => push_all(out, b"0"),
        Bank::Odd => push_all(out, b"1"),
        Bank::Code => {}
    }
}

/// Appends the address of a line's first byte.
pub(crate) fn push_address(out: &mut LineText, line: Line)
    requires { array_vec_len out.old + 8 ≤ LINE_ROOM }
    ensures text { out.new.items ≡ out.old.items ++ address_text line }
    ensures len { array_vec_len out.new ≡ array_vec_len out.old + 8 }
{
    push_hex(out, 8, line.address());
}

/// Appends the number of a turn, behind a blank.
#[tactic(auto, unfolding(crate::specs::Lines::turn_text))]
pub(crate) fn push_turn(out: &mut LineText, turn: u64)
    requires room { array_vec_len out.old + 12 ≤ LINE_ROOM }
    requires turn { IsTurn turn }
    ensures text { out.new.items ≡ out.old.items ++ turn_text turn }
    ensures len { array_vec_len out.new ≤ array_vec_len out.old + 12 }
{
    push_all(out, b" @");
    push_decimal(out, turn as u32);
}

/// Appends an entry of a write buffer.
pub(crate) fn push_entry(out: &mut LineText, number: u32)
    requires { array_vec_len out.old + 11 ≤ LINE_ROOM }
    ensures text { out.new.items ≡ out.old.items ++ entry_text number }
    ensures len { array_vec_len out.new ≤ array_vec_len out.old + 11 }
{
    push_all(out, b"e");
    push_decimal(out, number);
}

/// The words of a line, cut at each blank; `None` where it has more than any line has.
pub(crate) fn words(line: &[u8]) -> Option<Words<'_>>
    ensures value { IfSome result (λ w. map (λ x. x.now) w.items ≡ words_of line.now) }
    ensures none { IsNone result → MOST_WORDS < length (words_of line.now) }
{
    let mut words = ArrayVec::new();
    let mut rest = line;
    for _taken in 0..MOST_WORDS {
        let Some((word, more)) = cut(rest, BLANK) else {
            words.push(rest);
            return Some(words);
        };
        words.push(word);
        rest = more;
    }
    None
}

/// The processor that a word names.
pub(crate) fn guess_cpu(word: &[u8]) -> Option<Cpu>
    ensures { result ≡ cpu_in (number_of word.now) }
{
    let number = u8::try_from(read_number(word)?).ok()?;
    Cpu::new(number)
}

/// The line whose first byte has the address that a word names.
pub(crate) fn guess_line(word: &[u8]) -> Option<Line>
    ensures { result ≡ line_in (hex_number_of ADDRESS_DIGITS word.now) }
{
    let address = read_hex(word, ADDRESS_DIGITS)?;
    if address < 1 << 32 {
        Some(Line::of(address))
    } else {
        None
    }
}

/// The bank that a word names.
pub(crate) fn guess_bank(word: &[u8]) -> Option<Bank>
    ensures { result ≡ bank_in word.now }
{
    if word == b"d0" as &[u8] {
        Some(Bank::Even)
    } else if word == b"d1" as &[u8] {
        Some(Bank::Odd)
    } else if word == b"i" as &[u8] {
        Some(Bank::Code)
    } else {
        None
    }
}

/// The data bank of a number.
pub(crate) fn data_bank(number: u64) -> Option<Bank>
    ensures { result ≡ data_bank_in (Some number) }
{
    match number {
        0 => Some(Bank::Even),
        1 => Some(Bank::Odd),
        _ => None,
    }
}

/// The place or turn that a word names behind its first byte.
pub(crate) fn guess_turn(word: &[u8]) -> Option<u64>
    ensures { result ≡ turn_in word.now }
{
    let [_sign, digits @ ..] = word else {
        return None;
    };
    read_within(digits, 0, MOST_NUMBER)
}

/// The entry of a write buffer that a word names behind its first byte.
pub(crate) fn guess_entry(word: &[u8]) -> Option<u64>
    ensures { result ≡ entry_in word.now }
{
    let [_sign, digits @ ..] = word else {
        return None;
    };
    read_within(digits, 1, MAX_BUDGET as u64)
}

/// Whether an access may have so many bytes.
fn is_access_size(size: u64) -> bool
    ensures { result ≡ is_size size }
{
    size == 1 || size == 2 || size == 4 || size == 8
}

/// The bytes that the words of an address and a value name, the value with two digits for each of
/// `size` bytes; `None` where they do not lie at a multiple of their number.
pub(crate) fn guess_moved(address: &[u8], size: u64, value: &[u8]) -> Option<Moved>
    ensures { result ≡ moved_in (hex_number_of ADDRESS_DIGITS address.now) (Some size) value.now }
{
    let address = read_hex(address, ADDRESS_DIGITS)?;
    if !is_access_size(size) || address % size != 0 {
        return None;
    }
    let value = read_hex(value, 2 * size as usize)?;
    Some(Moved {
        address,
        size: size as u8,
        value,
    })
}

/// The bytes that the words of an address, a size and a value name.
pub(crate) fn guess_data(address: &[u8], size: &[u8], value: &[u8]) -> Option<Moved>
    ensures { result ≡ data_in address.now size.now value.now }
{
    let size = read_number(size)?;
    guess_moved(address, size, value)
}
