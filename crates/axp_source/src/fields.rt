//! The fields of a line, both ways. What a word would mean is guessed without regard to its
//! spelling, and is always in the range of its field: the whole line is spelled again and compared.
ghost use Rattle.std.specs.Prelude.{◌≡◌, ◌+◌, ◌*◌, ◌≤◌, ◌<◌, ◌^◌, ◌++◌};
ghost use Rattle.std.specs.Char.{is_ascii_alphanumeric};
ghost use Rattle.std.specs.List.{list_all};
ghost use Rattle.arrayvec.specs.ArrayVec.{array_vec_len};
ghost use Rattle.axp_trace.specs.declared.lines.TheConstants.{LINE_ROOM};
ghost use Rattle.axp_source.specs.Fields.{begins, register_in, signed_in, operand_in};
ghost use Rattle.axp_source.specs.Items.{begins_with_letter, is_label};
ghost use Rattle.axp_source.specs.Texts.{register_text, signed_text, operand_text};
ghost use Rattle.axp_source.specs.declared.numbers.TheConstants.{BRANCH_HALF};

use crate::numbers::{BRANCH_HALF, number_in, push_all, push_byte, push_decimal};
use axp_decode::Operand;
use axp_trace::LineText;

/// Appends a register.
pub(crate) fn push_register(out: &mut LineText, number: u8)
    requires { array_vec_len out.old + 4 ≤ LINE_ROOM }
    ensures text { out.new.items ≡ out.old.items ++ register_text number }
    ensures len { array_vec_len out.new ≤ array_vec_len out.old + 4 }
{
    push_all(out, b"R");
    push_byte(out, number);
}

/// Appends a displacement, whose bits stand for a negative number from `half` on.
pub(crate) fn push_signed(out: &mut LineText, half: u32, bits: u32)
    requires room { array_vec_len out.old + 21 ≤ LINE_ROOM }
    requires half { half ≤ BRANCH_HALF }
    ensures text { out.new.items ≡ out.old.items ++ signed_text half bits }
    ensures len { array_vec_len out.new ≤ array_vec_len out.old + 21 }
{
    if bits < half {
        push_decimal(out, bits as u64);
    } else {
        push_all(out, b"-");
        push_decimal(out, (2 * half).saturating_sub(bits) as u64);
    }
}

/// Appends the second operand of the operate format; a register without its pad.
pub(crate) fn push_operand(out: &mut LineText, operand: Operand)
    requires { array_vec_len out.old + 4 ≤ LINE_ROOM }
    ensures text { out.new.items ≡ out.old.items ++ operand_text operand }
    ensures len { array_vec_len out.new ≤ array_vec_len out.old + 4 }
{
    match operand {
        Operand::Reg { n, pad: _ } => push_register(out, n),
        Operand::Literal { value } => {
            push_all(out, b"#");
            push_byte(out, value);
        }
    }
}

/// Whether a word begins with this byte.
pub(crate) fn begins(word: &[u8], byte: u8) -> bool
    ensures { result ≡ begins byte word.now }
{
    match word {
        [first, ..] => *first == byte,
        [] => false,
    }
}

/// Whether the first byte of a word is a letter.
fn begins_with_letter(word: &[u8]) -> bool
    ensures { result ≡ begins_with_letter word.now }
{
    match word {
        [first, ..] => first.is_ascii_alphabetic(),
        [] => false,
    }
}

/// Whether the bytes of a word are letters and digits.
fn is_alphanumeric(word: &[u8]) -> bool
    ensures { result ≡ list_all is_ascii_alphanumeric word.now }
{
    word.iter().all(|b| b.is_ascii_alphanumeric())
}

/// Whether a word is a label: letters and digits, the first a letter.
pub(crate) fn is_label(word: &[u8]) -> bool
    ensures { result ≡ is_label word.now }
{
    begins_with_letter(word) && is_alphanumeric(word)
}

/// The register that a word names.
pub(crate) fn guess_register(word: &[u8]) -> u8
    ensures value { result ≡ register_in word.now }
    ensures fits { result < 2 ^ 5 }
{
    (number_in(word) % 32) as u8
}

/// The bits of the displacement that a word names.
pub(crate) fn guess_signed(word: &[u8], half: u32) -> u32
    requires some { 0 < half }
    requires half { half ≤ BRANCH_HALF }
    ensures value { result ≡ signed_in half word.now }
    ensures fits { result < 2 * half }
{
    let range = 2 * half as u64;
    let number = number_in(word) % range;
    if begins(word, b'-') {
        ((range - number) % range) as u32
    } else {
        number as u32
    }
}

/// The second operand of the operate format that a word names.
pub(crate) fn guess_operand(word: &[u8]) -> Operand
    ensures { result ≡ operand_in word.now }
{
    if begins(word, b'#') {
        Operand::Literal {
            value: (number_in(word) % 256) as u8,
        }
    } else {
        Operand::Reg {
            n: guess_register(word),
            pad: 0,
        }
    }
}
