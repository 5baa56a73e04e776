//! A line for a person, put together.
ghost use Rattle.std.specs.Prelude.{◌≡◌, decimal, IfOk};
ghost use Rattle.std.specs.List.{flat_map};
ghost use Rattle.axp_trace.specs.Digits.{hex};
ghost use Rattle.axp_explain.specs.Texts.{of_file, of_line};

use axp_base::{Bytes, NoMemory};
use axp_trace::write_value;
use itoa::Buffer;
use std::alloc::Global;

/// Pieces of text one behind the other.
pub fn joined(alloc: Global, pieces: &[&[u8]]) -> Result<Bytes, NoMemory>
    ensures { IfOk result (λ text. text ≡ flat_map (λ p. p.now) pieces.now) }
{
    let mut text = Bytes::empty(alloc);
    for piece in pieces {
        text.append(alloc, piece)?;
    }
    Ok(text)
}

/// A number in decimal.
pub fn decimal(alloc: Global, number: u64) -> Result<Bytes, NoMemory>
    ensures { IfOk result (λ text. text ≡ decimal number) }
{
    let mut buffer = Buffer::new();
    Bytes::copy(alloc, buffer.format(number).as_bytes())
}

/// A number of 64 bits in 16 hexadecimal digits.
pub fn hex(alloc: Global, number: u64) -> Result<Bytes, NoMemory>
    ensures { IfOk result (λ text. text ≡ hex 16 number) }
{
    Bytes::copy(alloc, write_value(number).as_slice())
}

/// The line for a person of a file.
#[tactic(auto, unfolding(crate::specs::Texts::of_file))]
pub fn of_file(alloc: Global, path: &str, words: &[u8]) -> Result<Bytes, NoMemory>
    ensures { IfOk result (λ text. text ≡ of_file path.now words.now) }
{
    joined(alloc, &[b"axp: ", path.as_bytes(), b": ", words, b"\n"])
}

/// The line for a person of a line of a file, counted from 1.
#[tactic(auto, unfolding(crate::specs::Texts::of_line))]
pub fn of_line(alloc: Global, path: &str, line: u64, words: &[u8]) -> Result<Bytes, NoMemory>
    ensures { IfOk result (λ text. text ≡ of_line path.now line words.now) }
{
    let number = decimal(alloc, line)?;
    joined(
        alloc,
        &[
            b"axp: ",
            path.as_bytes(),
            b", line ",
            number.as_slice(),
            b": ",
            words,
            b"\n",
        ],
    )
}
