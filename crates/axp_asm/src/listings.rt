//! The listing of an image.
ghost use Rattle.std.specs.Prelude.{◌≡◌, ◌+◌, ◌*◌, ◌≤◌, ◌∷◌, [], ◌++◌, ◌<◌, ◌^◌, OnOk, IfOk, Ok, length, map};
ghost use Rattle.std.specs.List.{flat_map};
ghost use Rattle.axp_image.specs.Contents.{segment_of};
ghost use Rattle.axp_trace.specs.declared.lines.TheConstants.{LINE_ROOM};
ghost use Rattle.axp_source.specs.Items.{Directs};
ghost use Rattle.axp_asm.specs.declared.layout.TheConstants.{MAX_SOURCE};
ghost use Rattle.axp_asm.specs.Listings.{byte_listed, head_listed, line_of, listing};
ghost use Rattle.axp_asm.specs.Listings.{segment_listed, word_listed, words_listed};
ghost use Rattle.axp_asm.specs.Sources.{assembled};

use axp_base::{Bytes, NoMemory};
use axp_decode::decode;
use axp_image::{INSTRUCTION_BYTES, Image};
use axp_source::{Directive, write_directive, write_instruction};
use axp_trace::{LINE_FEED, LineText};
use std::alloc::Global;

/// Appends a line.
fn push_line(out: &mut Bytes, alloc: Global, line: &LineText) -> Result<(), NoMemory>
    ensures text { OnOk result (out.new ≡ out.old ++ (line.now.items ++ LINE_FEED ∷ [])) }
    ensures short { OnOk result (length out.new ≤ length out.old + (LINE_ROOM + 1)) }
{
    out.append(alloc, line.as_slice())?;
    out.append(alloc, &[LINE_FEED])
}

/// Appends the line of a directive.
fn push_directive(out: &mut Bytes, alloc: Global, directive: Directive) -> Result<(), NoMemory>
    ensures text { OnOk result (out.new ≡ out.old ++ line_of (Directs directive)) }
    ensures short { OnOk result (length out.new ≤ length out.old + (LINE_ROOM + 1)) }
{
    push_line(out, alloc, &write_directive(directive))
}

/// Appends the line of a word.
fn push_word(out: &mut Bytes, alloc: Global, word: u32) -> Result<(), NoMemory>
    ensures text { OnOk result (out.new ≡ out.old ++ line_of (word_listed word)) }
    ensures short { OnOk result (length out.new ≤ length out.old + (LINE_ROOM + 1)) }
{
    match write_instruction(decode(word)) {
        Some(line) => push_line(out, alloc, &line),
        None => push_directive(out, alloc, Directive::Word(word)),
    }
}

/// Appends the lines of words.
fn push_words(out: &mut Bytes, alloc: Global, bytes: &[u8]) -> Result<(), NoMemory>
    ensures text { OnOk result (out.new ≡ out.old ++ flat_map line_of (words_listed bytes.now)) }
    ensures short { OnOk result
        (4 * length out.new ≤ 4 * length out.old + (LINE_ROOM + 1) * length bytes.now) }
{
    let mut rest = bytes;
    while let [a, b, c, d, more @ ..] = rest {
        push_word(out, alloc, u32::from_le_bytes([*a, *b, *c, *d]))?;
        rest = more;
    }
    Ok(())
}

/// Appends the lines of bytes.
fn push_bytes(out: &mut Bytes, alloc: Global, bytes: &[u8]) -> Result<(), NoMemory>
    ensures text { OnOk result (out.new ≡ out.old ++ flat_map line_of (map byte_listed bytes.now)) }
    ensures short { OnOk result (length out.new ≡ length out.old + 9 * length bytes.now) }
{
    for byte in bytes {
        push_directive(out, alloc, Directive::Byte(*byte))?;
    }
    Ok(())
}

/// Appends the lines of a segment.
fn push_segment(out: &mut Bytes, alloc: Global, address: u64, bytes: &[u8]) -> Result<(), NoMemory>
    requires { address < 2 ^ 32 }
    ensures text { OnOk result
        (out.new ≡ out.old ++ flat_map line_of (segment_listed (segment_of address bytes.now))) }
    ensures short { OnOk result
        (length out.new ≤ length out.old + (LINE_ROOM + 1) + 25 * length bytes.now) }
{
    push_directive(out, alloc, Directive::At(address as u32))?;
    if address % INSTRUCTION_BYTES == 0 && bytes.len() as u64 % INSTRUCTION_BYTES == 0 {
        push_words(out, alloc, bytes)
    } else {
        push_bytes(out, alloc, bytes)
    }
}

/// Appends the first four lines.
fn push_head(out: &mut Bytes, alloc: Global, image: &Image) -> Result<(), NoMemory>
    ensures text { OnOk result (out.new ≡ out.old ++ flat_map line_of (head_listed image.now)) }
    ensures short { OnOk result (length out.new ≤ length out.old + 4 * (LINE_ROOM + 1)) }
{
    push_directive(out, alloc, Directive::Memory(image.size()))?;
    push_directive(out, alloc, Directive::Entry(image.entry()))?;
    push_directive(out, alloc, Directive::Stack(image.stack()))?;
    push_directive(out, alloc, Directive::Table(image.table()))
}

/// The listing of an image: the source that gives it, with a line for each instruction and no
/// labels (`docs/FORMATS.md`, "Assembler source"). It is never too long for one.
#[tactic(auto, unfolding(crate::specs::Listings::listing))]
pub fn listing(alloc: Global, image: &Image) -> Result<Bytes, NoMemory>
    ensures text { IfOk result (λ text. text ≡ listing image.now) }
    ensures assembled { IfOk result (λ text. assembled text ≡ Ok image.now) }
    ensures short { IfOk result (λ text. length text ≤ MAX_SOURCE) }
{
    let mut out = Bytes::empty(alloc);
    push_head(&mut out, alloc, image)?;
    for n in 0..image.segments() {
        let (address, bytes) = image.segment(n);
        push_segment(&mut out, alloc, address, bytes)?;
    }
    Ok(out)
}
