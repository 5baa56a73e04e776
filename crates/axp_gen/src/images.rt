ghost use Rattle.std.specs.Prelude.{◌≡◌, ◌*◌, ◌≤◌, IfOk, length};
ghost use Rattle.axp_gen.specs.Litmus.{bytes_of, litmus_image, with_code, with_pointer, with_table};

use crate::programs::code_of;
use crate::shapes::Shape;
use axp_base::{Bytes, NoMemory};
use axp_image::{Image, KSEG};
use std::alloc::Global;

/// Where the code of every image stands, and where every processor starts.
const CODE_AT: u64 = 0x2000;

/// Where the data of the images without a page table stand.
const DATA_AT: u64 = 0x4000;

/// The bytes of instruction words, the lowest of each first.
#[tactic(auto, using(crate::proofs::ImageLemmas::all_length))]
fn code_bytes(alloc: Global, words: &[u32]) -> Result<Bytes, NoMemory>
    ensures value { IfOk result (λ bytes. bytes ≡ bytes_of words.now) }
    ensures length { IfOk result (λ bytes. length bytes ≡ 4 * length words.now) }
{
    let mut bytes = Bytes::empty(alloc);
    for word in words {
        bytes.append(alloc, &word.to_le_bytes())?;
    }
    Ok(bytes)
}

/// The image of this code in a memory of four pages.
fn with_code(alloc: Global, words: &[u32]) -> Result<Image, NoMemory>
    requires not_empty { 1 ≤ length words.now }
    requires within_a_page { length words.now ≤ 2048 }
    ensures { IfOk result (λ image. image ≡ with_code words.now) }
{
    let mut image = Image::start(alloc, 0x8000, KSEG + CODE_AT, KSEG + DATA_AT, 0)?;
    image.add(alloc, CODE_AT, code_bytes(alloc, words)?.as_slice())?;
    Ok(image)
}

/// The same with a pointer where the data begin, to a line of zeros.
#[tactic(auto, using(crate::proofs::ImageLemmas::code_ends))]
fn with_pointer(alloc: Global, words: &[u32]) -> Result<Image, NoMemory>
    requires not_empty { 1 ≤ length words.now }
    requires within_a_page { length words.now ≤ 2048 }
    ensures { IfOk result (λ image. image ≡ with_pointer words.now) }
{
    let mut image = with_code(alloc, words)?;
    let pointer = KSEG + DATA_AT + 0x80;
    image.add(alloc, DATA_AT, &pointer.to_le_bytes())?;
    Ok(image)
}

/// The image of this code in a memory of eight pages, with a page table that maps virtual page 1 to
/// page 7 for the kernel.
#[tactic(auto, using(crate::proofs::ImageLemmas::code_ends))]
fn with_table(alloc: Global, words: &[u32]) -> Result<Image, NoMemory>
    requires not_empty { 1 ≤ length words.now }
    requires within_a_page { length words.now ≤ 2048 }
    ensures { IfOk result (λ image. image ≡ with_table words.now) }
{
    let mut image = Image::start(alloc, 0x1_0000, KSEG + CODE_AT, KSEG + 0x8000, 3)?;
    image.add(alloc, CODE_AT, code_bytes(alloc, words)?.as_slice())?;
    // The levels of the page table stand in pages 3, 5 and 6.
    image.add(alloc, 0x6000, &0x0000_0005_0000_0001_u64.to_le_bytes())?;
    image.add(alloc, 0xA000, &0x0000_0006_0000_0001_u64.to_le_bytes())?;
    image.add(alloc, 0xC008, &0x0000_0007_0000_1111_u64.to_le_bytes())?;
    Ok(image)
}

/// The image of a shape: what each of its processors runs, and the memory that it starts with.
#[tactic(auto, unfolding(crate::specs::Litmus::litmus_image))]
pub fn litmus(alloc: Global, shape: Shape) -> Result<Image, NoMemory>
    ensures { IfOk result (λ image. image ≡ litmus_image shape) }
{
    let words = code_of(shape);
    match shape {
        Shape::Sb => with_code(alloc, words),
        Shape::Dl | Shape::Dm => with_pointer(alloc, words),
        Shape::Lock => with_table(alloc, words),
    }
}
