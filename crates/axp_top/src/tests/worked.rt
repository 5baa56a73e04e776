//! How a list of events that was worked out by hand from the rules of the machine is tried.
use super::{gives, replayed};
use crate::Status;
use std::alloc::Global;
use std::test::Fail;

/// What an image has beside the program, which stands at 0x2000, where every processor starts.
#[derive(Drop)]
pub struct Layout {
    /// The size of memory in bytes.
    pub size: u64,
    /// The same, as a header has it.
    pub printed_size: &'static str,
    /// The physical address of the stack.
    pub stack: u64,
    /// The page of the page table.
    pub table: u64,
    /// Quadwords behind the program, by ascending address: each one's address and value.
    pub quadwords: &'static [(u64, u64)],
}

/// Four pages of memory that have the program alone.
pub const PLAIN: Layout = Layout {
    size: 0x8000,
    printed_size: "32768",
    stack: 0x4000,
    table: 0,
    quadwords: &[],
};

/// A list of events over an image, and what is printed of it.
#[derive(Drop)]
pub struct Worked<'a> {
    /// The image's program.
    pub words: &'static [u32],
    /// The rest of the image.
    pub layout: &'a Layout,
    /// The budget of each processor's steps, as a header has it.
    pub budget: &'static str,
    /// The first lines behind the header, which other lists may share; each begins with its event.
    pub start: &'static str,
    /// The lines behind these, to the end.
    pub rest: &'static str,
    /// The lines of the list behind the events that are printed.
    pub more: &'static str,
    pub status: Status,
}

/// Whether what is printed of a list is what was worked out.
pub fn holds(alloc: Global, worked: &Worked) -> Result<bool, Fail> {
    let image = image(alloc, worked.words, worked.layout)?;
    let events = events(alloc, worked)?;
    let text = text(alloc, worked)?;
    let call = replayed(worked.status, 2);
    gives(
        alloc,
        &call,
        image.as_slice(),
        events.as_slice(),
        text.as_slice(),
    )
}

/// The image file: a segment with the program, and one with each quadword.
pub(super) fn image(alloc: Global, words: &[u32], layout: &Layout) -> Result<Vec<u8>, Fail> {
    let quadwords = layout.quadwords;
    let mut file = Vec::new(alloc);
    let segments = (quadwords.len() as u64).wrapping_add(1).to_le_bytes();
    file.extend_from_slice(&[0x41, 0x58, 0x50, 0x49, 1, 0, segments[0], segments[1]])?;
    file.extend_from_slice(&layout.size.to_le_bytes())?;
    file.extend_from_slice(&0xFFFF_FC00_0000_2000_u64.to_le_bytes())?;
    file.extend_from_slice(&(0xFFFF_FC00_0000_0000 | layout.stack).to_le_bytes())?;
    file.extend_from_slice(&layout.table.to_le_bytes())?;
    file.extend_from_slice(&0x2000_u64.to_le_bytes())?;
    file.extend_from_slice(&(words.len() as u64).wrapping_mul(4).to_le_bytes())?;
    for (address, _) in quadwords {
        file.extend_from_slice(&address.to_le_bytes())?;
        file.extend_from_slice(&8_u64.to_le_bytes())?;
    }
    for word in words {
        file.extend_from_slice(&word.to_le_bytes())?;
    }
    for (_, value) in quadwords {
        file.extend_from_slice(&value.to_le_bytes())?;
    }
    Ok(file)
}

/// The event list: the events of the text's lines, and those behind them.
fn events(alloc: Global, worked: &Worked) -> Result<Vec<u8>, Fail> {
    let mut list = Vec::new(alloc);
    list.extend_from_slice(b"axp-events 1 cpus 2 budget ")?;
    list.extend_from_slice(worked.budget.as_bytes())?;
    list.extend_from_slice(b"\n")?;
    for part in [worked.start, worked.rest] {
        for line in part.lines() {
            if let Some((event, _)) = line.split_once(" : ") {
                list.extend_from_slice(event.as_bytes())?;
                list.extend_from_slice(b"\n")?;
            }
        }
    }
    list.extend_from_slice(worked.more.as_bytes())?;
    Ok(list)
}

/// The whole text.
pub(super) fn text(alloc: Global, worked: &Worked) -> Result<Vec<u8>, Fail> {
    let mut text = Vec::new(alloc);
    text.extend_from_slice(b"axp-trace 1 cpus 2 budget ")?;
    text.extend_from_slice(worked.budget.as_bytes())?;
    text.extend_from_slice(b" memory ")?;
    text.extend_from_slice(worked.layout.printed_size.as_bytes())?;
    text.extend_from_slice(b"\n")?;
    text.extend_from_slice(worked.start.as_bytes())?;
    text.extend_from_slice(worked.rest.as_bytes())?;
    Ok(text)
}
