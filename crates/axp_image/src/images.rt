ghost use Rattle.std.specs.Prelude.{◌≡◌, ◌+◌, ◌-◌, ◌/◌, ◌%◌, ◌<◌, ◌≤◌, [], Some, length};
ghost use Rattle.std.specs.Prelude.{slice_get, slice_index, IfOk, OnOk, OnErr};
ghost use Rattle.axp_image.specs.Contents.{IsValid, byte_in, contents, covers, segment_of};
ghost use Rattle.axp_image.specs.Contents.{last_end, with_segment};
ghost use Rattle.axp_image.specs.declared.limits.TheConstants.{PAGE_BYTES, MAX_MEMORY, KSEG};
ghost use Rattle.axp_image.specs.declared.limits.TheConstants.{MAX_SEGMENTS, INSTRUCTION_BYTES};

use crate::limits::MAX_SEGMENTS;
use axp_base::{Bytes, NoMemory};
use std::alloc::Global;
use std::marker::Model;

/// Bytes that stand in memory from an address on.
#[derive(Debug, Drop)]
pub(crate) struct Segment {
    address: u64,
    bytes: Bytes,
}

impl Model for Segment {
    ghost use Rattle.axp_image.specs.Contents as seen;

    ghost Value = { seen.Segment };

    ghost view = { λ s. seen.segment_of s.address s.bytes };
}

impl Segment {
    /// The segment of these bytes at this address.
    pub(crate) fn new(address: u64, bytes: Bytes) -> Segment
        ensures { result ≡ segment_of address bytes }
    {
        Segment { address, bytes }
    }

    /// A copy of the segment.
    fn copy(&self, alloc: Global) -> Result<Segment, NoMemory>
        ensures { IfOk result (λ segment. segment ≡ self.now) }
    {
        let bytes = Bytes::copy(alloc, self.bytes.as_slice())?;
        Ok(Segment {
            address: self.address,
            bytes,
        })
    }

    /// The address of the first byte.
    fn address(&self) -> u64
        ensures { result ≡ self.now.address }
    {
        self.address
    }

    /// The bytes.
    fn bytes(&self) -> &[u8]
        ensures { result.now ≡ self.now.bytes }
    {
        self.bytes.as_slice()
    }

    /// Whether the segment has the byte at this address.
    fn covers(&self, address: u64) -> bool
        ensures { result ≡ covers self.now address }
    {
        self.address <= address && address - self.address < self.bytes.as_slice().len() as u64
    }
}

/// What an image says: the size of memory, the entry address, the stack word, the page of the page
/// table, and the segments. Bytes of memory in no segment are 0.
#[derive(Debug, Drop)]
pub struct Image {
    size: u64,
    entry: u64,
    stack: u64,
    table: u64,
    segments: Vec<Segment>,
}

impl Model for Image {
    ghost use Rattle.axp_image.specs.Contents.{Contents};

    ghost Value = { Contents };

    ghost use Rattle.axp_image.specs.Seen.{contents_of, IsSound};

    ghost view = { contents_of };

    ghost invariant = { IsSound };
}

impl Image {
    /// The image that says this.
    pub(crate) fn new(
        size: u64,
        entry: u64,
        stack: u64,
        table: u64,
        segments: Vec<Segment>,
    ) -> Image
        requires { IsValid (contents size entry stack table segments.items) }
        ensures { result ≡ contents size entry stack table segments.items }
    {
        Image {
            size,
            entry,
            stack,
            table,
            segments,
        }
    }

    /// An image with these four numbers and no segment. `docs/FORMATS.md` has the limits under "The
    /// image file".
    pub fn start(
        alloc: Global,
        size: u64,
        entry: u64,
        stack: u64,
        table: u64,
    ) -> Result<Image, NoMemory>
        requires whole_pages { size % PAGE_BYTES ≡ 0 }
        requires least_size { PAGE_BYTES ≤ size }
        requires most_size { size ≤ MAX_MEMORY }
        requires entry_aligned { entry % INSTRUCTION_BYTES ≡ 0 }
        requires least_entry { KSEG ≤ entry }
        requires most_entry { entry ≤ KSEG + size - INSTRUCTION_BYTES }
        requires table_page { table < size / PAGE_BYTES }
        ensures value { IfOk result (λ image. image ≡ contents size entry stack table []) }
    {
        // So a segment that is added takes no memory but that of its bytes.
        let segments = Vec::with_capacity(alloc, MAX_SEGMENTS as usize)?;
        Ok(Image::new(size, entry, stack, table, segments))
    }

    /// Puts a segment of these bytes behind the last; after want of memory the image is as before.
    pub fn add(&mut self, alloc: Global, address: u64, bytes: &[u8]) -> Result<(), NoMemory>
        requires room { length self.old.segments < MAX_SEGMENTS }
        requires not_empty { 1 ≤ length bytes.now }
        requires behind { last_end self.old.segments ≤ address }
        requires within { address + length bytes.now ≤ self.old.size }
        ensures ok { OnOk result (self.new ≡ with_segment self.old (segment_of address bytes.now)) }
        ensures err { OnErr result (self.new ≡ self.old) }
    {
        let bytes = Bytes::copy(alloc, bytes)?;
        self.segments.push(Segment::new(address, bytes))?;
        Ok(())
    }

    /// A copy of the image.
    pub fn copy(&self, alloc: Global) -> Result<Image, NoMemory>
        ensures value { IfOk result (λ image. image ≡ self.now) }
        ensures valid { OnOk result (IsValid self.now) }
    {
        let mut segments = Vec::with_capacity(alloc, self.segments.len())?;
        for segment in &self.segments {
            segments.push(segment.copy(alloc)?)?;
        }
        Ok(Image {
            size: self.size,
            entry: self.entry,
            stack: self.stack,
            table: self.table,
            segments,
        })
    }

    /// The size of memory in bytes, a whole number of pages from 8,192 to 16,777,216.
    pub fn size(&self) -> u64
        ensures value { result ≡ self.now.size }
        ensures valid { IsValid self.now }
    {
        self.size
    }

    /// The address at which every processor starts.
    pub fn entry(&self) -> u64
        ensures value { result ≡ self.now.entry }
        ensures valid { IsValid self.now }
    {
        self.entry
    }

    /// What every processor's stack pointer holds at the start.
    pub fn stack(&self) -> u64
        ensures value { result ≡ self.now.stack }
        ensures valid { IsValid self.now }
    {
        self.stack
    }

    /// The page of memory on which the page table begins.
    pub fn table(&self) -> u64
        ensures value { result ≡ self.now.table }
        ensures valid { IsValid self.now }
    {
        self.table
    }

    /// The byte that memory holds at this physical address at the start.
    pub fn byte(&self, address: u64) -> u8
        requires { address < self.now.size }
        ensures { result ≡ byte_in self.now.segments address }
    {
        for segment in &self.segments {
            if segment.covers(address) {
                return segment.bytes()[(address - segment.address()) as usize];
            }
        }
        0
    }

    /// The number of segments, at most 64.
    pub fn segments(&self) -> u32
        ensures value { result ≡ length self.now.segments }
        ensures valid { IsValid self.now }
    {
        self.segments.len() as u32
    }

    /// The address and the bytes of segment `n`, counted from 0 in order of address.
    pub fn segment(&self, n: u32) -> (u64, &[u8])
        requires { n < length self.now.segments }
        ensures value { slice_get self.now.segments n ≡ Some (segment_of result.0 result.1.now) }
        ensures within { result.0 + length result.1.now ≤ self.now.size }
        ensures valid { IsValid self.now }
    {
        let segment = &self.segments[n as usize];
        (segment.address(), segment.bytes())
    }
}
