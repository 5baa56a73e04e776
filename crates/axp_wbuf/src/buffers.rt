ghost use Rattle.std.specs.Prelude.{◌≡◌, ◌+◌, ◌^◌, ◌/◌, ◌%◌, ◌<◌, ◌≤◌, ◌==◌, ◌↔◌, true, length};
ghost use Rattle.std.specs.Prelude.{Some, slice_get, IfOk, IsOk, OnErr, OnOk};
ghost use Rattle.std.specs.List.{list_any};
ghost use Rattle.axp_base.specs.Lines.{line_number};
ghost use Rattle.axp_base.specs.Masks.{IsSize, mask_bits};
ghost use Rattle.axp_base.specs.declared.lines.TheConstants.{LINE_BYTES};
ghost use Rattle.axp_line.specs.Lines.{bytes_of_line};
ghost use Rattle.axp_wbuf.specs.Drains.{oldest_group, told, without};
ghost use Rattle.axp_wbuf.specs.Pending.{IsTidy, closed, is_before, is_numbered, is_of_line};
ghost use Rattle.axp_wbuf.specs.Pending.{no_entries, overlaid, store_number, stored, takes};

use crate::lists::{
    Entries, any_before, any_numbered, any_of_line, append, has_place, has_room, merge_into,
    newest_after, oldest_count, overlay_each, remove_at,
};
use arrayvec::ArrayVec;
use axp_base::{Line, Mask};
use axp_line::LineData;
use std::marker::Model;

/// The newest group has no entry of the line, and there is no room for one.
#[derive(Clone, Copy, Debug, PartialEq, Eq)]
pub struct Full;

/// A processor's write buffer: at most [`crate::WBUF_ENTRIES`] entries in groups. Stores merge into
/// the entries of the newest group, and the entries of the oldest group may leave, in any order.
#[derive(Debug, Drop)]
pub struct Wbuf {
    entries: Entries,
    made: u32,
    newest: u32,
}

impl Model for Wbuf {
    ghost use Rattle.axp_wbuf.specs.Pending.{Buffer, IsTidy};

    ghost Value = { Buffer };

    ghost use Rattle.axp_wbuf.specs.Views.{buffer_of};

    ghost view = { λ b. buffer_of b.entries.items b.made b.newest };

    ghost invariant = { λ b. IsTidy (buffer_of b.entries.items b.made b.newest) };
}

impl Wbuf {
    /// A buffer that keeps no entry and has made none.
    pub fn empty() -> Wbuf
        ensures { result ≡ no_entries }
    {
        Wbuf {
            entries: ArrayVec::new(),
            made: 0,
            newest: 0,
        }
    }

    /// Puts the low `size` bytes of a value into the newest group's entry of the address's line, or
    /// into a new entry where there is none, and gives the entry's number. [`Full`] exactly where
    /// there is none and [`crate::WBUF_ENTRIES`] entries are kept; nothing changes then.
    pub fn store(&mut self, address: u64, size: u8, value: u64) -> Result<u32, Full>
        requires sized { IsSize size }
        requires aligned { address % size ≡ 0 }
        requires few_made { self.old.made + 1 < 2 ^ 32 }
        ensures taken { IsOk result ↔ (takes (address / LINE_BYTES) self.old ≡ true) }
        ensures unchanged { OnErr result (self.new ≡ self.old) }
        ensures number { IfOk result (λ n. n ≡ store_number (address / LINE_BYTES) self.old) }
        ensures stored { OnOk result (self.new ≡ stored address size value self.old) }
        ensures one_more { self.new.made ≤ self.old.made + 1 }
    {
        match merge_into(
            self.entries.as_mut_slice(),
            self.newest,
            address,
            size,
            value,
        ) {
            Some(number) => Ok(number),
            None => {
                if !has_room(&self.entries) {
                    return Err(Full);
                }
                Ok(append(
                    &mut self.entries,
                    &mut self.made,
                    self.newest,
                    address,
                    size,
                    value,
                ))
            }
        }
    }

    /// Whether there is room for a store to this line: the newest group has an entry of it, or one
    /// more fits.
    pub fn takes(&self, line: Line) -> bool
        ensures { result ≡ takes (line_number line) self.now }
    {
        has_place(self.entries.as_slice(), self.newest, line) || has_room(&self.entries)
    }

    /// Closes the newest group, if it has an entry: later entries form a new group.
    pub fn close_group(&mut self)
        ensures { self.new ≡ closed self.old }
    {
        self.newest = newest_after(self.entries.as_slice(), self.newest);
    }

    /// How many entries are of the oldest group: these may leave.
    pub fn drains(&self) -> u8
        ensures { result ≡ length (oldest_group self.now.kept) }
    {
        oldest_count(self.entries.as_slice()) as u8
    }

    /// The number, line, mask and data of the entry `k` of the oldest group, in the order of
    /// numbers.
    pub fn oldest(&self, k: u8) -> (u32, Line, Mask, LineData)
        requires { k < length (oldest_group self.now.kept) }
        ensures { told (slice_get (oldest_group self.now.kept) k)
            ≡ Some
            (result.0, (line_number result.1, (mask_bits result.2, bytes_of_line result.3))) }
    {
        let entry = &self.entries[usize::from(k)];
        (entry.number, entry.line, entry.mask, entry.data)
    }

    /// Removes the entry `k` of the oldest group.
    pub fn remove(&mut self, k: u8)
        requires { k < length (oldest_group self.old.kept) }
        ensures { self.new ≡ without k self.old }
    {
        remove_at(&mut self.entries, k);
    }

    /// Gives each byte of the line that an entry has from the newest entry that has it.
    pub fn overlay(&self, line: Line, onto: &mut LineData)
        ensures { bytes_of_line onto.new
            ≡ overlaid (line_number line) self.now.kept (bytes_of_line onto.old) }
    {
        overlay_each(self.entries.as_slice(), line, onto);
    }

    /// Whether an entry is of this line.
    pub fn has_line(&self, line: Line) -> bool
        ensures { result ≡ list_any (is_of_line (line_number line)) self.now.kept }
    {
        any_of_line(self.entries.as_slice(), line)
    }

    /// Whether an entry is of a group that is closed.
    pub fn has_closed(&self) -> bool
        ensures { result ≡ list_any (is_before self.now.newest) self.now.kept }
    {
        any_before(self.entries.as_slice(), self.newest)
    }

    /// The number of entries that were ever made: they are numbered from 1 to it.
    pub fn made(&self) -> u32
        ensures { result ≡ self.now.made }
    {
        self.made
    }

    /// Whether the entry of this number is kept: it was made, and has not left.
    pub fn keeps(&self, number: u32) -> bool
        ensures { result ≡ list_any (is_numbered number) self.now.kept }
    {
        any_numbered(self.entries.as_slice(), number)
    }

    /// Whether no entry is kept.
    pub fn is_empty(&self) -> bool
        ensures { result ≡ (length self.now.kept == 0) }
    {
        self.entries.is_empty()
    }

    /// Tells a caller's proof that the buffer keeps its rules; nothing is done.
    pub fn is_tidy(&self)
        ensures { IsTidy self.now }
    {
        let _ = &self.entries;
    }
}
