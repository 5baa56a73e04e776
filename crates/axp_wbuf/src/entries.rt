ghost use Rattle.std.specs.Prelude.{◌≡◌, ◌+◌, ◌/◌, ◌%◌, ◌<◌, ◌≤◌, ◌==◌, length, drop, nat_lt};
ghost use Rattle.std.specs.Prelude.{IfSome, Some, slice_get, slice_set};
ghost use Rattle.std.specs.List.{list_any, position};
ghost use Rattle.axp_base.specs.Lines.{line_number};
ghost use Rattle.axp_base.specs.Masks.{IsSize};
ghost use Rattle.axp_line.specs.Lines.{bytes_of_line};
ghost use Rattle.axp_wbuf.specs.Pending.{is_at, made_by, overlaid, with_store};
ghost use Rattle.axp_wbuf.specs.Drains.{oldest_group};

use axp_base::{LINE_BYTES, Line, Mask, span};
use axp_line::LineData;

/// A write that has not reached memory.
#[derive(Clone, Copy, Debug, Default)]
pub(crate) struct Entry {
    pub(crate) number: u32,
    pub(crate) line: Line,
    pub(crate) mask: Mask,
    pub(crate) data: LineData,
    pub(crate) group: u32,
}

impl Entry {
    ghost use Rattle.axp_wbuf.specs.Views.{pending};

    /// A new entry that has a store's bytes alone.
    pub(crate) fn of_store(number: u32, group: u32, address: u64, size: u8, value: u64) -> Entry
        requires sized { IsSize size }
        requires aligned { address % size ≡ 0 }
        ensures { pending result ≡ made_by number group address size value }
    {
        let mut data = LineData::zero();
        data.set((address % LINE_BYTES) as u8, size, value);
        Entry {
            number,
            line: Line::of(address),
            mask: span(address, size),
            data,
            group,
        }
    }

    /// Puts a store's bytes into the entry.
    pub(crate) fn put(&mut self, address: u64, size: u8, value: u64)
        requires sized { IsSize size }
        requires aligned { address % size ≡ 0 }
        ensures { pending self.new ≡ with_store address size value (pending self.old) }
    {
        self.mask = self.mask.join(span(address, size));
        self.data.set((address % LINE_BYTES) as u8, size, value);
    }

    /// Whether the entry is of this group and this line.
    pub(crate) fn is_at(&self, group: u32, line: Line) -> bool
        ensures { result ≡ is_at group (line_number line) (pending self.now) }
    {
        self.group == group && self.line == line
    }
}
