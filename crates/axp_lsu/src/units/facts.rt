ghost use Rattle.std.specs.Prelude.{◌≡◌};
ghost use Rattle.axp_base.specs.Lines.{line_number};
ghost use Rattle.axp_lsu.specs.Reasons.{facts_of, has_entry, has_room_for, holds_copy, is_dropped};
ghost use Rattle.axp_lsu.specs.Reasons.{is_held_for, wanted_kind, wanted_line};

use super::Lsu;
use crate::Facts;
use axp_access::{Act, Intent, Wanted};
use axp_base::Line;
use axp_regs::Kind;

impl Lsu {
    /// What the conditions of an act ask. Whether something is late is the bus's to tell.
    pub fn facts(&self, act: Act, intent: &Intent, late: bool) -> Facts
        ensures { result ≡ facts_of act intent.now late self.now }
    {
        let wanted = wanted_kind(&intent.wanted);
        let line = wanted_line(&intent.wanted);
        Facts {
            finished: intent.finished,
            filled: self.since.filled,
            boundary: intent.boundary,
            takes_interrupts: intent.takes_interrupts,
            wanted,
            held: self.is_held_for(wanted, line),
            room: self.has_room_for(wanted, line),
            takes_write: self.buffer.takes(line),
            line_waits: self.buffer.has_line(line),
            older_group_waits: self.buffer.has_closed(),
            write_waits: !self.buffer.is_empty(),
            has_entry: self.has_entry(act),
            late,
            holds_copy: self.holds_copy(act),
            dropped: self.is_dropped(act),
            polled: self.since.polled,
            ticked: self.since.ticked,
        }
    }

    /// Whether the bank from which an access of this kind takes this line holds it.
    fn is_held_for(&self, kind: Option<Kind>, line: Line) -> bool
        ensures { result ≡ is_held_for kind (line_number line) self.now }
    {
        match kind {
            Some(Kind::Fetch) => self.code.holds(line),
            _ => self.data(line).holds(line),
        }
    }

    /// Whether that bank holds it or has room for it.
    fn has_room_for(&self, kind: Option<Kind>, line: Line) -> bool
        ensures { result ≡ has_room_for kind (line_number line) self.now }
    {
        match kind {
            Some(Kind::Fetch) => self.code.has_room(line),
            _ => self.data(line).has_room(line),
        }
    }

    /// Of a drain, whether the oldest group has the entry.
    fn has_entry(&self, act: Act) -> bool
        ensures { result ≡ has_entry act self.now }
    {
        match act {
            Act::Drain(k) => k < self.buffer.drains(),
            _ => false,
        }
    }

    /// Of a drop, whether the bank holds the line.
    fn holds_copy(&self, act: Act) -> bool
        ensures { result ≡ holds_copy act self.now }
    {
        match act {
            Act::Drop(bank, line) => self.holds_in(bank, line),
            _ => false,
        }
    }

    /// Of a drop, whether there was one from its bank since the last step.
    fn is_dropped(&self, act: Act) -> bool
        ensures { result ≡ is_dropped act self.now }
    {
        match act {
            Act::Drop(bank, _) => self.since.has_dropped(bank),
            _ => false,
        }
    }
}

/// The kind of the wanted access.
fn wanted_kind(wanted: &Option<Wanted>) -> Option<Kind>
    ensures { result ≡ wanted_kind wanted.now }
{
    wanted.as_ref().map(|wanted| wanted.kind)
}

/// The line of the wanted access; line 0 where none is wanted.
fn wanted_line(wanted: &Option<Wanted>) -> Line
    ensures { line_number result ≡ wanted_line wanted.now }
{
    match wanted {
        None => Line::of(0),
        Some(wanted) => Line::of(wanted.address),
    }
}
