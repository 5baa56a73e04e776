ghost use Rattle.std.specs.Prelude.{◌≡◌, ◌+◌, ◌≤◌, [], ◌++◌, true, is_some};
ghost use Rattle.std.specs.Prelude.{if◌then◌else◌, length};
ghost use Rattle.axp_access.specs.Offers.{are_ascending, is_offered};
ghost use Rattle.axp_access.specs.declared.offers.TheConstants.{MAX_DROPS};
ghost use Rattle.axp_access.specs.declared.Act.{Act};
ghost use Rattle.axp_access.specs.declared.Act.TheVariants.{Drain};
ghost use Rattle.axp_bank.specs.Copies.{Whole};
ghost use Rattle.axp_base.specs.Lines.{line_number};
ghost use Rattle.axp_base.specs.declared.limits.TheConstants.{BANK_COPIES};
ghost use Rattle.axp_ibank.specs.Code.{code_lines};
ghost use Rattle.axp_model.specs.Legal.{is_timely};
ghost use Rattle.axp_wbuf.specs.Drains.{oldest_group};
ghost use Rattle.axp_lsu.specs.Asking.{ask_of};
ghost use Rattle.axp_lsu.specs.Fitting.{IsWithinSome};
ghost use Rattle.axp_lsu.specs.Keeping.{copies_of};
ghost use Rattle.axp_lsu.specs.Offering.{bank_drops, copies_named, drops_of, full_bank, full_bank_for};
ghost use Rattle.axp_lsu.specs.Offering.{is_open};

use super::Lsu;
use super::asking::is_timely;
use arrayvec::ArrayVec;
use axp_access::{Act, Intent, MAX_DROPS, Offer, Wanted};
use axp_base::{BANK_COPIES, Bank, Line};
use axp_ibank::without_stamps;
use axp_regs::Kind;

impl Lsu {
    /// The acts that are legal, each where [`Lsu::ask`] gives something: so a late invalidation may
    /// be offered where none is late, which the bus alone knows. `next` is the access that the
    /// processor would make with a step left.
    pub fn offer(&self, intent: &Intent, next: &Option<Wanted>) -> Offer
        requires { IsWithinSome self.now }
        ensures acts { (a : Act) → is_offered result a ≡ is_some (ask_of a intent.now self.now) }
        ensures late { result.late
            ≡ (is_open intent.now.finished self.now, is_open intent.now.finished self.now) }
        ensures spent { result.spent ≡ intent.now.finished }
        ensures drops { result.drops.items
            ≡ (if is_open intent.now.finished self.now then drops_of self.now else []) }
        ensures ascending { are_ascending result.drops.items ≡ true }
        ensures needs { result.needs ≡ full_bank next.now self.now }
    {
        let late = self.is_open(intent);
        Offer {
            spent: intent.finished,
            step: self.allows(Act::Step, intent),
            fill: self.allows(Act::Fill, intent),
            drains: self.open_drains(intent),
            late: (late, late),
            drops: self.open_drops(intent),
            needs: self.full_bank(next),
            poll: self.allows(Act::Poll, intent),
            tick: self.allows(Act::Tick, intent),
        }
    }

    /// Whether an act is legal, but for a take where nothing is late.
    fn allows(&self, act: Act, intent: &Intent) -> bool
        requires { IsWithinSome self.now }
        ensures { result ≡ is_some (ask_of act intent.now self.now) }
    {
        self.ask(act, intent).is_some()
    }

    /// Whether it may take what is late, or give up a copy: it is not finished, and did not just
    /// fill.
    fn is_open(&self, intent: &Intent) -> bool
        ensures { result ≡ is_open intent.now.finished self.now }
    {
        !intent.finished && !self.since.filled
    }

    /// How many entries may be drained next.
    fn open_drains(&self, intent: &Intent) -> u8
        ensures { result ≡ (if is_timely (Drain 0) intent.now.finished self.now.since.filled
            then length (oldest_group self.now.buffer.kept) else 0) }
    {
        if is_timely(Act::Drain(0), intent.finished, self.since.filled) {
            self.buffer.drains()
        } else {
            0
        }
    }

    /// The copies that may be given up.
    fn open_drops(&self, intent: &Intent) -> ArrayVec<(Bank, Line), MAX_DROPS>
        ensures value { result.items
            ≡ (if is_open intent.now.finished self.now then drops_of self.now else []) }
        ensures ascending { are_ascending result.items ≡ true }
    {
        if self.is_open(intent) {
            self.drops()
        } else {
            ArrayVec::new()
        }
    }

    /// The copies of the banks from which none was given up since the last step.
    fn drops(&self) -> ArrayVec<(Bank, Line), MAX_DROPS>
        ensures value { result.items ≡ drops_of self.now }
        ensures ascending { are_ascending result.items ≡ true }
    {
        let mut drops = ArrayVec::new();
        self.push_drops(Bank::Even, &mut drops);
        self.push_drops(Bank::Odd, &mut drops);
        self.push_drops(Bank::Code, &mut drops);
        drops
    }

    /// Puts the copies that this bank may give up last.
    fn push_drops(&self, bank: Bank, drops: &mut ArrayVec<(Bank, Line), MAX_DROPS>)
        requires { length drops.old.items + BANK_COPIES ≤ MAX_DROPS }
        ensures value { drops.new.items ≡ drops.old.items ++ bank_drops bank self.now }
        ensures few { length (bank_drops bank self.now) ≤ BANK_COPIES }
        ensures whole { Whole (copies_of bank self.now) }
    {
        let lines = self.lines(bank);
        if !self.since.has_dropped(bank) {
            push_copies(bank, lines.as_slice(), drops);
        }
    }

    /// The lines of which a bank has copies, in ascending order.
    fn lines(&self, bank: Bank) -> ArrayVec<Line, BANK_COPIES>
        ensures value { result.items ≡ code_lines (copies_of bank self.now) }
        ensures whole { Whole (copies_of bank self.now) }
    {
        match bank {
            Bank::Even => without_stamps(self.even.lines().as_slice()),
            Bank::Odd => without_stamps(self.odd.lines().as_slice()),
            Bank::Code => self.code.lines(),
        }
    }

    /// The full bank that an access waits for.
    fn full_bank(&self, next: &Option<Wanted>) -> Option<Bank>
        ensures { result ≡ full_bank next.now self.now }
    {
        match next {
            None => None,
            Some(wanted) => self.full_bank_for(wanted.kind, Line::of(wanted.address)),
        }
    }

    fn full_bank_for(&self, kind: Kind, line: Line) -> Option<Bank>
        ensures { result ≡ full_bank_for kind (line_number line) self.now }
    {
        let (bank, has_room) = match kind {
            Kind::Fetch => (Bank::Code, self.code.has_room(line)),
            Kind::Read | Kind::Locked => (line.bank(), self.data(line).has_room(line)),
            _ => return None,
        };
        if has_room { None } else { Some(bank) }
    }
}

/// Puts this bank's copies of lines last.
fn push_copies(bank: Bank, lines: &[Line], drops: &mut ArrayVec<(Bank, Line), MAX_DROPS>)
    requires { length drops.old.items + length lines.now ≤ MAX_DROPS }
    ensures { drops.new.items ≡ drops.old.items ++ copies_named bank lines.now }
{
    for line in lines {
        drops.push((bank, *line));
    }
}
