ghost use Rattle.std.specs.Prelude.{ℕ, ◌≡◌, ◌+◌, ◌%◌, ◌^◌, ◌<◌, ◌≤◌, true, length, Some};
ghost use Rattle.axp_base.specs.Lines.{line_number};
ghost use Rattle.axp_base.specs.Masks.{IsSize};
ghost use Rattle.axp_access.specs.declared.Act.TheVariants.{Step};
ghost use Rattle.axp_access.specs.declared.Place.TheVariants.{Entry};
ghost use Rattle.axp_wbuf.specs.Drains.{oldest_group};
ghost use Rattle.axp_model.specs.Outcomes.{bank_for};
ghost use Rattle.axp_base.specs.Lines.{line_of};
ghost use Rattle.axp_wbuf.specs.Pending.{store_number, takes};
ghost use Rattle.axp_lsu.specs.Asking.{act_ask, ask_of, is_ready};
ghost use Rattle.axp_lsu.specs.Fitting.{IsWantedInSome, ReplyFits, ShowsFitting, WantsFitting};
ghost use Rattle.axp_lsu.specs.Going.{after_access, advanced, after_late, drain_outcome};
ghost use Rattle.axp_lsu.specs.Going.{after_drain, fill_outcome, after_fill, outcome_of, place_by};
ghost use Rattle.axp_lsu.specs.Going.{poll_outcome, read_place, step_outcome, after_step};
ghost use Rattle.axp_lsu.specs.Going.{success_by, take_outcome, turn_in, with_stored};
ghost use Rattle.axp_lsu.specs.Keeping.{entry_at, nothing, with_fill};
ghost use Rattle.axp_lsu.specs.Within.{IsKeptWithin, IsWantedWithin};

use super::values::is_stored;
use super::{Lsu, in_even};
use crate::Since;
use axp_access::{Access, Act, Intent, Outcome, Place, Wanted};
use axp_base::{Bank, Cpu, Line};
use axp_line::{LineData, Reply};
use axp_regs::Kind;
use axp_wbuf::Full;

impl Lsu {
    /// Does an act that is legal, with the bus's answer where it asked, and tells its outcome.
    pub fn advance(&mut self, act: Act, cpu: Cpu, intent: &Intent, reply: Option<Reply>) -> Outcome
        requires fits { ReplyFits (ask_of act intent.now self.old) reply }
        requires wanted { IsWantedInSome intent.now.wanted }
        requires few_made { self.old.buffer.made + 1 < 2 ^ 32 }
        ensures outcome { result ≡ outcome_of act cpu intent.now self.old reply }
        ensures fits { WantsFitting intent.now.wanted → ShowsFitting result }
        ensures kept { self.new ≡ advanced act intent.now reply self.old }
        ensures within { (size : ℕ) → IsKeptWithin size self.old
            → IsWantedWithin size intent.now.wanted → IsKeptWithin size self.new }
        ensures one_more { self.new.buffer.made ≤ self.old.buffer.made + 1 }
    {
        self.make_act(act, cpu, intent, reply)
    }

    #[tactic(auto, unfolding(crate::specs::Going::outcome_of, crate::specs::Going::advanced))]
    fn make_act(&mut self, act: Act, cpu: Cpu, intent: &Intent, reply: Option<Reply>) -> Outcome
        requires fits { ReplyFits (ask_of act intent.now self.old) reply }
        requires wanted { IsWantedInSome intent.now.wanted }
        requires few_made { self.old.buffer.made + 1 < 2 ^ 32 }
        ensures outcome { result ≡ outcome_of act cpu intent.now self.old reply }
        ensures fits { WantsFitting intent.now.wanted → ShowsFitting result }
        ensures kept { self.new ≡ advanced act intent.now reply self.old }
    {
        match act {
            Act::Step => self.step(cpu, intent, reply),
            Act::Fill => self.fill(intent, reply),
            Act::Drain(k) => self.drain(k, reply),
            Act::Take(_) => self.take(reply),
            Act::Drop(bank, line) => {
                self.give_up(bank, line);
                Outcome::Done
            }
            Act::Poll => {
                self.since.polled = true;
                polled(intent.takes_interrupts, reply)
            }
            Act::Tick => {
                self.since.ticked = true;
                Outcome::Done
            }
        }
    }

    /// Makes the wanted access, or none.
    fn step(&mut self, cpu: Cpu, intent: &Intent, reply: Option<Reply>) -> Outcome
        requires fits { ReplyFits (act_ask Step intent.now self.old) reply }
        requires wanted { IsWantedInSome intent.now.wanted }
        requires few_made { self.old.buffer.made + 1 < 2 ^ 32 }
        ensures outcome { result ≡ step_outcome cpu intent.now.wanted self.old reply }
        ensures fits { WantsFitting intent.now.wanted → ShowsFitting result }
        ensures kept { self.new
            ≡ record (after_step intent.now.wanted reply self.old) { since = nothing } }
    {
        let outcome = match &intent.wanted {
            None => Outcome::NoAccess,
            Some(wanted) => self.make(cpu, wanted, reply),
        };
        self.since = Since::default();
        outcome
    }

    /// Makes an access.
    fn make(&mut self, cpu: Cpu, wanted: &Wanted, reply: Option<Reply>) -> Outcome
        requires is_ready { is_ready wanted.now.kind (line_of wanted.now.address) self.old ≡ true }
        requires wanted { IsWantedInSome (Some wanted.now) }
        requires few_made { self.old.buffer.made + 1 < 2 ^ 32 }
        ensures outcome { result ≡ step_outcome cpu (Some wanted.now) self.old reply }
        ensures fits { WantsFitting (Some wanted.now) → ShowsFitting result }
        ensures kept { self.new ≡ after_access wanted.now.kind wanted.now reply self.old }
    {
        let value = self.shown(wanted, reply);
        let place = self.access(wanted, reply);
        Outcome::Access(Access {
            cpu,
            kind: wanted.kind,
            address: wanted.address,
            size: wanted.size,
            value,
            yes: success(wanted.kind, reply),
            place,
        })
    }

    /// Does what an access does to what is kept, and tells where the access stands.
    fn access(&mut self, wanted: &Wanted, reply: Option<Reply>) -> Place
        requires is_ready { is_ready wanted.now.kind (line_of wanted.now.address) self.old ≡ true }
        requires wanted { IsWantedInSome (Some wanted.now) }
        requires few_made { self.old.buffer.made + 1 < 2 ^ 32 }
        ensures place { result
            ≡ place_by wanted.now.kind (line_of wanted.now.address) self.old reply }
        ensures kept { self.new ≡ after_access wanted.now.kind wanted.now reply self.old }
    {
        let line = Line::of(wanted.address);
        match wanted.kind {
            Kind::Fetch => Place::At(self.code.stamp(line).unwrap_or(0)),
            Kind::Read => Place::At(self.read_place(line)),
            Kind::Write => self.write(wanted),
            Kind::Locked => {
                self.bring(line.bank(), line, reply);
                Place::At(turn_in(reply))
            }
            Kind::Conditional => {
                self.rewrite(line, reply);
                Place::At(turn_in(reply))
            }
            Kind::Barrier => {
                self.fence(reply);
                Place::At(turn_in(reply))
            }
            Kind::WriteBarrier => {
                self.buffer.close_group();
                Place::Absent
            }
            Kind::CodeBarrier => {
                self.fence(reply);
                self.code.clear();
                Place::At(turn_in(reply))
            }
            Kind::Signal | Kind::Console | Kind::Poll => Place::At(turn_in(reply)),
        }
    }

    /// Where a plain read of this line stands: just after the later of its copy's stamp and the
    /// last barrier.
    fn read_place(&self, line: Line) -> u64
        ensures { result ≡ read_place (line_number line) self.now }
    {
        let stamp = match self.data(line).get(line) {
            None => 0,
            Some((stamp, _)) => stamp,
        };
        stamp.max(self.barrier)
    }

    /// Puts a plain write into the buffer.
    fn write(&mut self, wanted: &Wanted) -> Place
        requires takes { takes (line_of wanted.now.address) self.old.buffer ≡ true }
        requires sized { IsSize wanted.now.size }
        requires aligned { wanted.now.address % wanted.now.size ≡ 0 }
        requires few_made { self.old.buffer.made + 1 < 2 ^ 32 }
        ensures place { result ≡ Entry (store_number (line_of wanted.now.address) self.old.buffer) }
        ensures kept { self.new ≡ with_stored wanted.now self.old }
    {
        match self.buffer.store(wanted.address, wanted.size, wanted.value) {
            Ok(number) => Place::Entry(number),
            // not so: the buffer takes a store to the line
            Err(Full) => Place::Absent,
        }
    }

    /// Copies the line of a wanted fetch or plain read into its bank.
    fn fill(&mut self, intent: &Intent, reply: Option<Reply>) -> Outcome
        ensures outcome { result ≡ fill_outcome intent.now.wanted reply }
        ensures kept { self.new
            ≡ record (after_fill intent.now.wanted reply self.old)
            { since = with_fill self.old.since } }
    {
        self.since.filled = true;
        match &intent.wanted {
            None => Outcome::NoAccess,
            Some(wanted) => {
                let line = Line::of(wanted.address);
                let bank = bank_for(wanted.kind, line);
                self.bring(bank, line, reply);
                Outcome::Filled {
                    bank,
                    line,
                    turn: turn_in(reply),
                }
            }
        }
    }

    /// An entry of the oldest group leaves for memory.
    fn drain(&mut self, k: u8, reply: Option<Reply>) -> Outcome
        requires { k < length (oldest_group self.old.buffer.kept) }
        ensures outcome { result ≡ drain_outcome (entry_at k self.old) reply }
        ensures kept { self.new ≡ after_drain k (entry_at k self.old) reply self.old }
    {
        let (entry, line, _, _) = self.buffer.oldest(k);
        self.buffer.remove(k);
        self.rewrite(line, reply);
        Outcome::Drained {
            entry,
            line,
            turn: turn_in(reply),
        }
    }

    /// A delivered pair removes an older copy.
    fn take(&mut self, reply: Option<Reply>) -> Outcome
        ensures outcome { result ≡ take_outcome self.old reply }
        ensures kept { self.new ≡ after_late reply self.old }
    {
        match reply {
            Some(Reply::Late { line, turn }) => Outcome::Taken {
                line,
                turn,
                gone: self.invalidate(line, turn),
            },
            _ => Outcome::NoAccess,
        }
    }
}

/// The bank that an access of this kind to this line goes to.
fn bank_for(kind: Kind, line: Line) -> Bank
    ensures { result ≡ bank_for kind (line_number line) }
{
    match kind {
        Kind::Fetch => Bank::Code,
        _ => line.bank(),
    }
}

/// The turn that an answer names.
fn turn_in(reply: Option<Reply>) -> u64
    ensures { result ≡ turn_in reply }
{
    match reply {
        Some(
            Reply::Line { turn, .. }
            | Reply::Stored { turn, .. }
            | Reply::Refused { turn }
            | Reply::Barrier { turn, .. }
            | Reply::Late { turn, .. }
            | Reply::Polled { turn, .. }
            | Reply::Signalled { turn }
            | Reply::Printed { turn },
        ) => turn,
        Some(Reply::Nothing) | None => 0,
    }
}

/// Whether the access shows a success, which only a store-conditional does.
fn success(kind: Kind, reply: Option<Reply>) -> bool
    ensures { result ≡ success_by kind reply }
{
    match kind {
        Kind::Conditional => is_stored(reply),
        _ => false,
    }
}

/// A poll enters where an interrupt is requested and the processor takes it.
fn polled(low: bool, reply: Option<Reply>) -> Outcome
    ensures { result ≡ poll_outcome low reply }
{
    match reply {
        Some(Reply::Polled { pending, turn }) => Outcome::Polled {
            pending,
            entered: pending && low,
            turn,
        },
        _ => Outcome::NoAccess,
    }
}
