//! Acts on one unit, worked out by hand. A unit that keeps its bounds is driven with answers that
//! fit.
ghost use Rattle.std.specs.Prelude.{ℕ, ◌≡◌, ◌^◌, ◌<◌, ◌≤◌, IsTrue};
ghost use Rattle.axp_base.specs.declared.lines.Line.{Line};
ghost use Rattle.axp_line.specs.declared.contents.LineData.{LineData};
ghost use Rattle.axp_line.specs.declared.messages.Reply.TheVariants as reply;
ghost use Rattle.axp_lsu.specs.Asking.{ask_of};
ghost use Rattle.axp_lsu.specs.Fitting.{FitsRequest, IsWantedInSome, IsWithinSome, ReplyFits};
ghost use Rattle.axp_lsu.specs.Within.{IsInMemory, IsKeptWithin, IsWantedBy, IsWantedWithin};

use super::*;
use axp_access::{Act, EntryState, Intent, Offer, Outcome, Place, Wanted};
use axp_base::{Bank, Cpu, Line};
use axp_line::{LineData, Reply, Request};
use axp_regs::Kind;
use std::marker::Model;
use std::test::*;

/// The bytes of the memory that the unit's processor reads and writes.
const SIZE: u64 = 0x1_0000;

/// Lines of bank d0, and the next ones, of bank d1.
const EVEN: u64 = 0x1000;

const NEXT_EVEN: u64 = 0x1080;

const ODD: u64 = 0x1040;

const NEXT_ODD: u64 = 0x10C0;

/// A unit within that memory, and how many acts it made.
#[derive(Drop)]
struct Rig {
    lsu: Lsu,
    acts: u32,
}

impl Model for Rig {
    ghost use Rattle.std.specs.Prelude.{◌^◌, ◌≤◌};
    ghost use Rattle.axp_lsu.specs.Keeping.{LocalMemory};
    ghost use Rattle.axp_lsu.specs.Within.{IsKeptWithin};

    ghost Value = { LocalMemory };

    ghost view = { λ r. r.lsu };

    ghost invariant = { λ r. IsKeptWithin (2 ^ 16) r.lsu × (r.lsu.buffer.made ≤ r.acts) };
}

impl Rig {
    fn empty() -> Rig {
        Rig {
            lsu: Lsu::empty(),
            acts: 0,
        }
    }

    /// What an act asks.
    fn asks(&self, act: Act, intent: &Intent) -> Option<Ask2> {
        self.lsu.ask(act, intent)
    }

    /// What is offered.
    fn offers(&self, intent: &Intent) -> Offer {
        self.lsu.offer(intent, &intent.wanted)
    }

    /// The act is legal.
    fn may(&self, act: Act, intent: &Intent) -> bool {
        self.asks(act, intent).is_some()
    }

    /// The value that the wanted access would give.
    fn value(&self, intent: &Intent) -> Option<u64> {
        if !is_in_memory(intent) {
            return None;
        }
        match &intent.wanted {
            Some(wanted) => Some(self.lsu.value(wanted, None)),
            None => None,
        }
    }

    /// Does an act that is legal, with an answer that fits; `None` where it is not so.
    fn does(&mut self, act: Act, intent: &Intent, reply: Option<Reply>) -> Option<Outcome> {
        let cpu = Cpu::new(0)?;
        if !fits(&self.lsu, act, intent, reply) {
            return None;
        }
        if !is_in_memory(intent) {
            return None;
        }
        if self.acts >= 1000 {
            return None;
        }
        self.acts += 1;
        Some(self.lsu.advance(act, cpu, intent, reply))
    }

    /// Makes the wanted access, and tells its value and place.
    fn makes(&mut self, intent: &Intent, reply: Option<Reply>) -> Option<(u64, Place)> {
        match self.does(Act::Step, intent, reply) {
            Some(Outcome::Access(access)) => Some((access.value, access.place)),
            _ => None,
        }
    }

    /// Copies the line of the wanted access.
    fn fills(&mut self, intent: &Intent, turn: u64, bytes: LineData) -> Option<Outcome> {
        self.does(Act::Fill, intent, Some(Reply::Line { turn, bytes }))
    }
}

/// A number of 32 bits.
fn is_small(turn: u64) -> bool
    ensures { IsTrue result → turn < 2 ^ 32 }
{
    turn <= u64::from(u32::MAX)
}

/// The act is legal, and the answer fits what it asks.
fn fits(lsu: &Lsu, act: Act, intent: &Intent, reply: Option<Reply>) -> bool
    requires { IsWithinSome lsu.now }
    ensures { IsTrue result → ReplyFits (ask_of act intent.now lsu.now) reply }
{
    answers(&lsu.ask(act, intent), reply)
}

fn answers(ask: &Option<Ask2>, reply: Option<Reply>) -> bool
    ensures { IsTrue result → ReplyFits ask.now reply }
{
    match ask {
        None => false,
        Some(Ask2::Private) => match reply {
            None => true,
            Some(_) => false,
        },
        Some(Ask2::Bus(request)) => match reply {
            None => false,
            Some(reply) => answers_request(request, reply),
        },
    }
}

fn answers_request(request: &Request, reply: Reply) -> bool
    ensures { IsTrue result → FitsRequest request.now reply }
{
    match reply {
        Reply::Line { turn, .. } => is_read(request) && is_small(turn),
        Reply::Stored { turn, .. } => is_write(request) && is_small(turn),
        Reply::Barrier { turn, .. } => is_barrier(request) && is_small(turn),
        Reply::Late { turn, .. } => is_take(request) && is_small(turn),
        _ => false,
    }
}

fn is_read(request: &Request) -> bool
    ensures { (turn : ℕ) (bytes : LineData) → IsTrue result → turn < 2 ^ 32
        → FitsRequest request.now (reply.Line turn bytes) }
{
    match request {
        Request::Fill { .. } => true,
        Request::FillCode { .. } => true,
        Request::Locked { .. } => true,
        _ => false,
    }
}

fn is_write(request: &Request) -> bool
    ensures { (turn : ℕ) (bytes : LineData) → IsTrue result → turn < 2 ^ 32
        → FitsRequest request.now (reply.Stored turn bytes) }
{
    match request {
        Request::Drain { .. } => true,
        Request::Conditional { .. } => true,
        _ => false,
    }
}

fn is_barrier(request: &Request) -> bool
    ensures { (turn gone : ℕ) → IsTrue result → turn < 2 ^ 32
        → FitsRequest request.now (reply.Barrier turn gone) }
{
    match request {
        Request::Barrier { .. } => true,
        Request::CodeBarrier { .. } => true,
        _ => false,
    }
}

fn is_take(request: &Request) -> bool
    ensures { (line : Line) (turn : ℕ) → IsTrue result → turn < 2 ^ 32
        → FitsRequest request.now (reply.Late line turn) }
{
    match request {
        Request::Take { .. } => true,
        _ => false,
    }
}

/// The wanted access lies in memory.
fn is_in_memory(intent: &Intent) -> bool
    ensures within { IsTrue result → IsWantedWithin (2 ^ 16) intent.now.wanted }
    ensures some { IsTrue result → IsWantedInSome intent.now.wanted }
{
    match &intent.wanted {
        None => true,
        Some(wanted) => lies_in_memory(wanted),
    }
}

fn lies_in_memory(wanted: &Wanted) -> bool
    ensures { IsTrue result → IsWantedBy (2 ^ 16) wanted.now.kind wanted.now }
{
    match wanted.kind {
        Kind::Fetch | Kind::Read | Kind::Write | Kind::Locked => is_placed(wanted),
        Kind::Conditional => is_placed(wanted) && (wanted.size == 4 || wanted.size == 8),
        _ => true,
    }
}

fn is_placed(wanted: &Wanted) -> bool
    ensures { IsTrue result → IsInMemory (2 ^ 16) wanted.now }
{
    if wanted.size == 1 || wanted.size == 2 || wanted.size == 4 || wanted.size == 8 {
        wanted.address.is_multiple_of(u64::from(wanted.size))
            && wanted.address <= SIZE - u64::from(wanted.size)
    } else {
        false
    }
}

/// An access is wanted.
fn wants(kind: Kind, address: u64, size: u8, value: u64) -> Intent {
    Intent {
        finished: false,
        boundary: false,
        takes_interrupts: true,
        lock_flag: false,
        wanted: Some(Wanted {
            kind,
            address,
            size,
            value,
        }),
    }
}

/// A barrier or write barrier is wanted.
fn wants_barrier(kind: Kind) -> Intent {
    wants(kind, 0, 0, 0)
}

/// The line whose first quadword is this number.
fn starting_with(value: u64) -> LineData {
    let mut bytes = LineData::zero();
    bytes.set(0, 8, value);
    bytes
}

#[test]
fn own_stores_are_read_over_the_copy(rt: HostRuntime) {
    let mut rig = Rig::empty();
    let store = wants(Kind::Write, EVEN + 4, 4, 0xAABB_CCDD);
    assert_eq!(rt;
        rig.makes(&store, None),
        Some((0xAABB_CCDD, Place::Entry(1)))
    );
    let read = wants(Kind::Read, EVEN, 8, 0);
    assert!(rt; !rig.may(Act::Step, &read));
    let filled = rig.fills(&read, 5, starting_with(0x1111_2222_3333_4444));
    assert_eq!(rt;
        filled,
        Some(Outcome::Filled {
            bank: Bank::Even,
            line: Line::of(EVEN),
            turn: 5
        })
    );
    // after a fill only the step is left
    for act in [
        Act::Fill,
        Act::Drain(0),
        Act::Take(Bank::Even),
        Act::Drop(Bank::Even, Line::of(EVEN)),
    ] {
        assert!(rt; !rig.may(act, &read), "{act:?}");
    }
    assert_eq!(rt; rig.value(&read), Some(0xAABB_CCDD_3333_4444));
    assert_eq!(rt;
        rig.makes(&read, None),
        Some((0xAABB_CCDD_3333_4444, Place::At(5)))
    );
    assert!(rt; rig.may(Act::Drain(0), &read));
    assert!(rt; rig.may(Act::Drop(Bank::Even, Line::of(EVEN)), &read));
}

#[test]
fn stores_merge_until_a_write_barrier(rt: HostRuntime) {
    let mut rig = Rig::empty();
    for (address, entry) in [(EVEN, 1), (EVEN + 8, 1), (ODD, 2)] {
        let store = wants(Kind::Write, address, 8, address);
        assert_eq!(rt;
            rig.makes(&store, None),
            Some((address, Place::Entry(entry)))
        );
    }
    let close = wants_barrier(Kind::WriteBarrier);
    assert_eq!(rt; rig.makes(&close, None), Some((0, Place::Absent)));
    let store = wants(Kind::Write, EVEN, 2, 7);
    assert_eq!(rt; rig.makes(&store, None), Some((7, Place::Entry(3))));
    // two entries are of the oldest group, and a barrier waits for all
    let barrier = wants_barrier(Kind::Barrier);
    assert!(rt; !rig.may(Act::Step, &barrier));
    assert!(rt; !rig.may(Act::Drain(2), &barrier));
    let reply = Some(Reply::Stored {
        turn: 3,
        bytes: LineData::zero(),
    });
    for (k, entry, address) in [(1, 2, ODD), (0, 1, EVEN), (0, 3, EVEN)] {
        assert_eq!(rt;
            rig.does(Act::Drain(k), &barrier, reply),
            Some(Outcome::Drained {
                entry,
                line: Line::of(address),
                turn: 3
            })
        );
        assert!(rt; !rig.may(Act::Drain(1), &barrier));
    }
    assert!(rt; rig.may(Act::Step, &barrier));
}

/// How far the entries 0 to 3 have come.
fn states(rig: &Rig) -> [EntryState; 4] {
    [
        rig.lsu.entry(0),
        rig.lsu.entry(1),
        rig.lsu.entry(2),
        rig.lsu.entry(3),
    ]
}

#[test]
fn entries_are_written_and_then_drained(rt: HostRuntime) {
    let (unwritten, waiting, drained) = (
        EntryState::Unwritten,
        EntryState::Waiting,
        EntryState::Drained,
    );
    let mut rig = Rig::empty();
    assert_eq!(rt; states(&rig), [unwritten; 4]);
    for address in [EVEN, ODD] {
        rig.makes(&wants(Kind::Write, address, 8, 1), None);
    }
    // a write barrier leaves both waiting
    let close = wants_barrier(Kind::WriteBarrier);
    rig.makes(&close, None);
    assert_eq!(rt; states(&rig), [unwritten, waiting, waiting, unwritten]);
    let reply = Some(Reply::Stored {
        turn: 1,
        bytes: LineData::zero(),
    });
    rig.does(Act::Drain(1), &close, reply);
    assert_eq!(rt; states(&rig), [unwritten, waiting, drained, unwritten]);
    rig.does(Act::Drain(0), &close, reply);
    assert_eq!(rt; states(&rig), [unwritten, drained, drained, unwritten]);
}

#[test]
fn entry_is_asked_with_its_bytes(rt: HostRuntime) {
    let mut rig = Rig::empty();
    let store = wants(Kind::Write, EVEN + 8, 8, 0x0102_0304_0506_0708);
    assert_eq!(rt;
        rig.makes(&store, None),
        Some((0x0102_0304_0506_0708, Place::Entry(1)))
    );
    match rig.asks(Act::Drain(0), &store) {
        Some(Ask2::Bus(Request::Drain { line, mask, bytes })) => {
            assert_eq!(rt; line, Line::of(EVEN));
            assert_eq!(rt;
                (mask.has(7), mask.has(8), mask.has(15), mask.has(16)),
                (false, true, true, false)
            );
            assert_eq!(rt; bytes.get(8, 8), 0x0102_0304_0506_0708);
        }
        _ => panic!(rt; "the entry may be drained"),
    }
    // the drained line refreshes a copy, with its turn as stamp
    let read = wants(Kind::Read, EVEN, 8, 0);
    rig.fills(&read, 1, starting_with(1));
    rig.makes(&read, None);
    rig.does(
        Act::Drain(0),
        &read,
        Some(Reply::Stored {
            turn: 2,
            bytes: starting_with(9),
        }),
    );
    assert_eq!(rt; rig.makes(&read, None), Some((9, Place::At(2))));
}

#[test]
fn barrier_drops_the_copies_of_its_bits(rt: HostRuntime) {
    let mut rig = Rig::empty();
    for (address, turn) in [(NEXT_ODD, 4), (EVEN, 1), (ODD, 3), (NEXT_EVEN, 2)] {
        let read = wants(Kind::Read, address, 8, 0);
        rig.fills(&read, turn, starting_with(address));
        assert_eq!(rt; rig.makes(&read, None), Some((address, Place::At(turn))));
    }
    let barrier = wants_barrier(Kind::Barrier);
    match rig.asks(Act::Step, &barrier) {
        Some(Ask2::Bus(Request::Barrier { held })) => {
            assert_eq!(rt; held.len(), 4);
            let lines = [(0x1000, 1), (0x1080, 2), (0x1040, 3), (0x10C0, 4)];
            for (n, line) in lines.iter().enumerate() {
                if (n as u32) < held.len() {
                    assert_eq!(rt; held.get(n as u32), *line);
                }
            }
        }
        _ => panic!(rt; "no entry is kept"),
    }
    // those of the second line of d0, and of the first of d1
    let reply = Some(Reply::Barrier {
        turn: 20,
        gone: 0b0110,
    });
    assert_eq!(rt; rig.makes(&barrier, reply), Some((0, Place::At(20))));
    for (address, held) in [
        (EVEN, true),
        (NEXT_EVEN, false),
        (ODD, false),
        (NEXT_ODD, true),
    ] {
        let read = wants(Kind::Read, address, 8, 0);
        assert_eq!(rt; rig.may(Act::Step, &read), held, "{address}");
        if held {
            assert_eq!(rt; rig.makes(&read, None), Some((address, Place::At(20))));
        }
    }
}

#[test]
fn take_removes_an_older_copy(rt: HostRuntime) {
    let mut rig = Rig::empty();
    let read = wants(Kind::Read, EVEN, 8, 0);
    let line = Line::of(EVEN);
    rig.fills(&read, 5, starting_with(1));
    rig.makes(&read, None);
    // the copy of the line that is named goes, whatever bank was asked for
    for (bank, turn, gone) in [
        (Bank::Even, 5, false),
        (Bank::Odd, 6, true),
        (Bank::Even, 7, false),
    ] {
        let reply = Some(Reply::Late { line, turn });
        assert_eq!(rt;
            rig.does(Act::Take(bank), &read, reply),
            Some(Outcome::Taken { line, turn, gone })
        );
        assert_eq!(rt; rig.may(Act::Step, &read), turn < 6);
    }
}

#[test]
fn each_bank_gives_up_one_line_a_step(rt: HostRuntime) {
    let mut rig = Rig::empty();
    for address in [EVEN, NEXT_EVEN, ODD] {
        let read = wants(Kind::Read, address, 8, 0);
        rig.fills(&read, 1, LineData::zero());
        rig.makes(&read, None);
    }
    let read = wants(Kind::Read, NEXT_EVEN, 8, 0);
    let drop = Act::Drop(Bank::Even, Line::of(EVEN));
    let next = Act::Drop(Bank::Even, Line::of(NEXT_EVEN));
    let odd = Act::Drop(Bank::Odd, Line::of(ODD));
    assert!(rt; !rig.may(Act::Drop(Bank::Even, Line::of(ODD)), &read));
    assert_eq!(rt; rig.does(drop, &read, None), Some(Outcome::Done));
    assert!(rt; !rig.may(next, &read));
    assert_eq!(rt; rig.does(odd, &read, None), Some(Outcome::Done));
    assert!(rt; rig.makes(&read, None).is_some());
    assert!(rt; rig.may(next, &read));
    assert!(rt; !rig.may(odd, &read));
}

#[test]
fn offer_names_what_may_be_done(rt: HostRuntime) {
    let mut rig = Rig::empty();
    for address in [EVEN, ODD] {
        rig.makes(&wants(Kind::Write, address, 8, 1), None);
    }
    let read = wants(Kind::Read, NEXT_EVEN, 8, 0);
    rig.fills(&read, 1, LineData::zero());
    let filled = rig.offers(&read);
    assert!(rt; filled.step && !filled.fill);
    assert_eq!(rt; (filled.drains, filled.late), (0, (false, false)));
    assert!(rt; filled.drops.is_empty());
    rig.makes(&read, None);
    let offer = rig.offers(&wants(Kind::Read, NEXT_ODD, 8, 0));
    assert!(rt; !offer.spent && !offer.step && offer.fill);
    assert_eq!(rt; (offer.drains, offer.late), (2, (true, true)));
    assert_eq!(rt;
        offer.drops.as_slice(),
        &[(Bank::Even, Line::of(NEXT_EVEN))][..]
    );
    assert_eq!(rt; offer.needs, None);
    assert!(rt; !offer.poll && !offer.tick);
}

#[test]
fn code_is_fetched_until_an_imb(rt: HostRuntime) {
    let mut rig = Rig::empty();
    let fetch = wants(Kind::Fetch, EVEN + 4, 4, 0);
    let filled = rig.fills(&fetch, 9, starting_with(0x1111_2222_3333_4444));
    assert_eq!(rt;
        filled,
        Some(Outcome::Filled {
            bank: Bank::Code,
            line: Line::of(EVEN),
            turn: 9
        })
    );
    let found = Some((0x1111_2222, Place::At(9)));
    assert_eq!(rt; rig.makes(&fetch, None), found);
    let reply = Some(Reply::Barrier { turn: 12, gone: 0 });
    rig.makes(&wants_barrier(Kind::Barrier), reply);
    assert_eq!(rt; rig.makes(&fetch, None), found);
    rig.makes(&wants_barrier(Kind::CodeBarrier), reply);
    assert!(rt; !rig.may(Act::Step, &fetch));
}
