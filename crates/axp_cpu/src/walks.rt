//! How an access comes to its physical address: at once, by a translation that is kept, or by a
//! walk through the page tables.
ghost use Rattle.std.specs.Prelude.{◌≡◌, ◌<◌, ◌^◌, ℕ, None, slice_get, IfOk, IfSome};
ghost use Rattle.axp_cpu.specs.declared.cpu_states.CpuState.{CpuState};
ghost use Rattle.axp_cpu.specs.Phases.{continued, kept_at, plan_of, walked};
ghost use Rattle.axp_cpu.specs.Phases.{ContinuationFits, IsSmall, PhaseFits, WalkFits};
ghost use Rattle.axp_cpu.specs.Plans.{End};
ghost use Rattle.axp_cpu.specs.Translation.{ask_plan, entry_kept, entry_plan, fault_in};
ghost use Rattle.axp_cpu.specs.Translation.{frame_plan, framed_by, index_at, mapped_plan};
ghost use Rattle.axp_cpu.specs.Translation.{physical_plan, reach_plan};
ghost use Rattle.axp_pte.specs.Protection.{upper_of};

use crate::cpu_states::{BEYOND_MEMORY, CpuState, FRAME_FAULT};
use crate::endings::Ending;
use crate::phases::{Continuation, Phase, Stage};
use crate::translation::{Level, MappedAsk, Origin, entry_address, way};
use axp_access::Wanted;
use axp_base::QUADWORD_BYTES;
use axp_image::PAGE_BYTES;
use axp_pte::{MmFault, Pte, Where, split, upper};
use axp_regs::{Ask, Kind};
use axp_trap::Cause;

/// A walk through the page tables that has come to the entry of a level.
#[derive(Clone, Copy, Debug)]
pub struct Walk {
    /// The access that it is made for.
    pub far: MappedAsk,
    /// The level of the entry that is read.
    pub level: Level,
    /// What is done with the value of the access.
    pub next: Continuation,
}

/// An access of a list, if there is one of this number.
pub fn ask_at(asks: &[Ask], n: usize) -> Option<Ask>
    ensures value { result ≡ slice_get asks.now n }
    ensures range { IfSome result (λ ask. ask.value < 2 ^ 64) }
{
    if n < asks.len() {
        let ask = asks[n];
        Some(Ask {
            value: stored_value(ask),
            ..ask
        })
    } else {
        None
    }
}

/// What an access stores, as a number of 64 bits.
fn stored_value(ask: Ask) -> u64
    ensures { result ≡ ask.value }
{
    ask.value
}

/// An access of an entry or a PAL call: to a physical address, or of a frame, whose address must be
/// a multiple of a quadword's bytes.
pub fn reach_ask(size: u64, table: &CpuState, ask: Ask, next: Continuation) -> Phase
    requires { IsSmall ask }
    ensures plan { (cpus : ℕ) → plan_of size cpus table.now result
        ≡ ask_plan size table.now ask (continued size cpus next) }
    ensures fits { (cpus : ℕ) → ContinuationFits cpus table.now.state next
        → PhaseFits cpus table.now result }
{
    if ask.direct {
        place(size, ask, ask.address, next)
    } else if ask.address % QUADWORD_BYTES == 0 {
        reach(size, table, Origin::Frame, ask, next)
    } else {
        Phase::Ends(Ending::Halts { code: FRAME_FAULT })
    }
}

/// An access to a virtual address.
pub fn reach(size: u64, table: &CpuState, origin: Origin, ask: Ask, next: Continuation) -> Phase
    requires { IsSmall ask }
    ensures plan { (cpus : ℕ) → plan_of size cpus table.now result
        ≡ reach_plan size table.now origin ask (continued size cpus next) }
    ensures fits { (cpus : ℕ) → ContinuationFits cpus table.now.state next
        → PhaseFits cpus table.now result }
{
    match split(ask.address, table.mode_in(origin)) {
        Ok(Where::Direct(address)) => place(size, ask, address, next),
        Ok(Where::Mapped(parts)) => map(size, table, MappedAsk { ask, origin, parts }, next),
        Err(fault) => fail(origin, ask, fault),
    }
}

/// A fault of translation in place of an access.
fn fail(origin: Origin, ask: Ask, fault: MmFault) -> Phase
    ensures plan { (size cpus : ℕ) (t : CpuState) → plan_of size cpus t result
        ≡ End (fault_in origin ask fault t) }
    ensures fits { (cpus : ℕ) (t : CpuState) → PhaseFits cpus t result }
{
    match origin {
        Origin::Instruction => {
            let cause = Cause::Mm {
                va: ask.address,
                fault,
                way: way(ask.kind),
            };
            Phase::Ends(Ending::Raises { cause })
        }
        Origin::Frame => Phase::Ends(Ending::Halts { code: FRAME_FAULT }),
    }
}

/// An access to an address that is translated: by the entry that is kept of its page, else by a
/// walk.
fn map(size: u64, table: &CpuState, far: MappedAsk, next: Continuation) -> Phase
    requires { IsSmall far.ask }
    ensures plan { (cpus : ℕ) → plan_of size cpus table.now result
        ≡ mapped_plan size table.now far (continued size cpus next) }
    ensures fits { (cpus : ℕ) → ContinuationFits cpus table.now.state next
        → PhaseFits cpus table.now result }
{
    match table.find(&far) {
        Some(pte) => enter(size, far, table.frame(&far, pte), next),
        None => {
            let walk = Walk {
                far,
                level: Level::First,
                next,
            };
            read_entry(size, walk, table.state.ptbr())
        }
    }
}

/// An access to the page of this frame, or the fault that comes in its place.
fn enter(size: u64, far: MappedAsk, found: Result<u64, MmFault>, next: Continuation) -> Phase
    requires small { IsSmall far.ask }
    requires frame { IfOk found (λ frame. frame < 2 ^ 32) }
    ensures plan { (cpus : ℕ) (t : CpuState) → plan_of size cpus t result
        ≡ framed_by t far found (frame_plan size t far (continued size cpus next)) }
    ensures fits { (cpus : ℕ) (t : CpuState) → ContinuationFits cpus t.state next
        → PhaseFits cpus t result }
{
    match found {
        Ok(frame) => {
            let address = frame * PAGE_BYTES + u64::from(far.parts.offset);
            place(size, far.ask, address, next)
        }
        Err(fault) => fail(far.origin, far.ask, fault),
    }
}

/// An access at its physical address; beyond the end of memory the processor halts.
fn place(size: u64, ask: Ask, address: u64, next: Continuation) -> Phase
    requires { IsSmall ask }
    ensures plan { (cpus : ℕ) (t : CpuState) → plan_of size cpus t result
        ≡ physical_plan size t ask address (continued size cpus next) }
    ensures fits { (cpus : ℕ) (t : CpuState) → ContinuationFits cpus t.state next
        → PhaseFits cpus t result }
{
    if address < size {
        let wanted = Wanted {
            kind: ask.kind,
            address,
            size: ask.size,
            value: ask.value,
        };
        Phase::Wants(wanted, Stage::Continues(next))
    } else {
        Phase::Ends(Ending::Halts {
            code: BEYOND_MEMORY,
        })
    }
}

/// The read of the entry that a walk has come to, in the page table that begins at this page.
fn read_entry(size: u64, walk: Walk, table: u64) -> Phase
    ensures plan { (cpus : ℕ) (t : CpuState) → plan_of size cpus t result
        ≡ entry_plan size t (walked size cpus t walk.far walk.next walk.level)
        (index_at walk.level walk.far.parts) table }
    ensures fits { (cpus : ℕ) (t : CpuState) → WalkFits cpus t walk.far walk.next
        → PhaseFits cpus t result }
{
    let address = entry_address(table, walk.index());
    if address < size {
        let entry = Wanted {
            kind: Kind::Read,
            address,
            size: QUADWORD_BYTES as u8,
            value: 0,
        };
        Phase::Wants(entry, Stage::Walks(walk))
    } else {
        Phase::Ends(Ending::Halts {
            code: BEYOND_MEMORY,
        })
    }
}

impl Walk {
    /// The index of the entry in its table.
    fn index(&self) -> u16
        ensures { result ≡ index_at self.now.level self.now.far.parts }
    {
        match self.level {
            Level::First => self.far.parts.l1,
            Level::Second => self.far.parts.l2,
            Level::Third => self.far.parts.l3,
        }
    }
}

/// What follows the entry that a walk read: the entry of the next level, or the access, once the
/// entry of its page is kept.
pub fn follow(size: u64, table: &CpuState, walk: Walk, word: u64) -> Phase
    requires { IsSmall walk.far.ask }
    ensures plan { (cpus : ℕ) → plan_of size cpus (kept_at walk.level walk.far word table.now) result
        ≡ walked size cpus table.now walk.far walk.next walk.level word }
    ensures fits { (cpus : ℕ) → WalkFits cpus table.now walk.far walk.next
        → PhaseFits cpus (kept_at walk.level walk.far word table.now) result }
{
    match walk.level {
        Level::First => descend(size, walk, Level::Second, word),
        Level::Second => descend(size, walk, Level::Third, word),
        Level::Third => {
            let found = table.frame(&walk.far, Pte::of(word));
            enter(size, walk.far, found, walk.next)
        }
    }
}

/// The read of the entry of the next level, in the table that an entry leads to.
fn descend(size: u64, walk: Walk, level: Level, word: u64) -> Phase
    ensures plan { (cpus : ℕ) (t : CpuState) → plan_of size cpus t result
        ≡ framed_by t walk.far (upper_of word)
        (entry_plan size t (walked size cpus t walk.far walk.next level)
        (index_at level walk.far.parts)) }
    ensures fits { (cpus : ℕ) (t : CpuState) → WalkFits cpus t walk.far walk.next
        → PhaseFits cpus t result }
{
    match upper(Pte::of(word)) {
        Ok(frame) => read_entry(size, Walk { level, ..walk }, frame),
        Err(fault) => fail(walk.far.origin, walk.far.ask, fault),
    }
}

/// Keeps the entry of a page that a walk found, where it allows the access.
pub fn keep_found(table: &mut CpuState, walk: &Walk, word: u64)
    requires { entry_kept table.old walk.now.far ≡ None }
    ensures { table.new ≡ kept_at walk.now.level walk.now.far word table.old }
{
    match walk.level {
        Level::First | Level::Second => {}
        Level::Third => {
            if table.frame(&walk.far, Pte::of(word)).is_ok() {
                table.keep(&walk.far, word);
            }
        }
    }
}
