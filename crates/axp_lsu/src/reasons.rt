//! Why an act is not legal (docs/MACHINE.md, "Which events are legal").
ghost use Rattle.std.specs.Prelude.{◌≡◌};
ghost use Rattle.axp_lsu.specs.Reasons.{act_reason, copy_reason, fill_reason, or_else, reason_of};
ghost use Rattle.axp_lsu.specs.Reasons.{access_reason, step_reason, timely_reason, where_fails};

use axp_access::Act;
use axp_regs::Kind;

/// The condition of a legal event that fails.
#[derive(Clone, Copy, Debug, PartialEq, Eq)]
pub enum Reason {
    /// The machine has no processor of this number.
    NoProcessor,
    /// The processor is finished, and a finished one may drain alone.
    Finished,
    /// The processor filled a line, and may step alone until it has stepped.
    AfterFill,
    /// The processor is not at a boundary: it is between two accesses of one group.
    NotAtBoundary,
    /// A fill where the next step makes no access.
    NothingWanted,
    /// A fill where the access that is wanted takes no copy of a line.
    NoCopyWanted,
    /// A fill of a line that the bank holds.
    LineHeld,
    /// A fill, or a load-locked, of a line for which the bank has no room.
    BankFull,
    /// A fetch or a read of a line that the bank does not hold.
    LineNotHeld,
    /// A write that finds no room in the write buffer.
    BufferFull,
    /// A load-locked or a store-conditional while a write of its line waits.
    LineWaits,
    /// A store-conditional or a signal while a write waits that is older than a write barrier.
    OlderGroupWaits,
    /// A barrier while a write waits.
    WriteWaits,
    /// A drain past the last entry of the oldest group.
    PastOldestGroup,
    /// A take where no invalidation is late.
    NothingLate,
    /// A drop of a line that the bank does not hold.
    CopyNotHeld,
    /// A second drop from a bank since the last step.
    DroppedSinceStep,
    /// A second poll since the last step.
    PolledSinceStep,
    /// A tick while the interrupt level is 5 or above.
    InterruptsMasked,
    /// A second tick since the last step.
    TickedSinceStep,
}

/// What the conditions of one act ask of its processor.
#[derive(Clone, Copy, Debug, PartialEq, Eq)]
pub struct Facts {
    /// Whether the processor is finished.
    pub finished: bool,
    /// Whether it filled a line since its last step.
    pub filled: bool,
    /// Whether it is at a boundary.
    pub boundary: bool,
    /// Whether its interrupt level is below 5.
    pub takes_interrupts: bool,
    /// The kind of the access that it wants.
    pub wanted: Option<Kind>,
    /// Whether the bank of the wanted access holds its line.
    pub held: bool,
    /// Whether that bank holds it or has room for it.
    pub room: bool,
    /// Whether the write buffer takes a write of that line.
    pub takes_write: bool,
    /// Whether a write of that line waits.
    pub line_waits: bool,
    /// Whether a write waits that is older than a write barrier.
    pub older_group_waits: bool,
    /// Whether a write waits.
    pub write_waits: bool,
    /// For a drain, whether the oldest group has the entry.
    pub has_entry: bool,
    /// For a take, whether an invalidation is late.
    pub late: bool,
    /// For a drop, whether the bank holds the line.
    pub holds_copy: bool,
    /// For a drop, whether there was one from the bank since the last step.
    pub dropped: bool,
    /// Whether there was a poll since the last step.
    pub polled: bool,
    /// Whether there was a tick since the last step.
    pub ticked: bool,
}

/// Why an act is not legal where these are the facts: the first of its conditions that fails.
/// `None` where the act is legal.
#[tactic(auto, unfolding(crate::specs::Reasons::reason_of))]
pub fn reason_of(act: Act, facts: &Facts) -> Option<Reason>
    ensures { result ≡ reason_of act facts.now }
{
    or_else(timely_reason(act, facts), act_reason(act, facts))
}

/// The first reason, or the second where there is none.
fn or_else(first: Option<Reason>, second: Option<Reason>) -> Option<Reason>
    ensures { result ≡ or_else first second }
{
    match first {
        Some(reason) => Some(reason),
        None => second,
    }
}

/// This reason, where a condition fails.
fn where_fails(condition: bool, reason: Reason) -> Option<Reason>
    ensures { result ≡ where_fails condition reason }
{
    if condition { None } else { Some(reason) }
}

/// Why an act has not its time.
fn timely_reason(act: Act, facts: &Facts) -> Option<Reason>
    ensures { result ≡ timely_reason act facts.now }
{
    match act {
        Act::Step => where_fails(!facts.finished, Reason::Finished),
        Act::Drain(_) => where_fails(facts.finished || !facts.filled, Reason::AfterFill),
        Act::Fill | Act::Take(_) | Act::Drop(..) | Act::Poll | Act::Tick => or_else(
            where_fails(!facts.finished, Reason::Finished),
            where_fails(!facts.filled, Reason::AfterFill),
        ),
    }
}

/// Why an act that has its time is not legal.
fn act_reason(act: Act, facts: &Facts) -> Option<Reason>
    ensures { result ≡ act_reason act facts.now }
{
    match act {
        Act::Step => step_reason(facts.wanted, facts),
        Act::Fill => fill_reason(facts.wanted, facts),
        Act::Drain(_) => where_fails(facts.has_entry, Reason::PastOldestGroup),
        Act::Take(_) => where_fails(facts.late, Reason::NothingLate),
        Act::Drop(..) => or_else(
            where_fails(facts.holds_copy, Reason::CopyNotHeld),
            where_fails(!facts.dropped, Reason::DroppedSinceStep),
        ),
        Act::Poll => or_else(
            where_fails(facts.boundary, Reason::NotAtBoundary),
            where_fails(!facts.polled, Reason::PolledSinceStep),
        ),
        Act::Tick => or_else(
            where_fails(facts.boundary, Reason::NotAtBoundary),
            or_else(
                where_fails(facts.takes_interrupts, Reason::InterruptsMasked),
                where_fails(!facts.ticked, Reason::TickedSinceStep),
            ),
        ),
    }
}

/// Why a step is not legal.
fn step_reason(wanted: Option<Kind>, facts: &Facts) -> Option<Reason>
    ensures { result ≡ step_reason wanted facts.now }
{
    match wanted {
        None => where_fails(facts.boundary, Reason::NotAtBoundary),
        Some(kind) => access_reason(kind, facts),
    }
}

/// Why a step may not make the access that is wanted.
fn access_reason(kind: Kind, facts: &Facts) -> Option<Reason>
    ensures { result ≡ access_reason kind facts.now }
{
    match kind {
        Kind::Fetch | Kind::Read => where_fails(facts.held, Reason::LineNotHeld),
        Kind::Write => where_fails(facts.takes_write, Reason::BufferFull),
        Kind::Locked => or_else(
            where_fails(!facts.line_waits, Reason::LineWaits),
            where_fails(facts.room, Reason::BankFull),
        ),
        Kind::Conditional => or_else(
            where_fails(!facts.line_waits, Reason::LineWaits),
            where_fails(!facts.older_group_waits, Reason::OlderGroupWaits),
        ),
        Kind::Barrier | Kind::CodeBarrier => where_fails(!facts.write_waits, Reason::WriteWaits),
        Kind::WriteBarrier | Kind::Console => None,
        Kind::Signal => where_fails(!facts.older_group_waits, Reason::OlderGroupWaits),
        // No instruction wants one.
        Kind::Poll => Some(Reason::NotAtBoundary),
    }
}

/// Why a fill is not legal.
fn fill_reason(wanted: Option<Kind>, facts: &Facts) -> Option<Reason>
    ensures { result ≡ fill_reason wanted facts.now }
{
    match wanted {
        None => Some(Reason::NothingWanted),
        Some(Kind::Fetch | Kind::Read) => copy_reason(facts),
        Some(_) => Some(Reason::NoCopyWanted),
    }
}

/// Why no copy of the wanted line may be brought in.
fn copy_reason(facts: &Facts) -> Option<Reason>
    ensures { result ≡ copy_reason facts.now }
{
    or_else(
        where_fails(!facts.held, Reason::LineHeld),
        where_fails(facts.room, Reason::BankFull),
    )
}
