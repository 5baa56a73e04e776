//! What the bus keeps for one processor.
ghost use Rattle.std.specs.Prelude.{◌≡◌, ◌==◌, [], IfOk, length, not};
ghost use Rattle.axp_base.specs.Cpus.{cpu_number};
ghost use Rattle.axp_base.specs.declared.lines.Bank.TheVariants.{Even, Odd};
ghost use Rattle.axp_inval.specs.Queues.{queue};
ghost use Rattle.axp_lockreg.specs.Blocks.{locked_block};
ghost use Rattle.axp_base.specs.LatePairs.{late_by_other};
ghost use Rattle.axp_base.specs.Lists.{is_empty};
ghost use Rattle.axp_base.specs.Blocks.{lock_by_other};
ghost use Rattle.axp_line.specs.BusCalls.{late_by_own, lock_by_own, signals, takes_interrupt};
ghost use Rattle.axp_line.specs.declared.messages.Request.TheVariants as request;
ghost use Rattle.axp_bus.specs.Ports.{AreFresh, IsFresh, PortHasRoom, Noted, late_in};
ghost use Rattle.axp_bus.specs.Ports.{pending_after};

use crate::writes::line_written;
use axp_base::{Bank, Cpu, Line, NoMemory};
use axp_inval::LateQueue;
use axp_line::{Reply, Request};
use axp_lockreg::LockReg;
use std::alloc::Global;

/// What the bus keeps for one processor: the writes of others to lines of each data bank that it
/// has not yet seen, its lock register, and whether an interrupt of it is requested.
#[derive(Debug, Drop)]
pub(crate) struct Port {
    pub(crate) even: LateQueue,
    pub(crate) odd: LateQueue,
    pub(crate) lock: LockReg,
    pub(crate) pending: bool,
}

impl Port {
    /// A port of nothing, with room for this many pairs of each bank.
    pub(crate) fn with_room(alloc: Global, room: u32) -> Result<Port, NoMemory>
        ensures { IfOk result (IsFresh room) }
    {
        let even = LateQueue::with_room(alloc, room)?;
        let odd = LateQueue::with_room(alloc, room)?;
        Ok(Port {
            even,
            odd,
            lock: LockReg::clear(),
            pending: false,
        })
    }

    /// Whether something is late in a bank; in the code bank nothing ever is.
    pub(crate) fn late(&self, bank: Bank) -> bool
        ensures { result ≡ not (is_empty (late_in bank self.now)) }
    {
        match bank {
            Bank::Even => has_pair(&self.even),
            Bank::Odd => has_pair(&self.odd),
            Bank::Code => false,
        }
    }

    /// Keeps what a call of processor `cpu` means for this processor, `number`. The call's turn, if
    /// it makes one, is `turn`.
    pub(crate) fn note(&mut self, number: u8, cpu: Cpu, request: &Request, reply: Reply, turn: u64)
        requires { PortHasRoom turn self.old }
        ensures { Noted (cpu_number cpu == number) number turn request.now reply self.old self.new }
    {
        let own = cpu.number() == number;
        self.pending = pending_after(self.pending, own, number, request);
        if own {
            self.note_own(request, reply);
        } else {
            self.note_other(line_written(request, reply), turn);
        }
    }

    /// Keeps what an own call means.
    fn note_own(&mut self, request: &Request, reply: Reply)
        ensures even { self.new.even
            ≡ queue (late_by_own Even request.now reply self.old.even.pairs) self.old.even.room }
        ensures odd { self.new.odd
            ≡ queue (late_by_own Odd request.now reply self.old.odd.pairs) self.old.odd.room }
        ensures lock { locked_block self.new.lock
            ≡ lock_by_own request.now (locked_block self.old.lock) }
        ensures pending { self.new.pending ≡ self.old.pending }
    {
        match request {
            Request::Barrier { .. } => self.deliver_all(),
            Request::CodeBarrier { .. } => self.deliver_all(),
            Request::Take { bank } => self.deliver(*bank, reply),
            Request::Locked { address } => self.lock.set(*address),
            Request::Conditional { .. } => self.lock.release(),
            _ => (),
        }
    }

    /// Drops all that is late.
    fn deliver_all(&mut self)
        ensures even { self.new.even ≡ queue [] self.old.even.room }
        ensures odd { self.new.odd ≡ queue [] self.old.odd.room }
        ensures lock { self.new.lock ≡ self.old.lock }
        ensures pending { self.new.pending ≡ self.old.pending }
    {
        self.even.clear();
        self.odd.clear();
    }

    /// Drops what a take was answered.
    fn deliver(&mut self, bank: Bank, reply: Reply)
        ensures even { self.new.even
            ≡ queue (late_by_own Even (request.Take bank) reply self.old.even.pairs)
            self.old.even.room }
        ensures odd { self.new.odd
            ≡ queue (late_by_own Odd (request.Take bank) reply self.old.odd.pairs)
            self.old.odd.room }
        ensures lock { self.new.lock ≡ self.old.lock }
        ensures pending { self.new.pending ≡ self.old.pending }
    {
        let Reply::Late { .. } = reply else { return };
        match bank {
            Bank::Even => {
                let _ = self.even.take();
            }
            Bank::Odd => {
                let _ = self.odd.take();
            }
            Bank::Code => (),
        }
    }

    /// Keeps what another processor's call means that wrote this line, if one, in this turn.
    fn note_other(&mut self, line: Option<Line>, turn: u64)
        requires { PortHasRoom turn self.old }
        ensures even { self.new.even
            ≡ queue (late_by_other Even line turn self.old.even.pairs) self.old.even.room }
        ensures odd { self.new.odd
            ≡ queue (late_by_other Odd line turn self.old.odd.pairs) self.old.odd.room }
        ensures lock { locked_block self.new.lock
            ≡ lock_by_other line (locked_block self.old.lock) }
        ensures pending { self.new.pending ≡ self.old.pending }
    {
        let Some(line) = line else { return };
        self.lock.disturb(line);
        match line.bank() {
            Bank::Even => self.even.add(line, turn),
            _ => self.odd.add(line, turn),
        }
    }
}

/// Whether a queue keeps a pair.
fn has_pair(queue: &LateQueue) -> bool
    ensures { result ≡ not (is_empty queue.now.pairs) }
{
    queue.oldest().is_some()
}

/// A port of nothing for each of `cpus` processors, with room for this many pairs of each bank.
pub(crate) fn fresh_ports(alloc: Global, cpus: u8, room: u32) -> Result<Vec<Port>, NoMemory>
    ensures fresh { IfOk result (λ ports. AreFresh room ports.items) }
    ensures count { IfOk result (λ ports. length ports.items ≡ cpus) }
{
    let mut ports = Vec::with_capacity(alloc, usize::from(cpus))?;
    for _ in 0..cpus {
        ports.push(Port::with_room(alloc, room)?)?;
    }
    Ok(ports)
}

/// Whether an interrupt of processor `number` is requested after a call.
fn pending_after(before: bool, own: bool, number: u8, request: &Request) -> bool
    ensures { result ≡ pending_after own number request.now before }
{
    match request {
        Request::Signal { target } => target.number() == number || before,
        Request::Poll { below } => before && !(own && *below),
        _ => before,
    }
}
