//! What the bus answers, by its parts.
ghost use Rattle.std.specs.Prelude.{◌≡◌, ◌+◌, ◌*◌, ◌^◌, ◌<◌, ◌&&◌, ℕ, Some};
ghost use Rattle.std.specs.Prelude.{length};
ghost use Rattle.axp_base.specs.Lines.{line_number};
ghost use Rattle.axp_base.specs.declared.lines.TheConstants.{LINE_BYTES};
ghost use Rattle.axp_base.specs.Blocks.{is_allowed};
ghost use Rattle.axp_lockreg.specs.Blocks.{locked_block};
ghost use Rattle.axp_line.specs.BusCalls.{overwritten};
ghost use Rattle.axp_line.specs.BusReply.{first_late, gone, is_late, late_in};
ghost use Rattle.axp_line.specs.BusReply.{line_of_memory, line_reply, reply_by, stored_reply};
ghost use Rattle.axp_line.specs.BusReply.{conditional_reply};
ghost use Rattle.axp_bus.specs.Buses.{Agrees, MayAsk, port_state_of};
ghost use Rattle.axp_bus.specs.Writes.{written_of};

use crate::ports::Port;
use crate::writes::{Write, conditional_write};
use axp_base::{Bank, Line};
use axp_inval::LateQueue;
use axp_line::{Held, LineData, Reply, Request};
use axp_memory::Ram;

/// The bytes of a line of memory.
fn line_now(memory: &Ram, line: Line) -> LineData
    requires { line_number line * LINE_BYTES < length memory.now }
    ensures { (m : ℕ → ℕ) → Agrees memory.now m → result ≡ line_of_memory m line }
{
    memory.line(line)
}

/// The bytes of a write's line after it.
fn line_after(memory: &Ram, write: &Write) -> LineData
    requires { line_number write.now.line * LINE_BYTES < length memory.now }
    ensures { (m : ℕ → ℕ) → Agrees memory.now m
        → result ≡ line_of_memory (overwritten (Some (written_of write.now)) m) write.now.line }
{
    let mut bytes = memory.line(write.line);
    bytes.merge(write.mask, &write.bytes);
    bytes
}

/// The answer to a fill or a load-locked.
fn line_reply(memory: &Ram, turns: u64, line: Line) -> Reply
    requires { line_number line * LINE_BYTES < length memory.now }
    ensures { (m : ℕ → ℕ) (port : Port) → Agrees memory.now m
        → result ≡ line_reply (port_state_of m turns port) line }
{
    Reply::Line {
        turn: turns,
        bytes: line_now(memory, line),
    }
}

/// The answer to what is written.
fn stored_reply(memory: &Ram, turns: u64, write: &Write) -> Reply
    requires inside { line_number write.now.line * LINE_BYTES < length memory.now }
    requires turns { turns < 2 ^ 32 }
    ensures { (m : ℕ → ℕ) (port : Port) → Agrees memory.now m → result
        ≡ stored_reply (port_state_of m turns port) (Some (written_of write.now)) write.now.line }
{
    Reply::Stored {
        turn: turns + 1,
        bytes: line_after(memory, write),
    }
}

/// Whether a store-conditional to an address succeeds.
fn succeeds(port: &Port, address: u64, armed: bool) -> bool
    ensures { result ≡ (armed && is_allowed address (locked_block port.now.lock)) }
{
    armed && port.lock.allows(address)
}

/// The answer to a store-conditional that would write this, by whether it succeeds.
fn tried_reply(memory: &Ram, turns: u64, write: &Write, succeeds: bool) -> Reply
    requires inside { line_number write.now.line * LINE_BYTES < length memory.now }
    requires turns { turns < 2 ^ 32 }
    ensures { (m : ℕ → ℕ) (port : Port) → Agrees memory.now m → result
        ≡ conditional_reply succeeds (port_state_of m turns port) (Some (written_of write.now))
        write.now.line }
{
    if succeeds {
        stored_reply(memory, turns, write)
    } else {
        Reply::Refused { turn: turns }
    }
}

/// The oldest pair of a queue.
fn first_late(queue: &LateQueue) -> Reply
    ensures { result ≡ first_late queue.now.pairs }
{
    match queue.oldest() {
        None => Reply::Nothing,
        Some((line, turn)) => Reply::Late { line, turn },
    }
}

/// The answer to a take.
fn take_reply(port: &Port, bank: Bank) -> Reply
    ensures { (m : ℕ → ℕ) (turns : ℕ)
        → result ≡ first_late (late_in (port_state_of m turns port.now) bank) }
{
    match bank {
        Bank::Even => first_late(&port.even),
        Bank::Odd => first_late(&port.odd),
        Bank::Code => Reply::Nothing,
    }
}

/// Whether something late reaches a copy of the line at an address that has this stamp.
fn is_late(port: &Port, address: u32, stamp: u32) -> bool
    ensures { (m : ℕ → ℕ) (turns : ℕ) → result
        ≡ is_late (port_state_of m turns port.now) address stamp }
{
    let line = Line::of(u64::from(address));
    let stamp = u64::from(stamp);
    port.even.later(line, stamp) || port.odd.later(line, stamp)
}

/// One bit for each held copy, 1 where something late reaches it.
fn gone(port: &Port, held: &Held) -> u32
    ensures { (m : ℕ → ℕ) (turns : ℕ) → result ≡ gone (port_state_of m turns port.now) held.now }
{
    let mut bits = 0;
    for n in (0..held.len()).rev() {
        let (address, stamp) = held.get(n);
        bits = 2 * bits + u32::from(is_late(port, address, stamp));
    }
    bits
}

/// The reply to a request, by memory, the number of turns made, and the port of the processor.
#[tactic(auto, unfolding(axp_line::specs::BusReply::reply_by))]
pub(crate) fn reply_at(memory: &Ram, turns: u64, port: &Port, request: &Request) -> Reply
    requires asks { (cpus : ℕ) × MayAsk (length memory.now) cpus request.now }
    requires turns { turns < 2 ^ 32 }
    ensures { (m : ℕ → ℕ) → Agrees memory.now m
        → result ≡ reply_by (port_state_of m turns port.now) request.now }
{
    match request {
        Request::Fill { line } => line_reply(memory, turns, *line),
        Request::FillCode { line } => line_reply(memory, turns, *line),
        Request::Drain { line, mask, bytes } => {
            let write = Write {
                line: *line,
                mask: *mask,
                bytes: *bytes,
            };
            stored_reply(memory, turns, &write)
        }
        Request::Locked { address } => line_reply(memory, turns, Line::of(*address)),
        Request::Conditional {
            address,
            size,
            value,
            armed,
        } => {
            let write = conditional_write(*address, *size, *value);
            tried_reply(memory, turns, &write, succeeds(port, *address, *armed))
        }
        Request::Barrier { held } => Reply::Barrier {
            turn: turns,
            gone: gone(port, held),
        },
        Request::CodeBarrier { held } => Reply::Barrier {
            turn: turns,
            gone: gone(port, held),
        },
        Request::Take { bank } => take_reply(port, *bank),
        Request::Poll { .. } => Reply::Polled {
            pending: port.pending,
            turn: turns,
        },
        Request::Signal { .. } => Reply::Signalled { turn: turns + 1 },
        Request::Console { .. } => Reply::Printed { turn: turns },
    }
}
