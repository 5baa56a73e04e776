//! What a call leaves of each part of the bus, for any request and reply.
ghost use Rattle.std.specs.Prelude.{◌≡◌, ◌+◌, ◌++◌, ◌^◌, ◌<◌, ◌≤◌, ℕ, length, if◌then◌else◌};
ghost use Rattle.std.specs.Vec.{vec_capacity};
ghost use Rattle.axp_base.specs.Cpus.{cpu_number};
ghost use Rattle.axp_memory.specs.Bytes.{AreLines};
ghost use Rattle.axp_line.specs.BusCalls.{is_turn, overwritten, printed_by, write_made};
ghost use Rattle.axp_bus.specs.Buses.{Agrees, HaveRoom, MayAsk, NotedAll};

use crate::ports::Port;
use crate::writes::conditional_write;
use axp_base::Cpu;
use axp_line::{Reply, Request};
use axp_memory::Ram;

/// Keeps a call in every port.
pub(crate) fn note_all(ports: &mut [Port], cpu: Cpu, request: &Request, reply: Reply, turn: u64)
    requires few { length ports.old < 2 ^ 8 }
    requires room { HaveRoom turn ports.old }
    ensures noted { NotedAll (cpu_number cpu) turn request.now reply ports.old ports.new }
    ensures size { length ports.new ≡ length ports.old }
{
    for n in 0..ports.len() {
        ports[n].note(n as u8, cpu, request, reply, turn);
    }
}

/// Writes to memory what a call wrote.
pub(crate) fn write_down(memory: &mut Ram, request: &Request, reply: Reply)
    requires asks { (cpus : ℕ) × MayAsk (length memory.old) cpus request.now }
    requires whole { AreLines memory.old }
    ensures bytes { (m : ℕ → ℕ) → Agrees memory.old m
        → Agrees memory.new (overwritten (write_made request.now reply) m) }
    ensures size { length memory.new ≡ length memory.old }
{
    let Reply::Stored { .. } = reply else { return };
    match request {
        Request::Drain { line, mask, bytes } => memory.write(*line, *mask, bytes),
        Request::Conditional {
            address,
            size,
            value,
            ..
        } => {
            let write = conditional_write(*address, *size, *value);
            memory.write(write.line, write.mask, &write.bytes);
        }
        _ => (),
    }
}

/// How many turns were made after a call.
pub(crate) fn turns_after(turns: u64, reply: Reply) -> u64
    requires { turns < 2 ^ 32 }
    ensures { result ≡ (if is_turn reply then turns + 1 else turns) }
{
    match reply {
        Reply::Stored { .. } => turns + 1,
        Reply::Signalled { .. } => turns + 1,
        _ => turns,
    }
}

/// Sends to the console what a call sends.
pub(crate) fn print(printed: &mut Vec<u8>, request: &Request)
    requires { length printed.old.items < vec_capacity printed.old }
    ensures bytes { printed.new.items ≡ printed.old.items ++ printed_by request.now }
    ensures space { vec_capacity printed.new ≡ vec_capacity printed.old }
{
    if let Request::Console { byte } = request {
        printed.push_reserved(*byte);
    }
}
