//! The bus.
ghost use Rattle.std.specs.Prelude.{◌≡◌, ◌+◌, ◌++◌, ◌*◌, ◌%◌, ◌^◌, ◌<◌, ◌≤◌, ◌∷◌, [], ℕ, List};
ghost use Rattle.std.specs.Prelude.{IfOk, Some, length, not, slice_get, if◌then◌else◌};
ghost use Rattle.axp_base.specs.Cpus.{cpu_number};
ghost use Rattle.axp_base.specs.Parts.{part};
ghost use Rattle.axp_base.specs.declared.parts.TheConstants.{QUADWORD_BYTES};
ghost use Rattle.axp_base.specs.declared.processors.TheConstants.{MAX_CPUS, MIN_CPUS};
ghost use Rattle.axp_image.specs.Contents.{byte_in};
ghost use Rattle.axp_memory.specs.Bytes.{AreLines};
ghost use Rattle.axp_line.specs.BusCalls.{BusCall, is_turn, printed_by};
ghost use Rattle.axp_line.specs.BusReply.{bus_reply};
ghost use Rattle.axp_base.specs.Lists.{is_empty};
ghost use Rattle.axp_bus.specs.Buses.{MayAsk};
ghost use Rattle.axp_bus.specs.Ports.{late_for};
ghost use Rattle.axp_bus.specs.BusStands.{Stands, call_of};

use crate::marks::mark_down;
use crate::ports::{Port, fresh_ports};
use crate::replies::reply_at;
use crate::steps::{note_all, print, turns_after, write_down};
use axp_base::{Bank, Cpu, LINE_BYTES, Line, NoMemory, QUADWORD_BYTES};
use axp_image::Image;
use axp_line::{Reply, Request};
use axp_memory::Ram;
use std::alloc::Global;
use std::marker::Model;

/// The bus: memory, which of its quadwords were written, what it keeps for each processor, how many
/// turns were made, and what went to the console. All room is taken when it is made.
#[derive(Debug, Drop)]
pub struct Bus {
    memory: Ram,
    touched: Vec<bool>,
    turns: u64,
    ports: Vec<Port>,
    printed: Vec<u8>,
    room: u32,
}

impl Model for Bus {
    ghost use Rattle.axp_bus.specs.Buses.{State};

    ghost Value = { State };

    ghost use Rattle.axp_bus.specs.BusParts.{state_of, IsTidy};

    ghost view = { state_of };

    ghost invariant = { IsTidy };
}

impl Bus {
    /// The bus of the memory that an image describes and of `cpus` processors, with room for `room`
    /// turns and for as many bytes to the console; [`NoMemory`] where memory was not found for it.
    pub fn load(alloc: Global, image: &Image, cpus: u8, room: u32) -> Result<Bus, NoMemory>
        requires least { MIN_CPUS ≤ cpus }
        requires most { cpus ≤ MAX_CPUS }
        ensures stands { IfOk result (λ b. Stands b (byte_in image.now.segments) []) }
        ensures size { IfOk result (λ b. length b.memory ≡ image.now.size) }
        ensures cpus { IfOk result (λ b. length b.ports ≡ cpus) }
        ensures room { IfOk result (λ b. b.room ≡ room) }
    {
        let memory = Ram::load(alloc, image)?;
        let quadwords = (memory.size() / QUADWORD_BYTES) as usize;
        let touched = vec![in alloc; false; quadwords]?;
        let ports = fresh_ports(alloc, cpus, room)?;
        let printed = Vec::with_capacity(alloc, room as usize)?;
        Ok(Bus {
            memory,
            touched,
            turns: 0,
            ports,
            printed,
            room,
        })
    }

    /// Answers a request of a processor.
    pub fn turn(&mut self, cpu: Cpu, request: &Request) -> Reply
        requires cpu { cpu_number cpu < length self.old.ports }
        requires asks { MayAsk (length self.old.memory) (length self.old.ports) request.now }
        requires turns { self.old.turns < self.old.room }
        requires printed { length self.old.printed < self.old.room }
        ensures reply { (image : ℕ → ℕ) (calls : List BusCall) → Stands self.old image calls
            → result ≡ bus_reply image calls (cpu_number cpu) request.now }
        ensures stands { (image : ℕ → ℕ) (calls : List BusCall) → Stands self.old image calls
            → Stands self.new image (call_of cpu request.now result ∷ calls) }
        ensures turns { self.new.turns
            ≡ (if is_turn result then self.old.turns + 1 else self.old.turns) }
        ensures printed { self.new.printed ≡ self.old.printed ++ printed_by request.now }
        ensures size { length self.new.memory ≡ length self.old.memory }
        ensures cpus { length self.new.ports ≡ length self.old.ports }
        ensures room { self.new.room ≡ self.old.room }
    {
        let port = &self.ports[usize::from(cpu.number())];
        let reply = reply_at(&self.memory, self.turns, port, request);
        note_all(
            self.ports.as_mut_slice(),
            cpu,
            request,
            reply,
            self.turns + 1,
        );
        write_down(&mut self.memory, request, reply);
        mark_down(self.touched.as_mut_slice(), request, reply);
        print(&mut self.printed, request);
        self.turns = turns_after(self.turns, reply);
        reply
    }

    /// Whether something is late for a processor in a bank; in the code bank nothing ever is.
    pub fn late(&self, cpu: Cpu, bank: Bank) -> bool
        requires { cpu_number cpu < length self.now.ports }
        ensures { result ≡ not (is_empty (late_for (cpu_number cpu) bank self.now.ports)) }
    {
        self.ports[usize::from(cpu.number())].late(bank)
    }

    /// The quadword at an address of memory.
    pub fn tail_memory(&self, address: u64) -> u64
        requires aligned { address % QUADWORD_BYTES ≡ 0 }
        requires inside { address < length self.now.memory }
        ensures { result ≡ part self.now.memory address QUADWORD_BYTES }
    {
        let line = self.memory.line(Line::of(address));
        line.get((address % LINE_BYTES) as u8, QUADWORD_BYTES as u8)
    }

    /// Whether a turn wrote a byte of the aligned quadword of this number.
    pub fn is_touched(&self, quadword: u64) -> bool
        requires { quadword * QUADWORD_BYTES < length self.now.memory }
        ensures { slice_get self.now.touched quadword ≡ Some result }
    {
        self.touched[quadword as usize]
    }

    /// The bytes that went to the console.
    pub fn console(&self) -> &[u8]
        ensures { result.now ≡ self.now.printed }
    {
        self.printed.as_slice()
    }

    /// How many turns were made.
    pub fn turns(&self) -> u64
        ensures value { result ≡ self.now.turns }
        ensures few { result ≤ self.now.room }
    {
        self.turns
    }

    /// The size of memory in bytes, a whole number of lines.
    pub fn size(&self) -> u64
        ensures value { result ≡ length self.now.memory }
        ensures whole { AreLines self.now.memory }
    {
        self.memory.size()
    }

    /// The number of processors.
    pub fn cpus(&self) -> u8
        ensures value { result ≡ length self.now.ports }
        ensures most { result ≤ MAX_CPUS }
    {
        self.ports.len() as u8
    }

    /// For how many turns there is room, those made included, and for how many bytes to the
    /// console.
    pub fn room(&self) -> u32
        ensures { result ≡ self.now.room }
    {
        self.room
    }
}
