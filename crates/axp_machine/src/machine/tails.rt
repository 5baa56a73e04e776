//! The tail of a trace, item by item.
ghost use Rattle.std.specs.Prelude.{◌≡◌, ◌-◌, ◌<◌, ◌≤◌, true, drop, slice_get, IfOk};
ghost use Rattle.axp_base.specs.Cpus.{cpu_number};
ghost use Rattle.axp_model.specs.Console.{printed};
ghost use Rattle.axp_machine.specs.Runs.{Seen, is_complete};
ghost use Rattle.axp_machine.specs.Tails.{IsNext, IsPlace, IsRegister, console_item, cpu_at};
ghost use Rattle.axp_machine.specs.Tails.{ended, item_at, items_from, place_behind};
ghost use Rattle.axp_machine.specs.Tails.{quadword_item, quadwords, register_item, tail_items};

use super::Machine;
use axp_access::TailItem;
use axp_base::{Bytes, Cpu, NoMemory, QUADWORD_BYTES};
use axp_regs::ZERO_REGISTER;
use std::alloc::Global;

/// A place in the tail of a trace, whose items `docs/FORMATS.md` lists in their order. A place need
/// not have an item: a register may be 0, and a quadword untouched.
#[derive(Clone, Copy, Debug, PartialEq, Eq)]
pub enum TailAt {
    /// How the processor of this number ended; a number that no processor has stands behind all
    /// processors.
    Processor(u8),
    /// A register of a processor: the processor's number, and the register's; a number above 30
    /// stands behind its registers.
    Register(u8, u8),
    /// The aligned quadword of memory of this number; a number beyond memory stands behind it.
    Quadword(u64),
    /// All that went to the console.
    Console,
    /// The number of events.
    End,
    /// Behind the last item.
    Past,
}

impl TailAt {
    /// The place of the first item.
    pub fn start() -> TailAt
        ensures { (m : Seen) → items_from m result ≡ tail_items m }
    {
        TailAt::Processor(0)
    }
}

impl Machine {
    /// The item of this number, counted from 1, of a complete machine's tail (`docs/FORMATS.md`, the
    /// trace); `None` exactly past the last. [`NoMemory`] where memory was not found for the bytes
    /// of the console.
    pub fn tail(&self, alloc: Global, n: u32) -> Result<Option<TailItem>, NoMemory>
        requires complete { is_complete self.now ≡ true }
        requires first { 1 ≤ n }
        ensures { IfOk result (λ item. item ≡ slice_get (tail_items self.now) (n - 1)) }
    {
        let at = self.item_place(self.place_of(n));
        self.item(alloc, at)
    }

    /// The first item that stands at a place of the tail or behind it, and the place where those
    /// behind it begin; `None` exactly where there is none. From [`TailAt::start`] on, these are the
    /// items of [`Machine::tail`] in their order. A processor that is not halted is told with the
    /// halt code 0, also where its budget is not spent yet. [`NoMemory`] where memory was not found
    /// for the bytes of the console.
    pub fn tail_next(
        &self,
        alloc: Global,
        at: TailAt,
    ) -> Result<Option<(TailItem, TailAt)>, NoMemory>
        ensures { IfOk result (IsNext self.now at) }
    {
        let place = self.item_place(at);
        match self.item(alloc, place)? {
            Some(item) => Ok(Some((item, self.behind(place)))),
            None => Ok(None),
        }
    }

    /// Where the items from the n-th on begin, counted from 1.
    fn place_of(&self, n: u32) -> TailAt
        requires { 1 ≤ n }
        ensures { items_from self.now result ≡ drop (n - 1) (tail_items self.now) }
    {
        let mut at = TailAt::start();
        for _passed in 0..n - 1 {
            let place = self.item_place(at);
            if let TailAt::Past = place {
                return place;
            }
            at = self.behind(place);
        }
        at
    }

    /// The place of the first item that stands at a place or behind it.
    fn item_place(&self, at: TailAt) -> TailAt
        ensures same { items_from self.now result ≡ items_from self.now at }
        ensures place { IsPlace self.now result }
    {
        match at {
            TailAt::Processor(p) => self.processor_place(p),
            TailAt::Register(p, n) => {
                if p < self.cpus() {
                    self.register_place(p, n)
                } else {
                    self.quadword_place(0)
                }
            }
            TailAt::Quadword(q) => self.quadword_place(q),
            TailAt::Console => TailAt::Console,
            TailAt::End => TailAt::End,
            TailAt::Past => TailAt::Past,
        }
    }

    /// The same of a processor.
    fn processor_place(&self, p: u8) -> TailAt
        ensures same { items_from self.now result ≡ items_from self.now (TailAt.Processor p) }
        ensures place { IsPlace self.now result }
    {
        if p < self.cpus() {
            TailAt::Processor(p)
        } else {
            self.quadword_place(0)
        }
    }

    /// The same of a register.
    fn register_place(&self, p: u8, n: u8) -> TailAt
        requires { p < self.now.cpus }
        ensures same { items_from self.now result ≡ items_from self.now (TailAt.Register p n) }
        ensures place { IsPlace self.now result }
    {
        let cpu = self.cpu_numbered(p);
        for k in n..ZERO_REGISTER {
            if self.register(cpu, k) != 0 {
                return TailAt::Register(p, k);
            }
        }
        self.processor_place(p + 1)
    }

    /// The same of a quadword.
    fn quadword_place(&self, q: u64) -> TailAt
        ensures same { items_from self.now result ≡ items_from self.now (TailAt.Quadword q) }
        ensures place { IsPlace self.now result }
    {
        let quadwords = self.memory_size() / QUADWORD_BYTES;
        for k in q..quadwords {
            if self.is_touched(k) {
                return TailAt::Quadword(k);
            }
        }
        TailAt::Console
    }

    /// The place behind an item's; behind the last it stays.
    fn behind(&self, at: TailAt) -> TailAt
        requires { IsPlace self.now at }
        ensures { result ≡ place_behind at }
    {
        let _ = &self.image; // a quadword of it has a number far below 2^64
        match at {
            TailAt::Processor(p) => TailAt::Register(p, 0),
            TailAt::Register(p, n) => TailAt::Register(p, n + 1),
            TailAt::Quadword(q) => TailAt::Quadword(q + 1),
            TailAt::Console => TailAt::End,
            TailAt::End => TailAt::Past,
            TailAt::Past => TailAt::Past,
        }
    }

    /// The item at a place that has one.
    fn item(&self, alloc: Global, at: TailAt) -> Result<Option<TailItem>, NoMemory>
        requires { IsPlace self.now at }
        ensures { IfOk result (λ item. item ≡ item_at self.now at) }
    {
        match at {
            TailAt::Processor(p) => Ok(Some(self.processor_item(p))),
            TailAt::Register(p, n) => Ok(Some(self.register_item(p, n))),
            TailAt::Quadword(q) => Ok(Some(self.quadword_item(q))),
            TailAt::Console => Ok(Some(self.console_item(alloc)?)),
            TailAt::End => Ok(Some(TailItem::End {
                events: self.events(),
            })),
            TailAt::Past => Ok(None),
        }
    }

    /// How a processor ended.
    fn processor_item(&self, p: u8) -> TailItem
        requires { p < self.now.cpus }
        ensures { result ≡ ended self.now p }
    {
        let cpu = self.cpu_numbered(p);
        TailItem::Cpu {
            cpu,
            halt: self.halted(cpu).unwrap_or(0),
            steps: self.steps(cpu),
            pc: self.pc(cpu),
        }
    }

    /// A register of a processor.
    fn register_item(&self, p: u8, n: u8) -> TailItem
        requires { IsRegister self.now p n }
        ensures { result ≡ register_item self.now p n }
    {
        let cpu = self.cpu_numbered(p);
        TailItem::Reg {
            cpu,
            n,
            value: self.register(cpu, n),
        }
    }

    /// A quadword of memory.
    fn quadword_item(&self, q: u64) -> TailItem
        requires { q < quadwords self.now }
        ensures { result ≡ quadword_item self.now q }
    {
        let _ = &self.image;
        TailItem::Mem {
            address: q * QUADWORD_BYTES,
            value: self.quadword(q),
        }
    }

    /// All that went to the console.
    fn console_item(&self, alloc: Global) -> Result<TailItem, NoMemory>
        ensures { IfOk result (λ item. item ≡ console_item self.now) }
    {
        let bytes = Bytes::copy(alloc, self.console())?;
        Ok(TailItem::Console { bytes })
    }

    /// The bytes that went to the console, in the order in which they were sent.
    fn console(&self) -> &[u8]
        ensures { result.now ≡ printed self.now.records }
    {
        self.bus.console()
    }

    /// The processor of a number.
    fn cpu_numbered(&self, p: u8) -> Cpu
        requires { p < self.now.cpus }
        ensures is { result ≡ cpu_at p }
        ensures number { cpu_number result ≡ p }
    {
        let _ = &self.processors;
        let Some(cpu) = Cpu::new(p) else {
            unreachable!()
        };
        cpu
    }
}
