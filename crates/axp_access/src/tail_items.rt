use axp_base::{Bytes, Cpu};

/// One line of a trace's tail: what the events left.
#[derive(Debug, Drop)]
pub enum TailItem {
    /// How a processor ended.
    Cpu {
        /// The processor.
        cpu: Cpu,
        /// 0 where its budget is spent, else its halt code, 1 to 4.
        halt: u8,
        /// How many steps it made, 0 to 32,768.
        steps: u32,
        /// The program counter after its last whole instruction: any number.
        pc: u64,
    },
    /// A register of a processor, after its last whole instruction.
    Reg {
        /// The processor.
        cpu: Cpu,
        /// The register's number, 0 to 30.
        n: u8,
        /// Its value: any number but 0, since a register that is 0 has no line.
        value: u64,
    },
    /// An aligned quadword of memory that a write touched.
    Mem {
        /// Its physical address, a multiple of 8 below 2^32.
        address: u64,
        /// Its bytes as a little-endian number: any number.
        value: u64,
    },
    /// All that was sent to the console.
    Console {
        /// The bytes, in the order in which they were sent; none where nothing was sent.
        bytes: Bytes,
    },
    /// The end of the trace.
    End {
        /// How many events the trace has: any number of 32 bits.
        events: u32,
    },
}
