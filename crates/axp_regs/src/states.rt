ghost use Rattle.std.specs.Prelude.{◌≡◌, ◌<◌};
ghost use Rattle.axp_regs.specs.States.{register, with_register, entry_of, with_entry, number_of};
ghost use Rattle.axp_regs.specs.States.{first_state, pc_of, with_pc, ps_of, with_ps, ksp_of};
ghost use Rattle.axp_regs.specs.States.{with_ksp, usp_of, with_usp, kgp_of, with_kgp, ptbr_of};
ghost use Rattle.axp_regs.specs.States.{with_ptbr, pcbb_of, with_pcbb, asn_of, with_asn, offset_of};
ghost use Rattle.axp_regs.specs.States.{with_offset, unique_of, with_unique, fen_of, with_fen};
ghost use Rattle.axp_regs.specs.States.{sysvalue_of, with_sysvalue, vptptr_of, with_vptptr};
ghost use Rattle.axp_regs.specs.States.{locked_of, with_locked, fetched_of, with_fetched};

/// How many integer registers a processor has.
pub const REGISTERS: usize = 32;

/// The register that reads as 0 and whose writes are lost.
pub const ZERO_REGISTER: u8 = 31;

/// How many entries to the operating system a processor has.
pub const ENTRIES: usize = 6;

/// The processor status at the start: kernel mode, interrupt level 7.
pub const FIRST_PS: u64 = 7;

/// The registers of one processor: the integer registers, the program counter, the processor
/// status, the internal registers of PALcode, the lock flag and the count of fetched instructions.
#[derive(Clone, Copy, Debug)]
pub struct State {
    registers: [u64; REGISTERS],
    pc: u64,
    ps: u64,
    ksp: u64,
    usp: u64,
    kgp: u64,
    ptbr: u64,
    pcbb: u64,
    asn: u32,
    offset: u32,
    unique: u64,
    fen: bool,
    sysvalue: u64,
    vptptr: u64,
    locked: bool,
    fetched: u32,
    entries: [u64; ENTRIES],
    number: u8,
}

impl State {
    /// The state of a processor of this number at the start: the status is [`FIRST_PS`], all else
    /// is 0 or false.
    pub fn new(number: u8) -> State
        ensures { result ≡ first_state number }
    {
        State {
            registers: [0; REGISTERS],
            pc: 0,
            ps: FIRST_PS,
            ksp: 0,
            usp: 0,
            kgp: 0,
            ptbr: 0,
            pcbb: 0,
            asn: 0,
            offset: 0,
            unique: 0,
            fen: false,
            sysvalue: 0,
            vptptr: 0,
            locked: false,
            fetched: 0,
            entries: [0; ENTRIES],
            number,
        }
    }

    /// The value of register `n`, below 32; R31 reads as 0.
    pub fn get(&self, n: u8) -> u64
        requires { n < REGISTERS }
        ensures { result ≡ register self.now n }
    {
        if n == ZERO_REGISTER {
            0
        } else {
            self.registers[usize::from(n)]
        }
    }

    /// Writes register `n`, below 32; a write of R31 is lost.
    pub fn set(&mut self, n: u8, value: u64)
        requires { n < REGISTERS }
        ensures { self.new ≡ with_register self.old n value }
    {
        if n != ZERO_REGISTER {
            self.registers[usize::from(n)] = value;
        }
    }

    /// The address of entry `n` to the operating system, below 6.
    pub fn entry(&self, n: u8) -> u64
        requires { n < ENTRIES }
        ensures { result ≡ entry_of self.now n }
    {
        self.entries[usize::from(n)]
    }

    /// Writes the address of entry `n`, below 6.
    pub fn set_entry(&mut self, n: u8, value: u64)
        requires { n < ENTRIES }
        ensures { self.new ≡ with_entry self.old n value }
    {
        self.entries[usize::from(n)] = value;
    }

    /// The processor's number.
    pub fn number(&self) -> u8
        ensures { result ≡ number_of self.now }
    {
        self.number
    }

    /// The program counter.
    pub fn pc(&self) -> u64
        ensures { result ≡ pc_of self.now }
    {
        self.pc
    }

    /// Writes the program counter.
    pub fn set_pc(&mut self, value: u64)
        ensures { self.new ≡ with_pc self.old value }
    {
        self.pc = value;
    }

    /// The processor status: bits 2:0 the interrupt level, bit 3 the mode (1 user).
    pub fn ps(&self) -> u64
        ensures { result ≡ ps_of self.now }
    {
        self.ps
    }

    /// Writes the processor status: bits 2:0 the interrupt level, bit 3 the mode (1 user).
    pub fn set_ps(&mut self, value: u64)
        ensures { self.new ≡ with_ps self.old value }
    {
        self.ps = value;
    }

    /// The kernel stack pointer, kept in user mode.
    pub fn ksp(&self) -> u64
        ensures { result ≡ ksp_of self.now }
    {
        self.ksp
    }

    /// Writes the kernel stack pointer, kept in user mode.
    pub fn set_ksp(&mut self, value: u64)
        ensures { self.new ≡ with_ksp self.old value }
    {
        self.ksp = value;
    }

    /// The user stack pointer, kept in kernel mode.
    pub fn usp(&self) -> u64
        ensures { result ≡ usp_of self.now }
    {
        self.usp
    }

    /// Writes the user stack pointer, kept in kernel mode.
    pub fn set_usp(&mut self, value: u64)
        ensures { self.new ≡ with_usp self.old value }
    {
        self.usp = value;
    }

    /// The global pointer of the kernel.
    pub fn kgp(&self) -> u64
        ensures { result ≡ kgp_of self.now }
    {
        self.kgp
    }

    /// Writes the global pointer of the kernel.
    pub fn set_kgp(&mut self, value: u64)
        ensures { self.new ≡ with_kgp self.old value }
    {
        self.kgp = value;
    }

    /// The page of memory on which the page table begins.
    pub fn ptbr(&self) -> u64
        ensures { result ≡ ptbr_of self.now }
    {
        self.ptbr
    }

    /// Writes the page of memory on which the page table begins.
    pub fn set_ptbr(&mut self, value: u64)
        ensures { self.new ≡ with_ptbr self.old value }
    {
        self.ptbr = value;
    }

    /// The physical address of the process control block.
    pub fn pcbb(&self) -> u64
        ensures { result ≡ pcbb_of self.now }
    {
        self.pcbb
    }

    /// Writes the physical address of the process control block.
    pub fn set_pcbb(&mut self, value: u64)
        ensures { self.new ≡ with_pcbb self.old value }
    {
        self.pcbb = value;
    }

    /// The address space number.
    pub fn asn(&self) -> u32
        ensures { result ≡ asn_of self.now }
    {
        self.asn
    }

    /// Writes the address space number.
    pub fn set_asn(&mut self, value: u32)
        ensures { self.new ≡ with_asn self.old value }
    {
        self.asn = value;
    }

    /// The offset of the cycle counter.
    pub fn offset(&self) -> u32
        ensures { result ≡ offset_of self.now }
    {
        self.offset
    }

    /// Writes the offset of the cycle counter.
    pub fn set_offset(&mut self, value: u32)
        ensures { self.new ≡ with_offset self.old value }
    {
        self.offset = value;
    }

    /// The unique value of the process.
    pub fn unique(&self) -> u64
        ensures { result ≡ unique_of self.now }
    {
        self.unique
    }

    /// Writes the unique value of the process.
    pub fn set_unique(&mut self, value: u64)
        ensures { self.new ≡ with_unique self.old value }
    {
        self.unique = value;
    }

    /// Whether floating instructions are enabled.
    pub fn fen(&self) -> bool
        ensures { result ≡ fen_of self.now }
    {
        self.fen
    }

    /// Writes whether floating instructions are enabled.
    pub fn set_fen(&mut self, value: bool)
        ensures { self.new ≡ with_fen self.old value }
    {
        self.fen = value;
    }

    /// The system value.
    pub fn sysvalue(&self) -> u64
        ensures { result ≡ sysvalue_of self.now }
    {
        self.sysvalue
    }

    /// Writes the system value.
    pub fn set_sysvalue(&mut self, value: u64)
        ensures { self.new ≡ with_sysvalue self.old value }
    {
        self.sysvalue = value;
    }

    /// The virtual address of the page table.
    pub fn vptptr(&self) -> u64
        ensures { result ≡ vptptr_of self.now }
    {
        self.vptptr
    }

    /// Writes the virtual address of the page table.
    pub fn set_vptptr(&mut self, value: u64)
        ensures { self.new ≡ with_vptptr self.old value }
    {
        self.vptptr = value;
    }

    /// Whether the lock flag is set.
    pub fn locked(&self) -> bool
        ensures { result ≡ locked_of self.now }
    {
        self.locked
    }

    /// Writes the lock flag.
    pub fn set_locked(&mut self, value: bool)
        ensures { self.new ≡ with_locked self.old value }
    {
        self.locked = value;
    }

    /// How many instructions were fetched, modulo 2^32.
    pub fn fetched(&self) -> u32
        ensures { result ≡ fetched_of self.now }
    {
        self.fetched
    }

    /// Writes how many instructions were fetched, modulo 2^32.
    pub fn set_fetched(&mut self, value: u32)
        ensures { self.new ≡ with_fetched self.old value }
    {
        self.fetched = value;
    }
}
