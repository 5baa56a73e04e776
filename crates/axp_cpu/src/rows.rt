//! The rows of the instruction table.
ghost use Rattle.std.specs.Prelude.{◌≡◌, ◌<◌, ℕ};
ghost use Rattle.axp_base.specs.Sizes.{bytes_of};
ghost use Rattle.axp_cpu.specs.declared.cpu_states.CpuState.{CpuState};
ghost use Rattle.axp_cpu.specs.Phases.{continued, plan_of, ContinuationFits, FitsKind};
ghost use Rattle.axp_cpu.specs.Phases.{PhaseFits};
ghost use Rattle.axp_cpu.specs.Rows.{address_of, branch_target, branch_row, datum_plan};
ghost use Rattle.axp_cpu.specs.Rows.{barrier_plan, high_address_of, jump_row, load_locked_plan};
ghost use Rattle.axp_cpu.specs.Rows.{load_plan, memory_row, misc_row, operand, operate_row};
ghost use Rattle.axp_cpu.specs.Rows.{quadword_at, row, store_conditional_plan, store_plan};
ghost use Rattle.axp_decode.specs.Format.{FieldsFit, OperandFits};
ghost use Rattle.axp_regs.specs.declared.states.TheConstants.{REGISTERS};

use crate::calls::call_pal;
use crate::cpu_states::CpuState;
use crate::endings::Ending;
use crate::phases::{Continuation, Phase, Stage};
use crate::translation::Origin;
use crate::walks::reach;
use axp_access::Wanted;
use axp_base::{Size, sext};
use axp_branch::{taken, target};
use axp_bytes::bytes;
use axp_decode::{
    BYTE_OPCODE, BranchOp, Instr, MemOp, MiscOp, Op, Operand, memory_code, opcode_number,
};
use axp_integer::operate;
use axp_regs::{Ask, Kind, ZERO_REGISTER};
use axp_trap::{Cause, FLOATING_DISABLED, RESERVED_INSTRUCTION};

/// The row of an instruction.
#[tactic(auto, unfolding(crate::specs::Rows::row))]
pub fn instruct(size: u64, cpus: u8, table: &CpuState, instr: Instr) -> Phase
    requires { FieldsFit instr }
    ensures plan { plan_of size cpus table.now result ≡ row size cpus table.now instr }
    ensures fits { PhaseFits cpus table.now result }
{
    match instr {
        Instr::Memory { op, a, b, disp } => access(size, table, op, a, table.state.get(b), disp),
        Instr::Branch { op, a, disp } => branch(table, op, a, disp),
        Instr::Jump { a, b, .. } => jump(table, a, b),
        Instr::Operate { op, a, b, c } => {
            compute(table, op, table.state.get(a), read_operand(table, b), c)
        }
        Instr::Misc { op, a, .. } => misc(op, a),
        Instr::Pal { op } => call_pal(size, cpus, table, op),
        Instr::Floating { .. } => Phase::Ends(Ending::Raises {
            cause: Cause::If {
                code: FLOATING_DISABLED,
            },
        }),
        Instr::Reserved { .. } => Phase::Ends(Ending::RaisesBehind {
            cause: Cause::If {
                code: RESERVED_INSTRUCTION,
            },
        }),
    }
}

/// The memory format.
fn access(size: u64, table: &CpuState, op: MemOp, a: u8, base: u64, disp: u16) -> Phase
    requires { a < REGISTERS }
    ensures plan { (cpus : ℕ) → plan_of size cpus table.now result
        ≡ memory_row size table.now op a base disp }
    ensures fits { (cpus : ℕ) → PhaseFits cpus table.now result }
{
    let address = displaced(base, disp);
    let loaded = Continuation::Load { a };
    let long_loaded = Continuation::LoadLong { a };
    let locked = Continuation::LoadLocked { a };
    let long_locked = Continuation::LoadLockedLong { a };
    match op {
        MemOp::LDA => Phase::Ends(Ending::Writes {
            n: a,
            value: address,
        }),
        MemOp::LDAH => Phase::Ends(Ending::Writes {
            n: a,
            value: displaced_high(base, disp),
        }),
        MemOp::LDBU => load(size, table, op, Size::Byte, a, address, loaded),
        MemOp::LDWU => load(size, table, op, Size::Word, a, address, loaded),
        MemOp::LDL => load(size, table, op, Size::Long, a, address, long_loaded),
        MemOp::LDQ => load(size, table, op, Size::Quad, a, address, loaded),
        MemOp::LDQ_U => load(size, table, op, Size::Quad, a, quadword(address), loaded),
        MemOp::STB => store(size, table, op, Size::Byte, a, address),
        MemOp::STW => store(size, table, op, Size::Word, a, address),
        MemOp::STL => store(size, table, op, Size::Long, a, address),
        MemOp::STQ => store(size, table, op, Size::Quad, a, address),
        MemOp::STQ_U => store(size, table, op, Size::Quad, a, quadword(address)),
        MemOp::LDL_L => load_locked(size, table, op, Size::Long, a, address, long_locked),
        MemOp::LDQ_L => load_locked(size, table, op, Size::Quad, a, address, locked),
        MemOp::STL_C => store_conditional(size, table, op, Size::Long, a, address),
        MemOp::STQ_C => store_conditional(size, table, op, Size::Quad, a, address),
    }
}

/// The base plus the sign-extended displacement.
fn displaced(base: u64, disp: u16) -> u64
    ensures { result ≡ address_of base disp }
{
    base.wrapping_add(sext(u64::from(disp), 16))
}

/// The base plus 65,536 times the sign-extended displacement.
fn displaced_high(base: u64, disp: u16) -> u64
    ensures { result ≡ high_address_of base disp }
{
    base.wrapping_add(sext(u64::from(disp), 16).wrapping_mul(65_536))
}

/// The address with its three low bits cleared.
fn quadword(address: u64) -> u64
    ensures { result ≡ quadword_at address }
{
    address & !7
}

/// The access of a datum, and what follows with its value; an address that is not a multiple of the
/// datum's size is trapped.
fn reach_datum(
    size: u64,
    table: &CpuState,
    op: MemOp,
    a: u8,
    kind: Kind,
    what: Size,
    address: u64,
    value: u64,
    next: Continuation,
) -> Phase
    requires small { FitsKind kind (bytes_of what) value }
    ensures plan { (cpus : ℕ) → plan_of size cpus table.now result
        ≡ datum_plan size table.now op a kind what address value (continued size cpus next) }
    ensures fits { (cpus : ℕ) → ContinuationFits cpus table.now.state next
        → PhaseFits cpus table.now result }
{
    let ask = Ask {
        kind,
        address,
        direct: false,
        size: what.bytes(),
        value,
    };
    if address % u64::from(ask.size) == 0 {
        reach(size, table, Origin::Instruction, ask, next)
    } else {
        let opcode = memory_code(op);
        Phase::Ends(Ending::RaisesBehind {
            cause: Cause::Una {
                va: address,
                opcode,
                a,
            },
        })
    }
}

/// A load, and what follows with its value; into R31 it does nothing.
fn load(
    size: u64,
    table: &CpuState,
    op: MemOp,
    what: Size,
    a: u8,
    address: u64,
    next: Continuation,
) -> Phase
    ensures plan { (cpus : ℕ) → plan_of size cpus table.now result
        ≡ load_plan size table.now op what a address (continued size cpus next) }
    ensures fits { (cpus : ℕ) → ContinuationFits cpus table.now.state next
        → PhaseFits cpus table.now result }
{
    if a == ZERO_REGISTER {
        return Phase::Ends(Ending::Next);
    }
    reach_datum(size, table, op, a, Kind::Read, what, address, 0, next)
}

/// A store of the low datum of Ra.
fn store(size: u64, table: &CpuState, op: MemOp, what: Size, a: u8, address: u64) -> Phase
    requires { a < REGISTERS }
    ensures plan { (cpus : ℕ) → plan_of size cpus table.now result
        ≡ store_plan size table.now op what a address }
    ensures fits { (cpus : ℕ) → PhaseFits cpus table.now result }
{
    let value = what.low(table.state.get(a));
    let next = Continuation::Finish;
    reach_datum(size, table, op, a, Kind::Write, what, address, value, next)
}

/// A load-locked, and what follows with its value; into R31 too it makes its access.
fn load_locked(
    size: u64,
    table: &CpuState,
    op: MemOp,
    what: Size,
    a: u8,
    address: u64,
    next: Continuation,
) -> Phase
    ensures plan { (cpus : ℕ) → plan_of size cpus table.now result
        ≡ load_locked_plan size table.now op what a address (continued size cpus next) }
    ensures fits { (cpus : ℕ) → ContinuationFits cpus table.now.state next
        → PhaseFits cpus table.now result }
{
    reach_datum(size, table, op, a, Kind::Locked, what, address, 0, next)
}

/// A store-conditional of the low datum of Ra, which tells Ra whether it stored.
fn store_conditional(
    size: u64,
    table: &CpuState,
    op: MemOp,
    what: Size,
    a: u8,
    address: u64,
) -> Phase
    requires { a < REGISTERS }
    ensures plan { (cpus : ℕ) → plan_of size cpus table.now result
        ≡ store_conditional_plan size table.now op what a address }
    ensures fits { (cpus : ℕ) → PhaseFits cpus table.now result }
{
    let value = what.low(table.state.get(a));
    let next = Continuation::StoreConditional { a };
    reach_datum(
        size,
        table,
        op,
        a,
        Kind::Conditional,
        what,
        address,
        value,
        next,
    )
}

/// The branch format.
fn branch(table: &CpuState, op: BranchOp, a: u8, disp: u32) -> Phase
    requires { a < REGISTERS }
    ensures plan { (size cpus : ℕ) → plan_of size cpus table.now result
        ≡ branch_row table.now op a disp }
    ensures fits { (cpus : ℕ) → PhaseFits cpus table.now result }
{
    let goal = branch_target(table, op, a, disp);
    match op {
        BranchOp::BR | BranchOp::BSR => Phase::Ends(Ending::Links { n: a, pc: goal }),
        BranchOp::BLBC
        | BranchOp::BLBS
        | BranchOp::BEQ
        | BranchOp::BNE
        | BranchOp::BLT
        | BranchOp::BLE
        | BranchOp::BGE
        | BranchOp::BGT => Phase::Ends(Ending::Goes { pc: goal }),
    }
}

/// Where a branch goes on.
fn branch_target(table: &CpuState, op: BranchOp, a: u8, disp: u32) -> u64
    requires { a < REGISTERS }
    ensures { result ≡ branch_target table.now op a disp }
{
    let next = table.next_pc();
    if taken(op, table.state.get(a)) {
        target(next, disp)
    } else {
        next
    }
}

/// A jump: Rb is read before Ra is written.
fn jump(table: &CpuState, a: u8, b: u8) -> Phase
    requires a { a < REGISTERS }
    requires b { b < REGISTERS }
    ensures plan { (size cpus : ℕ) → plan_of size cpus table.now result
        ≡ jump_row table.now a b }
    ensures fits { (cpus : ℕ) → PhaseFits cpus table.now result }
{
    let goal = table.state.get(b) & !3;
    Phase::Ends(Ending::Links { n: a, pc: goal })
}

/// The second operand of the operate format.
fn read_operand(table: &CpuState, b: Operand) -> u64
    requires { OperandFits b }
    ensures { result ≡ operand table.now b }
{
    match b {
        Operand::Reg { n, .. } => table.state.get(n),
        Operand::Literal { value } => u64::from(value),
    }
}

/// The operate format.
fn compute(table: &CpuState, op: Op, a: u64, b: u64, c: u8) -> Phase
    requires { c < REGISTERS }
    ensures plan { (size cpus : ℕ) → plan_of size cpus table.now result
        ≡ operate_row table.now op a b c }
    ensures fits { (cpus : ℕ) → PhaseFits cpus table.now result }
{
    if opcode_number(op) == BYTE_OPCODE {
        let value = bytes(op, a, b);
        return Phase::Ends(Ending::Writes { n: c, value });
    }
    let (value, overflows) = operate(op, a, b, table.state.get(c));
    if overflows {
        Phase::Ends(Ending::Overflows {
            n: c,
            value,
            cause: Cause::Arith { mask: 1 << c },
        })
    } else {
        Phase::Ends(Ending::Writes { n: c, value })
    }
}

/// The instructions of opcode 18.
fn misc(op: MiscOp, a: u8) -> Phase
    requires { a < REGISTERS }
    ensures plan { (size cpus : ℕ) (t : CpuState) → plan_of size cpus t result ≡ misc_row t op a }
    ensures fits { (cpus : ℕ) (t : CpuState) → PhaseFits cpus t result }
{
    match op {
        MiscOp::TRAPB
        | MiscOp::EXCB
        | MiscOp::FETCH
        | MiscOp::FETCH_M
        | MiscOp::ECB
        | MiscOp::WH64 => Phase::Ends(Ending::Next),
        MiscOp::RPCC => Phase::Ends(Ending::Counts { n: a }),
        MiscOp::MB => fence(Kind::Barrier),
        MiscOp::WMB => fence(Kind::WriteBarrier),
    }
}

/// A barrier: an access that names no memory, and then the end.
fn fence(kind: Kind) -> Phase
    ensures plan { (size cpus : ℕ) (t : CpuState) → plan_of size cpus t result
        ≡ barrier_plan t kind }
    ensures fits { (cpus : ℕ) (t : CpuState) → PhaseFits cpus t result }
{
    let barrier = Wanted {
        kind,
        address: 0,
        size: 0,
        value: 0,
    };
    Phase::Wants(barrier, Stage::Continues(Continuation::Finish))
}
