ghost use Rattle.std.specs.Prelude.{◌≡◌};
ghost use Rattle.axp_pal.specs.Calls.{data_buffer, finished, instruction_buffer, IsAnswered};
ghost use Rattle.axp_pal.specs.Calls.{with_entry_address};

use crate::buffers::invalidate;
use crate::contexts::swap;
use crate::returns::{return_from_call, return_from_entry};
use axp_decode::PalOp;
use axp_regs::{ENTRIES, State};
use axp_tb::Tb;
use axp_trap::{A0, A1, V0, status_at_level};

/// Writes the address of an entry, where there is one of this number; an address has its two low
/// bits cleared.
fn write_entry(state: &mut State, n: u64, address: u64)
    ensures { state.new ≡ with_entry_address n address state.old }
{
    if n < ENTRIES as u64 {
        state.set_entry(n as u8, address & !3);
    }
}

/// What a call that ends makes of the registers and of the two translation buffers, once its
/// accesses gave these values, one for each access in order; the value of an access that is no read
/// does not matter. The program counter stays, but for retsys and rti.
#[tactic(auto, unfolding(crate::specs::Calls::finished, crate::specs::Calls::instruction_buffer, crate::specs::Calls::data_buffer))]
pub fn finish(op: PalOp, state: &mut State, values: &[u64], itb: &mut Tb, dtb: &mut Tb)
    requires { IsAnswered op state.old values.now }
    ensures state { state.new ≡ finished op state.old values.now }
    ensures itb { itb.new ≡ instruction_buffer op state.old itb.old }
    ensures dtb { dtb.new ≡ data_buffer op state.old dtb.old }
{
    let first = state.get(A0);
    match op {
        PalOp::WRFEN => state.set_fen(first & 1 == 1),
        PalOp::WRVPTPTR => state.set_vptptr(first),
        PalOp::SWPCTX => swap(state, values),
        PalOp::WRVAL => state.set_sysvalue(first),
        PalOp::RDVAL => {
            let value = state.sysvalue();
            state.set(V0, value);
        }
        PalOp::TBI => invalidate(state, itb, dtb),
        PalOp::WRENT => {
            let number = state.get(A1);
            write_entry(state, number, first);
        }
        PalOp::SWPIPL => {
            let status = state.ps();
            state.set(V0, status & 7);
            state.set_ps(status_at_level(status, first));
        }
        PalOp::RDPS => {
            let status = state.ps();
            state.set(V0, status);
        }
        PalOp::WRKGP => state.set_kgp(first),
        PalOp::WRUSP => state.set_usp(first),
        PalOp::RDUSP => {
            let stack = state.usp();
            state.set(V0, stack);
        }
        PalOp::WHAMI => {
            let number = state.number();
            state.set(V0, u64::from(number));
        }
        PalOp::RETSYS => return_from_call(state, values),
        PalOp::RTI => return_from_entry(state, values),
        PalOp::RDUNIQUE => {
            let unique = state.unique();
            state.set(V0, unique);
        }
        PalOp::WRUNIQUE => state.set_unique(first),
        PalOp::HALT
        | PalOp::DRAINA
        | PalOp::CSERVE
        | PalOp::WRIPIR
        | PalOp::BPT
        | PalOp::BUGCHK
        | PalOp::GENTRAP
        | PalOp::CALLSYS
        | PalOp::IMB => {}
    }
}
