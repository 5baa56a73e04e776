//! What tbi invalidates in the translation buffers.
ghost use Rattle.std.specs.Prelude.{◌≡◌};
ghost use Rattle.axp_pal.specs.Invalidations.{after_invalidate, is_data_page, is_instruction_page};
ghost use Rattle.axp_pal.specs.Invalidations.{page_of};

use axp_regs::State;
use axp_tb::Tb;
use axp_trap::{A0, A1};

/// What tbi is asked to invalidate: every entry (-2).
pub const ALL_ENTRIES: u64 = 0xFFFF_FFFF_FFFF_FFFE;

/// What tbi is asked to invalidate: the entries of processes, which are those without ASM (-1).
pub const PROCESS_ENTRIES: u64 = 0xFFFF_FFFF_FFFF_FFFF;

/// What tbi is asked to invalidate: a page in the instruction buffer.
pub const INSTRUCTION_PAGE: u64 = 1;

/// What tbi is asked to invalidate: a page in the data buffer.
pub const DATA_PAGE: u64 = 2;

/// What tbi is asked to invalidate: a page in both buffers.
pub const PAGE_IN_BOTH: u64 = 3;

/// The number of the page of a virtual address.
fn page_number(va: u64) -> u64
    ensures { result ≡ page_of va }
{
    va >> 13 & 0x3FFF_FFFF
}

/// Invalidates in one buffer what tbi was asked for; `takes_page` says whether a page was asked for
/// in this buffer.
fn invalidate_in(tb: &mut Tb, state: &State, takes_page: bool)
    ensures { tb.new ≡ after_invalidate state.now takes_page tb.old }
{
    let what = state.get(A0);
    if what == ALL_ENTRIES {
        tb.drop_all();
    } else if what == PROCESS_ENTRIES {
        tb.drop_process();
    } else if takes_page {
        tb.drop_page(page_number(state.get(A1)), state.asn());
    }
}

/// Invalidates in both buffers what tbi was asked for.
pub(crate) fn invalidate(state: &State, itb: &mut Tb, dtb: &mut Tb)
    ensures itb { itb.new ≡ after_invalidate state.now (is_instruction_page state.now) itb.old }
    ensures dtb { dtb.new ≡ after_invalidate state.now (is_data_page state.now) dtb.old }
{
    let what = state.get(A0);
    let in_both = what == PAGE_IN_BOTH;
    invalidate_in(itb, state, what == INSTRUCTION_PAGE || in_both);
    invalidate_in(dtb, state, what == DATA_PAGE || in_both);
}
