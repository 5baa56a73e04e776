//! The process control block, to and from which swpctx swaps the context of a process.
ghost use Rattle.std.specs.Prelude.{◌≡◌, length};
ghost use Rattle.axp_pal.specs.Contexts.{block_of, context_asks, counter_of, offset_for};
ghost use Rattle.axp_pal.specs.Contexts.{read_from, switched, written_to};
ghost use Rattle.axp_pal.specs.declared.plans.TheConstants.{MOST_ASKS};

use crate::MOST_ASKS;
use arrayvec::ArrayVec;
use axp_base::QUADWORD_BYTES;
use axp_regs::{Ask, Kind, State};
use axp_trap::{A0, SP, V0};

/// How many bytes a process control block takes; it lies at a multiple of them.
pub const BLOCK_BYTES: u64 = 128;

/// Where in a block the stack pointer of kernel mode lies, in bytes.
pub const SP_PLACE: u64 = 0;

/// Where in a block the stack pointer of user mode lies, in bytes.
pub const USP_PLACE: u64 = 8;

/// Where in a block the page of the page table lies, in bytes.
pub const PTBR_PLACE: u64 = 16;

/// Where in a block the counter lies, in bytes: the low half of a quadword.
pub const COUNTER_PLACE: u64 = 24;

/// How many bytes the counter takes.
const COUNTER_BYTES: u8 = 4;

/// Where in a block the address space number lies, in bytes: the high half of that quadword.
pub const ASN_PLACE: u64 = 28;

/// Where in a block the unique value lies, in bytes.
pub const UNIQUE_PLACE: u64 = 32;

/// Where in a block the quadword lies whose bit 0 enables floating instructions, in bytes.
pub const FEN_PLACE: u64 = 40;

/// How many writes swpctx makes before its reads.
pub(crate) const CONTEXT_WRITES: usize = 4;

/// The physical address of the block that a number leads to.
fn block_at(address: u64) -> u64
    ensures { result ≡ block_of address }
{
    address / BLOCK_BYTES * BLOCK_BYTES
}

/// The counter as RPCC gives it: the fetched instructions and the offset.
fn counter(state: &State) -> u64
    ensures { result ≡ counter_of state.now }
{
    u64::from(state.fetched().wrapping_add(state.offset()))
}

/// The write of a part of the block at an address.
fn write_to(block: u64, place: u64, size: u8, value: u64) -> Ask
    ensures { result ≡ written_to block place size value }
{
    Ask {
        kind: Kind::Write,
        address: block.wrapping_add(place),
        direct: true,
        size,
        value,
    }
}

/// The read of a quadword of the block at an address.
fn reading_of(block: u64, place: u64) -> Ask
    ensures { result ≡ read_from block place }
{
    Ask {
        kind: Kind::Read,
        address: block.wrapping_add(place),
        direct: true,
        size: QUADWORD_BYTES as u8,
        value: 0,
    }
}

/// The accesses of swpctx: the old context is written to its block, and the new one read from its
/// own.
pub(crate) fn swap_asks(state: &State) -> ArrayVec<Ask, MOST_ASKS>
    ensures { result.items ≡ context_asks state.now }
{
    let old = state.pcbb();
    let new = block_at(state.get(A0));
    ArrayVec::from_array_in(
        (),
        [
            write_to(old, SP_PLACE, QUADWORD_BYTES as u8, state.get(SP)),
            write_to(old, USP_PLACE, QUADWORD_BYTES as u8, state.usp()),
            write_to(old, COUNTER_PLACE, COUNTER_BYTES, counter(state)),
            write_to(old, UNIQUE_PLACE, QUADWORD_BYTES as u8, state.unique()),
            reading_of(new, SP_PLACE),
            reading_of(new, USP_PLACE),
            reading_of(new, PTBR_PLACE),
            reading_of(new, COUNTER_PLACE),
            reading_of(new, UNIQUE_PLACE),
            reading_of(new, FEN_PLACE),
        ],
    )
}

/// The offset with which the counter goes on from the low half of a quadword.
fn offset_after(quadword: u64, fetched: u32) -> u32
    ensures { result ≡ offset_for quadword fetched }
{
    ((quadword & 0xFFFF_FFFF) as u32).wrapping_sub(fetched)
}

/// Takes the context that was read from the new block: v0 becomes the address of the old one.
pub(crate) fn swap(state: &mut State, values: &[u64])
    requires { length values.now ≡ MOST_ASKS }
    ensures { state.new ≡ switched state.old values.now }
{
    let block = &values[CONTEXT_WRITES..];
    let old = state.pcbb();
    let new = block_at(state.get(A0));
    let fetched = state.fetched();
    state.set(V0, old);
    state.set_pcbb(new);
    state.set(SP, block[0]);
    state.set_usp(block[1]);
    state.set_ptbr(block[2]);
    state.set_asn((block[3] >> 32) as u32);
    state.set_offset(offset_after(block[3], fetched));
    state.set_unique(block[4]);
    state.set_fen(block[5] & 1 == 1);
}
