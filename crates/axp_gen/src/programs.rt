//! The instruction words of the litmus tests, from the address of the code on. At the start R16
//! holds the processor's number and R30 the stack word; displacements are hexadecimal.
ghost use Rattle.std.specs.Prelude.{◌≡◌, ◌≤◌, length};
ghost use Rattle.axp_gen.specs.Programs.{code_of};

use crate::shapes::Shape;

/// Processor 0 stores to 0(R30) and loads 40(R30), processor 1 the other way round.
const STORE_BUFFERING: [u32; 8] = [
    0x203F_0001, // 2000 LDA R1,1(R31)
    0xF200_0003, // 2004 BLBS R16,2014
    0xB43E_0000, // 2008 STQ R1,0(R30)
    0xA45E_0040, // 200C LDQ R2,40(R30)
    0x0000_0000, // 2010 halt
    0xB43E_0040, // 2014 STQ R1,40(R30)
    0xA45E_0000, // 2018 LDQ R2,0(R30)
    0x0000_0000, // 201C halt
];

/// Processor 0 stores a datum at 40(R30) and, behind a barrier, its address at 0(R30). Processor 1
/// loads the old datum, then the pointer, then what it points to.
const DEPENDENT_LOAD: [u32; 11] = [
    0xF200_0006, // 2000 BLBS R16,201C
    0x203F_0001, // 2004 LDA R1,1(R31)
    0xB43E_0040, // 2008 STQ R1,40(R30)
    0x6000_4000, // 200C MB
    0x205E_0040, // 2010 LDA R2,40(R30)
    0xB45E_0000, // 2014 STQ R2,0(R30)
    0x0000_0000, // 2018 halt
    0xA47E_0040, // 201C LDQ R3,40(R30)
    0xA49E_0000, // 2020 LDQ R4,0(R30)
    0xA4A4_0000, // 2024 LDQ R5,0(R4)
    0x0000_0000, // 2028 halt
];

/// The same, with a barrier between the load of the pointer and the load through it.
const DEPENDENT_LOAD_WITH_BARRIER: [u32; 12] = [
    0xF200_0006, // 2000 BLBS R16,201C
    0x203F_0001, // 2004 LDA R1,1(R31)
    0xB43E_0040, // 2008 STQ R1,40(R30)
    0x6000_4000, // 200C MB
    0x205E_0040, // 2010 LDA R2,40(R30)
    0xB45E_0000, // 2014 STQ R2,0(R30)
    0x0000_0000, // 2018 halt
    0xA47E_0040, // 201C LDQ R3,40(R30)
    0xA49E_0000, // 2020 LDQ R4,0(R30)
    0x6000_4000, // 2024 MB
    0xA4A4_0000, // 2028 LDQ R5,0(R4)
    0x0000_0000, // 202C halt
];

/// Each processor adds 1 three times to a counter under a lock. Then processor 1 signals processor
/// 0, whose handler prints `K`, whereupon processor 0 prints the counter as a digit. The lock's
/// quadword is at virtual address 2000, the counter at 2040.
const SPIN_LOCK: [u32; 47] = [
    0x47F0_040B, // 2000 BIS R31,R16,R11
    0x215F_2000, // 2004 LDA R10,2000(R31)
    0x219F_0003, // 2008 LDA R12,3(R31)
    0xAC2A_0000, // 200C LDQ_L R1,0(R10)
    0xF43F_FFFE, // 2010 BNE R1,200C
    0x203F_0001, // 2014 LDA R1,1(R31)
    0xBC2A_0000, // 2018 STQ_C R1,0(R10)
    0xE43F_FFFB, // 201C BEQ R1,200C
    0x6000_4000, // 2020 MB
    0xA44A_0040, // 2024 LDQ R2,40(R10)
    0x2042_0001, // 2028 LDA R2,1(R2)
    0xB44A_0040, // 202C STQ R2,40(R10)
    0x6000_4000, // 2030 MB
    0xB7EA_0000, // 2034 STQ R31,0(R10)
    0x218C_FFFF, // 2038 LDA R12,-1(R12)
    0xF59F_FFF3, // 203C BNE R12,200C
    0xE560_0005, // 2040 BEQ R11,2058
    0x47FF_0410, // 2044 BIS R31,R31,R16
    0x6000_4000, // 2048 MB
    0x0000_000D, // 204C wripir
    0x0000_0000, // 2050 halt
    0x0000_0000, // 2054 halt
    0x221E_A0A4, // 2058 LDA R16,-5F5C(R30): the handler's address, 20A4
    0x47FF_0411, // 205C BIS R31,R31,R17
    0x0000_0034, // 2060 wrent
    0x47FF_0410, // 2064 BIS R31,R31,R16
    0x0000_0035, // 2068 swpipl
    0xE53F_FFFF, // 206C BEQ R9,206C
    0xAC2A_0000, // 2070 LDQ_L R1,0(R10)
    0xF43F_FFFE, // 2074 BNE R1,2070
    0x203F_0001, // 2078 LDA R1,1(R31)
    0xBC2A_0000, // 207C STQ_C R1,0(R10)
    0xE43F_FFFB, // 2080 BEQ R1,2070
    0x6000_4000, // 2084 MB
    0xA44A_0040, // 2088 LDQ R2,40(R10)
    0x2222_0030, // 208C LDA R17,30(R2)
    0x6000_4000, // 2090 MB
    0xB7EA_0000, // 2094 STQ R31,0(R10)
    0x221F_0001, // 2098 LDA R16,1(R31)
    0x0000_0009, // 209C cserve
    0x0000_0000, // 20A0 halt
    0xF600_0004, // 20A4 BNE R16,20B8: here the handler begins
    0x213F_0001, // 20A8 LDA R9,1(R31)
    0x221F_0001, // 20AC LDA R16,1(R31)
    0x223F_004B, // 20B0 LDA R17,4B(R31)
    0x0000_0009, // 20B4 cserve
    0x0000_003F, // 20B8 rti
];

/// The words of a shape's program.
#[tactic(auto, unfolding(crate::specs::Programs::store_buffering, crate::specs::Programs::dependent_load, crate::specs::Programs::dependent_load_with_barrier, crate::specs::Programs::spin_lock, axp_decode::specs::Format::word_of, axp_decode::specs::Format::operand_bits))]
pub(crate) fn code_of(shape: Shape) -> &'static [u32]
    ensures value { result.now ≡ code_of shape }
    ensures not_empty { 1 ≤ length result.now }
    ensures within_a_page { length result.now ≤ 2048 }
{
    match shape {
        Shape::Sb => &STORE_BUFFERING,
        Shape::Dl => &DEPENDENT_LOAD,
        Shape::Dm => &DEPENDENT_LOAD_WITH_BARRIER,
        Shape::Lock => &SPIN_LOCK,
    }
}
