ghost use Rattle.std.specs.Prelude.{◌≡◌, ◌↔◌, ◌⊎◌, ◌%◌, ◌^◌, true, false, Err, Ok, IfErr};
ghost use Rattle.axp_pte.specs.Addresses.{is_extended, is_kseg, page_of, parts_of, split_of};
ghost use Rattle.axp_pte.specs.declared.addresses.Where.TheVariants.{Direct, Mapped};
ghost use Rattle.axp_pte.specs.declared.faults.MmFault.TheVariants.{Acv};
ghost use Rattle.axp_pte.specs.declared.faults.Mode.TheVariants.{Kernel, User};

use crate::{MmFault, Mode};

/// The parts of a virtual address that is translated: one index for each level of page tables, and
/// the byte within the page.
#[derive(Clone, Copy, Debug, PartialEq, Eq)]
pub struct Parts {
    /// Bits 42:33, the entry of the first level's table, below 2^10.
    pub l1: u16,
    /// Bits 32:23, the entry of the second level's table, below 2^10.
    pub l2: u16,
    /// Bits 22:13, the entry of the third level's table, below 2^10.
    pub l3: u16,
    /// Bits 12:0, the byte within the page of 8 KB, below 2^13.
    pub offset: u16,
}

impl Parts {
    /// The number of the virtual page, bits 42:13.
    pub fn page(self) -> u64
        ensures { result ≡ page_of self }
    {
        (u64::from(self.l1) << 20) + (u64::from(self.l2) << 10) + u64::from(self.l3)
    }
}

/// Where a virtual address leads.
#[derive(Clone, Copy, Debug, PartialEq, Eq)]
pub enum Where {
    /// An address of KSEG leads to this physical address, below 2^41, with no page table.
    Direct(u64),
    /// Any other address is translated by the page tables.
    Mapped(Parts),
}

/// The parts of an address.
fn split_parts(va: u64) -> Parts
    ensures { result ≡ parts_of va }
{
    Parts {
        l1: (va >> 33 & 0x3FF) as u16,
        l2: (va >> 23 & 0x3FF) as u16,
        l3: (va >> 13 & 0x3FF) as u16,
        offset: (va & 0x1FFF) as u16,
    }
}

/// Where a virtual address leads in a mode. `Acv` where bits 63:43 do not all equal bit 42, and in
/// user mode where the address is in KSEG, which is where bits 42:41 are 10; there is no other
/// fault.
#[tactic(auto, unfolding(crate::specs::Addresses::split_of))]
pub fn split(va: u64, mode: Mode) -> Result<Where, MmFault>
    ensures value { result ≡ split_of va mode }
    ensures acv { (result ≡ Err Acv)
        ↔ ((is_extended va ≡ false) ⊎ ((is_kseg va ≡ true) × (mode ≡ User))) }
    ensures no_other_fault { IfErr result (λ fault. fault ≡ Acv) }
    ensures direct { (result ≡ Ok (Direct (va % 2 ^ 41)))
        ↔ ((is_extended va ≡ true) × (is_kseg va ≡ true) × (mode ≡ Kernel)) }
    ensures mapped { (result ≡ Ok (Mapped (parts_of va)))
        ↔ ((is_extended va ≡ true) × (is_kseg va ≡ false)) }
{
    let high = va >> 42;
    if high != 0 && high != 0x3F_FFFF {
        return Err(MmFault::Acv);
    }
    if va >> 41 & 3 == 2 {
        return match mode {
            Mode::User => Err(MmFault::Acv),
            Mode::Kernel => Ok(Where::Direct(va & 0x1FF_FFFF_FFFF)),
        };
    }
    Ok(Where::Mapped(split_parts(va)))
}
