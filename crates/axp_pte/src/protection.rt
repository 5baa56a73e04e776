ghost use Rattle.std.specs.Prelude.{◌≡◌, ◌<◌, ◌↔◌, ◌^◌, true, false, Err, Ok, IfOk};
ghost use Rattle.axp_base.specs.Masks.{has_bit};
ghost use Rattle.axp_pte.specs.Entries.{pfn_of, pte_word, set_bits, fault_on_execute_bit};
ghost use Rattle.axp_pte.specs.Entries.{fault_on_read_bit, fault_on_write_bit, is_valid};
ghost use Rattle.axp_pte.specs.Protection.{allows, fault_bit, fault_of, right_bit, rights_of};
ghost use Rattle.axp_pte.specs.Protection.{upper_of};
ghost use Rattle.axp_pte.specs.declared.faults.MmFault.TheVariants.{Tnv, Acv, For, Foe, Fow};
ghost use Rattle.axp_pte.specs.declared.faults.Way.TheVariants.{Fetch, Load, Store};

use crate::{MmFault, Mode, Pte, PteBits, Way};

/// The bit that gives the right to an access: read enable for fetches and loads, write enable for
/// stores, of the mode.
fn right_to(mode: Mode, way: Way) -> PteBits
    ensures { set_bits result ≡ 2 ^ right_bit mode way }
{
    match (mode, way) {
        (Mode::Kernel, Way::Store) => PteBits::KWE,
        (Mode::User, Way::Store) => PteBits::UWE,
        (Mode::Kernel, Way::Fetch | Way::Load) => PteBits::KRE,
        (Mode::User, Way::Fetch | Way::Load) => PteBits::URE,
    }
}

/// The bit that asks for a fault at each access of this way, and that fault.
fn fault_on(way: Way) -> (PteBits, MmFault)
    ensures bit { set_bits result.0 ≡ 2 ^ fault_bit way }
    ensures fault { result.1 ≡ fault_of way }
{
    match way {
        Way::Fetch => (PteBits::FOE, MmFault::Foe),
        Way::Load => (PteBits::FOR, MmFault::For),
        Way::Store => (PteBits::FOW, MmFault::Fow),
    }
}

/// The page frame number, below 2^32, of the next level's table, from an entry of the first two
/// levels; `Tnv` where the entry has V = 0. No other bit matters at these levels.
#[tactic(auto, unfolding(crate::specs::Protection::upper_of))]
pub fn upper(pte: Pte) -> Result<u64, MmFault>
    ensures value { result ≡ upper_of (pte_word pte) }
    ensures tnv { (result ≡ Err Tnv) ↔ (is_valid (pte_word pte) ≡ false) }
    ensures ok { (result ≡ Ok (pfn_of (pte_word pte))) ↔ (is_valid (pte_word pte) ≡ true) }
    ensures small { IfOk result (λ frame. frame < 2 ^ 32) }
{
    if pte.is_valid() {
        Ok(pte.pfn())
    } else {
        Err(MmFault::Tnv)
    }
}

/// The page frame number, below 2^32, of the page, from an entry of the third level, for an access.
/// Of the faults the first that stands comes: `Acv` where the mode's right is missing, also at an
/// entry that is not valid; `Tnv` where the entry has V = 0; then `Foe` for a fetch at FOE, `For`
/// for a load at FOR, and `Fow` for a store at FOW.
#[tactic(auto, unfolding(crate::specs::Protection::rights_of), using(crate::proofs::BitLemmas::right_tested, crate::proofs::BitLemmas::fault_tested))]
pub fn rights(pte: Pte, mode: Mode, way: Way) -> Result<u64, MmFault>
    ensures value { result ≡ rights_of (pte_word pte) mode way }
    ensures acv { (result ≡ Err Acv) ↔ (allows (pte_word pte) mode way ≡ false) }
    ensures tnv { (result ≡ Err Tnv)
        ↔ ((allows (pte_word pte) mode way ≡ true) × (is_valid (pte_word pte) ≡ false)) }
    ensures foe { (result ≡ Err Foe)
        ↔ ((allows (pte_word pte) mode way ≡ true) × (is_valid (pte_word pte) ≡ true)
        × (way ≡ Fetch) × (has_bit (pte_word pte) fault_on_execute_bit ≡ true)) }
    ensures fault_on_read { (result ≡ Err For)
        ↔ ((allows (pte_word pte) mode way ≡ true) × (is_valid (pte_word pte) ≡ true)
        × (way ≡ Load) × (has_bit (pte_word pte) fault_on_read_bit ≡ true)) }
    ensures fow { (result ≡ Err Fow)
        ↔ ((allows (pte_word pte) mode way ≡ true) × (is_valid (pte_word pte) ≡ true)
        × (way ≡ Store) × (has_bit (pte_word pte) fault_on_write_bit ≡ true)) }
    ensures ok { (result ≡ Ok (pfn_of (pte_word pte)))
        ↔ ((allows (pte_word pte) mode way ≡ true) × (is_valid (pte_word pte) ≡ true)
        × (has_bit (pte_word pte) (fault_bit way) ≡ false)) }
    ensures small { IfOk result (λ frame. frame < 2 ^ 32) }
{
    if !pte.has(right_to(mode, way)) {
        return Err(MmFault::Acv);
    }
    if !pte.is_valid() {
        return Err(MmFault::Tnv);
    }
    let (bit, fault) = fault_on(way);
    if pte.has(bit) {
        return Err(fault);
    }
    Ok(pte.pfn())
}
