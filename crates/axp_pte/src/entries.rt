ghost use Rattle.std.specs.Prelude.{⊤, ◌≡◌, ◌==◌, ◌<◌, ◌^◌, ◌∷◌, [], ℕ, bit_and, codes};
ghost use Rattle.axp_pte.specs.Entries.{has_asm, is_valid, named_bits, pfn_of, pte_of, pte_word};
ghost use Rattle.axp_pte.specs.Entries.{set_bits};

use bitflags::{Flag, Flags, bitflag_items};

/// A set of the bits of a page table entry that have a name.
#[derive(Clone, Copy, Debug, PartialEq, Eq)]
pub struct PteBits(u64);

bitflag_items! {
    impl PteBits: u64 {
        // valid
        const V = 1 << 0;
        // fault on read, on write and on execute
        const FOR = 1 << 1;
        const FOW = 1 << 2;
        const FOE = 1 << 3;
        // address space match
        const ASM = 1 << 4;
        // kernel and user read enable
        const KRE = 1 << 8;
        const URE = 1 << 9;
        // kernel and user write enable
        const KWE = 1 << 12;
        const UWE = 1 << 13;
    }
}

impl Flags for PteBits {
    type Bits = u64;

    ghost exact = { ⊤ };

    ghost table = { (codes "V", 0x1) ∷ (codes "FOR", 0x2) ∷ (codes "FOW", 0x4) ∷ (codes "FOE", 0x8)
        ∷ (codes "ASM", 0x10) ∷ (codes "KRE", 0x100) ∷ (codes "URE", 0x200)
        ∷ (codes "KWE", 0x1000) ∷ (codes "UWE", 0x2000) ∷ [] };

    ghost set_of = { set_bits };

    fn flags<'a>() -> &'a [Flag<PteBits>] {
        PteBits::FLAGS
    }

    fn bits(&self) -> u64 {
        self.0
    }

    fn from_bits_retain(bits: u64) -> PteBits {
        PteBits(bits)
    }
}

/// A page table entry, one quadword of a page table: its named bits, and in bits 63:32 the page
/// frame number (PFN) of the page or table that it leads to. The other bits are kept, and mean
/// nothing here.
#[derive(Clone, Copy, Debug, Default, PartialEq, Eq)]
pub struct Pte(u64);

impl Pte {
    /// The entry that this quadword is.
    pub fn of(word: u64) -> Pte
        ensures value { result ≡ pte_of word }
        ensures word { pte_word result ≡ word }
    {
        Pte(word)
    }

    /// The quadword that the entry is, every bit of it.
    pub fn word(self) -> u64
        ensures value { result ≡ pte_word self }
        ensures whole { pte_of result ≡ self }
    {
        self.0
    }

    /// The named bits that are 1.
    pub fn bits(self) -> PteBits
        ensures { set_bits result ≡ bit_and (pte_word self) named_bits }
    {
        PteBits::from_bits_truncate(self.0)
    }

    /// The page frame number, below 2^32.
    pub fn pfn(self) -> u64
        ensures value { result ≡ pfn_of (pte_word self) }
        ensures small { result < 2 ^ 32 }
    {
        self.0 >> 32
    }

    /// Whether the entry has ASM, the address space match bit: its page is the same for every
    /// address space number.
    #[tactic(auto, using(crate::proofs::BitLemmas::address_space_match_tested))]
    pub fn matches_every_asn(self) -> bool
        ensures { result ≡ has_asm (pte_word self) }
    {
        self.has(PteBits::ASM)
    }

    /// Whether the entry has V, the valid bit.
    #[tactic(auto, using(crate::proofs::BitLemmas::valid_tested))]
    pub(crate) fn is_valid(self) -> bool
        ensures { result ≡ is_valid (pte_word self) }
    {
        self.has(PteBits::V)
    }

    /// Whether the named bits of a set are all 1.
    pub(crate) fn has(self, flag: PteBits) -> bool
        ensures { result
            ≡ (bit_and (bit_and (pte_word self) named_bits) (set_bits flag) == set_bits flag) }
    {
        self.bits().contains(flag)
    }
}
