ghost use Rattle.std.specs.Prelude.{◌≡◌};
ghost use Rattle.axp_tb.specs.Buffers.{is_match};

use axp_pte::Pte;

/// What the buffer keeps of one translation.
#[derive(Clone, Copy, Debug, Default, PartialEq, Eq)]
pub struct TbEntry {
    /// The number of the virtual page.
    pub page: u64,
    /// The address space number of the process that it was put for.
    pub asn: u32,
    /// The page table entry of the page.
    pub pte: Pte,
}

impl TbEntry {
    /// Whether the entry is one of this page that serves this address space: it was put for it, or
    /// has ASM.
    pub fn matches(self, page: u64, asn: u32) -> bool
        ensures { result ≡ is_match page asn self }
    {
        self.page == page && (self.asn == asn || self.pte.matches_every_asn())
    }
}
