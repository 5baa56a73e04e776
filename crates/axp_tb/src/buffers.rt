ghost use Rattle.std.specs.Prelude.{◌≡◌, ◌↔◌, ◌≤◌, [], false, length, All, None, IsNone, IfSome};
ghost use Rattle.axp_tb.specs.Buffers.{found, is_match, with_put, without_page, without_process};
ghost use Rattle.axp_tb.specs.Buffers.{IsLastMatch};
ghost use Rattle.axp_tb.specs.declared.buffers.TheConstants.{TB_ENTRIES};

use crate::TbEntry;
use arrayvec::ArrayVec;
use axp_pte::Pte;
use std::marker::Model;

/// How many entries the buffer keeps at most.
pub const TB_ENTRIES: usize = 32;

/// A translation buffer: at most [`TB_ENTRIES`] entries, in the order in which they were put.
#[derive(Debug, Drop)]
pub struct Tb {
    entries: ArrayVec<TbEntry, TB_ENTRIES>,
}

impl Model for Tb {
    ghost use Rattle.std.specs.Prelude.{List};
    ghost use Rattle.axp_tb.specs.declared.entries.TbEntry.{TbEntry};

    ghost Value = { List TbEntry };

    ghost view = { λ tb. tb.entries.items };
}

impl Tb {
    /// The buffer with no entry.
    pub fn empty() -> Tb
        ensures { result ≡ [] }
    {
        Tb {
            entries: ArrayVec::new(),
        }
    }

    /// The page table entry of a page in an address space: of the entries of this page that were
    /// put for this address space number or have ASM, the one that was put last. `None` where there
    /// is no such entry.
    pub fn find(&self, page: u64, asn: u32) -> Option<Pte>
        ensures value { result ≡ found self.now page asn }
        ensures none { IsNone result ↔ All (λ entry. is_match page asn entry ≡ false) self.now }
        ensures last { IfSome result (λ pte. IsLastMatch self.now page asn pte) }
    {
        let mut found = None;
        for entry in self.entries.as_slice() {
            if entry.matches(page, asn) {
                found = Some(entry.pte);
            }
        }
        found
    }

    /// Keeps the entry of a page that is not found yet in this address space, as the one put last.
    /// Where [`TB_ENTRIES`] entries are kept already, they are all dropped first.
    pub fn put(&mut self, page: u64, asn: u32, pte: Pte)
        requires { found self.old page asn ≡ None }
        ensures value { self.new ≡ with_put self.old page asn pte }
        ensures fits { length self.new ≤ TB_ENTRIES }
    {
        if self.entries.is_full() {
            self.drop_all();
        }
        self.entries.push(TbEntry { page, asn, pte });
    }

    /// Drops every entry.
    pub fn drop_all(&mut self)
        ensures { self.new ≡ [] }
    {
        self.entries.clear();
    }

    /// Drops the entries of processes, which are those without ASM; the others stay in their order.
    #[tactic(auto, using(crate::proofs::DropLemmas::process_retained))]
    pub fn drop_process(&mut self)
        ensures { self.new ≡ without_process self.old }
    {
        self.entries.retain(|entry| entry.pte.matches_every_asn());
    }

    /// Drops the entries of a page that were put for this address space number or have ASM; the
    /// others stay in their order.
    #[tactic(auto, using(crate::proofs::DropLemmas::page_retained))]
    pub fn drop_page(&mut self, page: u64, asn: u32)
        ensures { self.new ≡ without_page self.old page asn }
    {
        self.entries.retain(|entry| !entry.matches(page, asn));
    }
}
