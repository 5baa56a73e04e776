//! Laws of the translation buffer, each proved as the contract of a function that does nothing.
ghost use Rattle.std.specs.Prelude.{ℕ, List, ◌≡◌, ◌≢◌, ◌↔◌, [], true, false, length, All, Contains};
ghost use Rattle.std.specs.Prelude.{None, Some};
ghost use Rattle.axp_pte.specs.Entries.{has_asm, pte_word};
ghost use Rattle.axp_pte.specs.declared.entries.Pte.{Pte};
ghost use Rattle.axp_tb.specs.Buffers.{found, is_match, with_put, without_page, without_process};
ghost use Rattle.axp_tb.specs.Buffers.{IsLastMatch};
ghost use Rattle.axp_tb.specs.declared.buffers.TheConstants.{TB_ENTRIES};
ghost use Rattle.axp_tb.specs.declared.entries.TbEntry.{TbEntry};

/// How many entries the buffer keeps, as a number.
pub fn limits_are_these()
    ensures entries { TB_ENTRIES ≡ 32 }
{}

/// What is found is exactly the entry that was put last of those that match.
pub fn finds_the_last()
    ensures some { (entries : List TbEntry) (page asn : ℕ) (pte : Pte)
        → (found entries page asn ≡ Some pte) ↔ IsLastMatch entries page asn pte }
    ensures none { (entries : List TbEntry) (page asn : ℕ)
        → (found entries page asn ≡ None) ↔ All (λ entry. is_match page asn entry ≡ false) entries }
    ensures empty { (page asn : ℕ) → found [] page asn ≡ None }
{}

/// An entry that was put is found, and with ASM in every address space. Every other page is found
/// as before, and without ASM this page in every other address space, unless the buffer was full:
/// then nothing else is found.
pub fn finds_after_put()
    ensures same { (entries : List TbEntry) (page asn : ℕ) (pte : Pte)
        → found (with_put entries page asn pte) page asn ≡ Some pte }
    ensures in_every_address_space { (entries : List TbEntry) (page asn other : ℕ) (pte : Pte)
        → has_asm (pte_word pte) ≡ true
        → found (with_put entries page asn pte) page other ≡ Some pte }
    ensures other_page { (entries : List TbEntry) (page asn sought space : ℕ) (pte : Pte)
        → length entries ≢ TB_ENTRIES → sought ≢ page
        → found (with_put entries page asn pte) sought space ≡ found entries sought space }
    ensures other_address_space { (entries : List TbEntry) (page asn sought space : ℕ) (pte : Pte)
        → length entries ≢ TB_ENTRIES → space ≢ asn → has_asm (pte_word pte) ≡ false
        → found (with_put entries page asn pte) sought space ≡ found entries sought space }
    ensures full { (entries : List TbEntry) (page asn sought space : ℕ) (pte : Pte)
        → length entries ≡ TB_ENTRIES → sought ≢ page
        → found (with_put entries page asn pte) sought space ≡ None }
{}

/// Which entries are dropped, and what is found then. Without the entries of processes it does not
/// matter in which address space a page is looked for.
pub fn finds_after_drops()
    ensures process_keeps { (entries : List TbEntry) (entry : TbEntry)
        → Contains (without_process entries) entry
        ↔ (Contains entries entry × (has_asm (pte_word entry.pte) ≡ true)) }
    ensures process_in_every_address_space { (entries : List TbEntry) (page asn other : ℕ)
        → found (without_process entries) page asn ≡ found (without_process entries) page other }
    ensures page_keeps { (entries : List TbEntry) (page asn : ℕ) (entry : TbEntry)
        → Contains (without_page entries page asn) entry
        ↔ (Contains entries entry × (is_match page asn entry ≡ false)) }
    ensures page_gone { (entries : List TbEntry) (page asn : ℕ)
        → found (without_page entries page asn) page asn ≡ None }
    ensures other_page { (entries : List TbEntry) (page asn sought space : ℕ) → sought ≢ page
        → found (without_page entries page asn) sought space ≡ found entries sought space }
{}
