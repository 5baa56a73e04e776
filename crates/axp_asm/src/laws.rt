//! Laws of sources, each proved as the contract of a function that does nothing.
ghost use Rattle.std.specs.Prelude.{ℕ, List, [], ◌∷◌, codes, ◌≡◌, ◌↔◌, ◌<◌, ◌*◌, Ok, Err, Some};
ghost use Rattle.axp_image.specs.Contents.{Contents, IsValid};
ghost use Rattle.axp_source.specs.declared.numbers.TheConstants.{BRANCH_HALF};
ghost use Rattle.axp_asm.specs.declared.layout.TheConstants.{MAX_SOURCE, MEMORY_LINE, ENTRY_LINE};
ghost use Rattle.axp_asm.specs.declared.layout.TheConstants.{STACK_LINE, TABLE_LINE, BODY_LINE};
ghost use Rattle.axp_asm.specs.Labels.{displacement};
ghost use Rattle.axp_asm.specs.Laws.{AreNamedApart, Leads, labels_in, text_behind};
ghost use Rattle.axp_asm.specs.Laws.{labelled_image, labelled_text, locked_image, locked_text};
ghost use Rattle.axp_asm.specs.Listings.{listing};
ghost use Rattle.axp_asm.specs.Sources.{assembled};

/// The listing of an image is a source that gives it, so no two images have one listing.
pub fn listings_give_their_images()
    ensures back { (c : Contents) → IsValid c → assembled (listing c) ≡ Ok c }
    ensures apart { (c d : Contents) → IsValid c → IsValid d → listing c ≡ listing d → c ≡ d }
{}

/// In a source that gives an image no name is that of two labels.
pub fn labels_have_their_names()
    ensures { (text : List ℕ) (c : Contents) → assembled text ≡ Ok c
        → AreNamedApart (labels_in text) }
{}

/// A branch to a label has the bits by which it leads there, and none exactly where no bits do.
pub fn branches_lead_to_their_labels()
    ensures { (from target bits : ℕ) → (displacement from target ≡ Some bits)
        ↔ ((bits < 2 * BRANCH_HALF) × Leads from bits target) }
{}

/// Sources worked out by hand. A source without lines lacks the first.
pub fn sources_are_worked_out()
    ensures listed { listing locked_image ≡ locked_text }
    ensures read { assembled locked_text ≡ Ok locked_image }
    ensures labels { assembled labelled_text ≡ Ok labelled_image }
    ensures empty { assembled [] ≡ Err 1 }
    ensures no_segment { assembled (text_behind (codes "halt" ∷ [])) ≡ Err 5 }
    ensures no_bytes { assembled (text_behind (codes ".at 00000100" ∷ codes "end:" ∷ [])) ≡ Err 5 }
    ensures no_label { assembled (text_behind (codes ".at 00000100" ∷ codes "BR R31,end" ∷ []))
        ≡ Err 6 }
    ensures two_labels { assembled
        (text_behind (codes ".at 00000100" ∷ codes "end:" ∷ codes "halt" ∷ codes "end:" ∷ []))
        ≡ Err 8 }
    ensures no_statement { assembled (text_behind (codes "halt" ∷ codes "halt " ∷ [])) ≡ Err 6 }
{}

/// The limits as numbers: definitions and code share each constant, so nothing else says these.
pub fn source_limits_as_numbers()
    ensures max_source { MAX_SOURCE ≡ 536870912 }
    ensures memory_line { MEMORY_LINE ≡ 1 }
    ensures entry_line { ENTRY_LINE ≡ 2 }
    ensures stack_line { STACK_LINE ≡ 3 }
    ensures table_line { TABLE_LINE ≡ 4 }
    ensures body_line { BODY_LINE ≡ 5 }
{}
