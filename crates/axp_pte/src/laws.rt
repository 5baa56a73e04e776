//! Laws of addresses and entries, each proved as the contract of a function that does nothing.
ghost use Rattle.std.specs.Prelude.{ℕ, ◌≡◌, ◌↔◌, ◌/◌, ◌%◌, ◌^◌, ◌<◌, ◌≤◌, ◌&&◌, not, true, bit_and};
ghost use Rattle.axp_pte.specs.Addresses.{address_of, is_extended, is_kseg, page_of, parts_of};
ghost use Rattle.axp_base.specs.Masks.{has_bit};
ghost use Rattle.axp_pte.specs.Entries.{is_named, named_bits};
ghost use Rattle.axp_pte.specs.Protection.{allows};
ghost use Rattle.axp_pte.specs.declared.addresses.Parts.{Parts};
ghost use Rattle.axp_pte.specs.declared.faults.Mode.TheVariants.{Kernel, User};
ghost use Rattle.axp_pte.specs.declared.faults.Way.TheVariants.{Fetch, Load, Store};

/// The parts of an address, put together again, are its low 43 bits, and each part is within its
/// range; the page's number is the bits above the offset. Two extended addresses with the same
/// parts are the same.
pub fn parts_make_the_address()
    ensures whole { (va : ℕ) → address_of (parts_of va) ≡ va % 2 ^ 43 }
    ensures l1 { (va : ℕ) → (parts_of va).l1 < 2 ^ 10 }
    ensures l2 { (va : ℕ) → (parts_of va).l2 < 2 ^ 10 }
    ensures l3 { (va : ℕ) → (parts_of va).l3 < 2 ^ 10 }
    ensures offset { (va : ℕ) → (parts_of va).offset < 2 ^ 13 }
    ensures page { (va : ℕ) → page_of (parts_of va) ≡ va / 2 ^ 13 % 2 ^ 30 }
    ensures one_address { (a b : ℕ) → is_extended a ≡ true → is_extended b ≡ true
        → parts_of a ≡ parts_of b → a ≡ b }
{}

/// An address is extended exactly where its bits 63:43 all equal bit 42, and in KSEG exactly where
/// bit 42 is 1 and bit 41 is 0.
pub fn extension_repeats_bit_42()
    ensures repeats { (va : ℕ) → va < 2 ^ 64
        → (is_extended va ≡ true) ↔ ((n : ℕ) → 43 ≤ n → n < 64 → has_bit va n ≡ has_bit va 42) }
    ensures kseg { (va : ℕ) → is_kseg va ≡ (has_bit va 42 && not (has_bit va 41)) }
{}

/// The set of an entry's named bits has each named bit that is 1 in the entry, and no other bit.
pub fn flags_are_the_named_bits()
    ensures { (word n : ℕ) → has_bit (bit_and word named_bits) n ≡ (has_bit word n && is_named n) }
{}

/// Which bit gives which right: a fetch and a load have the same one.
pub fn rights_are_their_bits()
    ensures kernel_fetch { (word : ℕ) → allows word Kernel Fetch ≡ has_bit word 8 }
    ensures kernel_load { (word : ℕ) → allows word Kernel Load ≡ has_bit word 8 }
    ensures kernel_store { (word : ℕ) → allows word Kernel Store ≡ has_bit word 12 }
    ensures user_fetch { (word : ℕ) → allows word User Fetch ≡ has_bit word 9 }
    ensures user_load { (word : ℕ) → allows word User Load ≡ has_bit word 9 }
    ensures user_store { (word : ℕ) → allows word User Store ≡ has_bit word 13 }
{}
