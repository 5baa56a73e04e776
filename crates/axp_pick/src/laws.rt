//! Laws of the choices, each proved as the contract of a function that does nothing.
ghost use Rattle.std.specs.Prelude.{ℕ, ◌≡◌, ◌+◌, ◌-◌, ◌*◌, ◌%◌, ◌^◌, ◌<◌, ◌≤◌, ◌↔◌, ◌&&◌};
ghost use Rattle.std.specs.Prelude.{true, false, Some, is_some, length};
ghost use Rattle.axp_access.specs.Offers.{is_offered};
ghost use Rattle.axp_access.specs.declared.Act.{Act};
ghost use Rattle.axp_access.specs.declared.Act.TheVariants.{Drain};
ghost use Rattle.axp_access.specs.declared.offers.Offer.{Offer};
ghost use Rattle.axp_access.specs.declared.TheConstants.{MAX_DRAINS};
ghost use Rattle.axp_access.specs.declared.offers.TheConstants.{MAX_DROPS};
ghost use Rattle.axp_pick.specs.Choices.{choice, index_field, is_able, kind_field};
ghost use Rattle.axp_pick.specs.Words.{first_words, word_of_seed, words_after};

/// What a word chooses is in the offer. Where a processor is able each word chooses an act, and
/// elsewhere no word that names none does. A finished processor is given drains alone.
pub fn chosen_acts_are_offered()
    ensures offered { (o : Offer) (word : ℕ) (a : Act) → choice o word ≡ Some a
        → is_offered o a ≡ true }
    ensures able { (o : Offer) → (is_able o ≡ true)
        ↔ ((word : ℕ) → is_some (choice o word) ≡ true) }
    ensures idle { (o : Offer) (word : ℕ) → kind_field word < 8
        → is_some (choice o word) ≡ is_able o }
    ensures finished { (o : Offer) (word : ℕ) (a : Act) → o.spent ≡ true → choice o word ≡ Some a
        → a ≡ Drain (index_field word % o.drains) }
{}

/// No act that is offered is shut out: some word chooses it. A fill would be, where a step is
/// offered too; no access is both ready and to be filled for.
pub fn offered_acts_can_be_chosen()
    ensures going { (o : Offer) (a : Act) → o.spent ≡ false → (o.step && o.fill) ≡ false
        → o.drains ≤ MAX_DRAINS → length o.drops.items ≤ MAX_DROPS → is_offered o a ≡ true
        → (word : ℕ) × (word < 2 ^ 64) × (choice o word ≡ Some a) }
    ensures finished { (o : Offer) (k : ℕ) → o.spent ≡ true → o.drains ≤ MAX_DRAINS
        → k < o.drains
        → (word : ℕ) × (word < 2 ^ 64) × (choice o word ≡ Some (Drain k)) }
{}

/// The words of each stream of a seed have 64 bits, and the generator's states 128. The increment
/// is odd, and a stream's own. The words of the seed 42 and the stream 54 are those that the
/// authors of the generator give; the others were worked apart from the program.
pub fn words_of_a_seed()
    ensures words { (seed stream n : ℕ) → word_of_seed seed stream n < 2 ^ 64 }
    ensures states { (seed stream n : ℕ)
        → (words_after n (first_words seed stream)).state < 2 ^ 128 }
    ensures increments { (seed stream n : ℕ) → stream < 2 ^ 64
        → (words_after n (first_words seed stream)).increment ≡ stream * 2 + 1 }
    ensures reference { (word_of_seed 42 54 0 ≡ 0x86b1da1d72062b68)
        × (word_of_seed 42 54 1 ≡ 0x1304aa46c9853d39)
        × (word_of_seed 42 54 2 ≡ 0xa3670e9e0dd50358) }
    ensures worked { (word_of_seed 0 0 0 ≡ 0xd4feb4e5a4bcfe09)
        × (word_of_seed 0 1 0 ≡ 0xacdbf879b3c73375)
        × (word_of_seed (2 ^ 64 - 1) 1 3 ≡ 0x9d90309fed0ccb16) }
{}
