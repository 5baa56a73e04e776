//! Laws of the command grammar, each proved as the contract of a function that does nothing.
ghost use Rattle.std.specs.Prelude.{ℕ, List, ◌≡◌, ◌≢◌, ◌↔◌, ◌<◌, ◌≤◌, ◌/◌, ◌%◌, ◌^◌, Some, ◌∷◌, []};
ghost use Rattle.std.specs.Prelude.{codes, decimal};
ghost use Rattle.axp_base.specs.declared.processors.TheConstants.{MIN_CPUS, MAX_CPUS, MAX_BUDGET};
ghost use Rattle.axp_image.specs.declared.limits.TheConstants.{MAX_MEMORY, PAGE_BYTES};
ghost use Rattle.axp_words.specs.Numbers.{number_in};
ghost use Rattle.axp_words.specs.Words.{Asm, Check, Elf, Gen, Listing, Replay, Seed, order_of};

/// A word writes a number of a range exactly where it is the number's decimal text.
pub fn numbers_are_their_decimals()
    ensures { (least most n : ℕ) (word : List ℕ) → most < 2 ^ 64 → (number_in least most word ≡ Some n)
        ↔ ((word ≡ decimal n) × (least ≤ n) × (n ≤ most)) }
{}

/// The words are a replay exactly where they are the word `replay` and two paths.
pub fn replay_is_these_three_words()
    ensures { (words : List (List ℕ)) (image trace : List ℕ) → (order_of words ≡ Some (Replay image trace))
        ↔ ((words ≡ codes "replay" ∷ image ∷ trace ∷ []) × (image ≢ []) × (trace ≢ [])) }
{}

/// The words are a check exactly where they are the word `check` and two paths.
pub fn check_is_these_three_words()
    ensures { (words : List (List ℕ)) (image trace : List ℕ) → (order_of words ≡ Some (Check image trace))
        ↔ ((words ≡ codes "check" ∷ image ∷ trace ∷ []) × (image ≢ []) × (trace ≢ [])) }
{}

/// The words are a seeded run exactly where they are the word `seed`, a path and three numbers in
/// decimal, each in its range.
pub fn seed_is_these_five_words()
    ensures { (words : List (List ℕ)) (image : List ℕ) (cpus budget seed : ℕ)
        → (order_of words ≡ Some (Seed image cpus budget seed))
        ↔ ((words ≡ codes "seed" ∷ image ∷ decimal cpus ∷ decimal budget ∷ decimal seed ∷ [])
        × (image ≢ []) × (MIN_CPUS ≤ cpus) × (cpus ≤ MAX_CPUS) × (1 ≤ budget) × (budget ≤ MAX_BUDGET)
        × (seed < 2 ^ 64)) }
{}

/// The words are an executable's image exactly where they are the word `elf`, a path and three
/// numbers in decimal: a size of memory in whole pages, a stack word, and a page of this memory.
pub fn elf_is_these_five_words()
    ensures { (words : List (List ℕ)) (file : List ℕ) (memory stack table : ℕ)
        → (order_of words ≡ Some (Elf file memory stack table))
        ↔ ((words ≡ codes "elf" ∷ file ∷ decimal memory ∷ decimal stack ∷ decimal table ∷ [])
        × (file ≢ []) × (memory % PAGE_BYTES ≡ 0) × (PAGE_BYTES ≤ memory) × (memory ≤ MAX_MEMORY)
        × (stack < 2 ^ 64) × (table < memory / PAGE_BYTES)) }
{}

/// The words are a summary of runs exactly where they are the word `gen` and a number in decimal.
pub fn gen_is_these_two_words()
    ensures { (words : List (List ℕ)) (number : ℕ) → (order_of words ≡ Some (Gen number))
        ↔ ((words ≡ codes "gen" ∷ decimal number ∷ []) × (number < 2 ^ 64)) }
{}

/// The words are a source's image exactly where they are the word `asm` and a path.
pub fn asm_is_these_two_words()
    ensures { (words : List (List ℕ)) (file : List ℕ) → (order_of words ≡ Some (Asm file))
        ↔ ((words ≡ codes "asm" ∷ file ∷ []) × (file ≢ [])) }
{}

/// The words are a listing exactly where they are the word `list` and a path.
pub fn list_is_these_two_words()
    ensures { (words : List (List ℕ)) (image : List ℕ) → (order_of words ≡ Some (Listing image))
        ↔ ((words ≡ codes "list" ∷ image ∷ []) × (image ≢ [])) }
{}
