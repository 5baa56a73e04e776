//! Laws of limits, of parts of lists and of spans, each proved as the contract of a function that
//! does nothing.
ghost use Rattle.std.specs.Prelude.{ℕ, pos, int_lt, List, ◌≡◌, ◌+◌, ◌-◌, ◌*◌, ◌/◌, ◌%◌, ◌^◌, ◌<◌};
ghost use Rattle.std.specs.Prelude.{◌≤◌, ◌⊎◌, IsTrue, length, slice_index};
ghost use Rattle.std.specs.Int.{cast_signed, w8, w16, w32};
ghost use Rattle.axp_base.specs.declared.limits.TheConstants.{BANK_COPIES, WBUF_ENTRIES};
ghost use Rattle.axp_base.specs.declared.lines.TheConstants.{LINE_BYTES, LOCK_BYTES};
ghost use Rattle.axp_base.specs.declared.processors.TheConstants.{MAX_BUDGET, MAX_CPUS, MIN_CPUS};
ghost use Rattle.axp_base.specs.Masks.{IsSize, span_of, has_bit};
ghost use Rattle.axp_base.specs.Numbers.{is_negative, sign_extended, signed};
ghost use Rattle.axp_base.specs.Parts.{byte, part, with_part};

/// The numbers of the machine: bytes of a line and of a block, entries of a write buffer, copies of
/// a bank, processors and steps.
pub fn limits_are_these()
    ensures line { LINE_BYTES ≡ 64 }
    ensures block { LOCK_BYTES ≡ 16 }
    ensures entries { WBUF_ENTRIES ≡ 8 }
    ensures copies { BANK_COPIES ≡ 16 }
    ensures fewest { MIN_CPUS ≡ 2 }
    ensures most { MAX_CPUS ≡ 8 }
    ensures budget { MAX_BUDGET ≡ 32768 }
{}

/// The low bytes of a number that are put into a list are read back as one number. Every byte
/// before and past them stays, and so does the length.
pub fn put_is_read_back()
    ensures value { (bytes : List ℕ) (offset n v : ℕ) → offset + n ≤ length bytes
        → part (with_part bytes offset n v) offset n ≡ v % 2 ^ (8 * n) }
    ensures each { (bytes : List ℕ) (offset n v i : ℕ) → offset + n ≤ length bytes → i < n
        → slice_index (with_part bytes offset n v) (offset + i) ≡ byte v i }
    ensures others { (bytes : List ℕ) (offset n v k : ℕ) → (k < offset) ⊎ (offset + n ≤ k)
        → slice_index (with_part bytes offset n v) k ≡ slice_index bytes k }
    ensures as_long { (bytes : List ℕ) (offset n v : ℕ)
        → length (with_part bytes offset n v) ≡ length bytes }
{}

/// The bytes of an access are in one line, and its span has the bit of each of them and no other.
pub fn span_is_its_bytes()
    ensures one_line { (address size i : ℕ) → IsSize size → address % size ≡ 0 → i < size
        → (address + i) / LINE_BYTES ≡ address / LINE_BYTES }
    ensures each { (address size i : ℕ) → IsSize size → address % size ≡ 0 → i < size
        → IsTrue (has_bit (span_of address size) ((address + i) % LINE_BYTES)) }
    ensures only { (address size n : ℕ) → IsSize size → address % size ≡ 0
        → IsTrue (has_bit (span_of address size) n)
        → (i : ℕ) × (i < size) × ((address + i) % LINE_BYTES ≡ n) }
{}

/// Sign extension keeps the low bits, repeats the highest of them in each bit above, and keeps the
/// integer that a byte, a word or a longword is.
pub fn sign_extension_keeps_the_integer()
    ensures small { (k x : ℕ) → k ≤ 64 → sign_extended k x < 2 ^ 64 }
    ensures low { (k x : ℕ) → k ≤ 64 → sign_extended k x % 2 ^ k ≡ x % 2 ^ k }
    ensures above { (k x n : ℕ) → 1 ≤ k → k ≤ n → n < 64
        → has_bit (sign_extended k x) n ≡ has_bit x (k - 1) }
    ensures of_a_byte { (x : ℕ) → signed (sign_extended 8 x) ≡ cast_signed w8 (x % 2 ^ 8) }
    ensures of_a_word { (x : ℕ) → signed (sign_extended 16 x) ≡ cast_signed w16 (x % 2 ^ 16) }
    ensures of_a_longword { (x : ℕ) → signed (sign_extended 32 x) ≡ cast_signed w32 (x % 2 ^ 32) }
{}

/// A number has its sign bit exactly where the integer that it is lies below 0.
pub fn sign_bit_is_below_zero()
    ensures { (a : ℕ) → a < 2 ^ 64 → is_negative a ≡ int_lt (signed a) (pos 0) }
{}
