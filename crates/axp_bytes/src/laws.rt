//! Laws of the byte manipulation instructions and the shifts, each proved as the contract of a
//! function that does nothing. In each `a` stands for the value of Ra and `b` for that of Rb.
ghost use Rattle.std.specs.Prelude.{ℕ, ◌≡◌, ◌+◌, ◌-◌, ◌*◌, ◌/◌, ◌%◌, ◌^◌, ◌<◌, ◌≤◌, min, nat_lt};
ghost use Rattle.std.specs.Prelude.{if◌then◌else◌};
ghost use Rattle.axp_base.specs.Masks.{has_bit};
ghost use Rattle.axp_base.specs.Numbers.{complement};
ghost use Rattle.axp_base.specs.Parts.{byte};
ghost use Rattle.axp_base.specs.Sizes.{bytes_of, low_datum};
ghost use Rattle.axp_base.specs.declared.sizes.Size.{Size};
ghost use Rattle.axp_base.specs.declared.sizes.Size.TheVariants.{Byte};
ghost use Rattle.axp_bytes.specs.Results.{extracted_low, extracted_high, inserted_low};
ghost use Rattle.axp_bytes.specs.Results.{inserted_high, masked_low, masked_high};
ghost use Rattle.axp_bytes.specs.Rows.{value_of};
ghost use Rattle.axp_bytes.specs.Unaligned.{joined, loaded, stored_first, stored_last, replaced};
ghost use Rattle.axp_decode.specs.declared.names.Op.TheVariants.{EXTBL, INSBL, ZAP, ZAPNOT, SLL};
ghost use Rattle.axp_decode.specs.declared.names.Op.TheVariants.{SRL, SRA};

/// Extract, insert and mask byte by byte (section 4.6 of the manual), where `n` is the byte of the
/// first quadword at which a datum begins. Extract low and extract high give the bytes of the datum
/// that the first and the last quadword hold, and 0 for the others; extract high at byte 0 gives
/// the low datum whole. Insert low and insert high give the bytes of the low datum that come into
/// the first and the last quadword, in their places, and mask low and mask high clear those places.
pub fn data_by_bytes()
    ensures extract_low { (size : Size) (a n i : ℕ)
        → byte (extracted_low size a n) i
        ≡ (if nat_lt i (bytes_of size) then byte a (i + n) else 0) }
    ensures extract_high { (size : Size) (a n i : ℕ) → 0 < n → n < 8 → i < 8
        → byte (extracted_high size a n) i
        ≡ (if nat_lt (i + n) 8 then 0
        else (if nat_lt i (bytes_of size) then byte a (i + n - 8) else 0)) }
    ensures extract_high_at_0 { (size : Size) (a : ℕ) → extracted_high size a 0 ≡ low_datum size a }
    ensures insert_low { (size : Size) (a n i : ℕ) → i < 8
        → byte (inserted_low size a n) i
        ≡ (if nat_lt i n then 0 else (if nat_lt i (n + bytes_of size) then byte a (i - n) else 0)) }
    ensures insert_high { (size : Size) (a n i : ℕ) → n < 8
        → byte (inserted_high size a n) i
        ≡ (if nat_lt (i + 8) (n + bytes_of size) then byte a (i + 8 - n) else 0) }
    ensures mask_low { (size : Size) (a n i : ℕ)
        → byte (masked_low size a n) i
        ≡ (if nat_lt i n then byte a i
        else (if nat_lt i (n + bytes_of size) then 0 else byte a i)) }
    ensures mask_high { (size : Size) (a n i : ℕ)
        → byte (masked_high size a n) i
        ≡ (if nat_lt (i + 8) (n + bytes_of size) then 0 else byte a i) }
{}

/// Unaligned loads (section 4.6 of the manual). Extract low of the first quadword, extract high of
/// the last one and BIS put together the datum that stands `n` bytes up in the first, whether it
/// crosses into the last or ends inside of the first, which is then the last one too.
pub fn unaligned_loads()
    ensures crossing { (size : Size) (first last n : ℕ) → first < 2 ^ 64 → n < 8
        → 8 < n + bytes_of size
        → loaded size first last n ≡ low_datum size (joined first last / 2 ^ (8 * n)) }
    ensures inside { (size : Size) (first n : ℕ) → first < 2 ^ 64 → n < 8 → n + bytes_of size ≤ 8
        → loaded size first first n ≡ low_datum size (first / 2 ^ (8 * n)) }
{}

/// Unaligned stores (section 4.6 of the manual). Mask, insert and BIS at the first quadword and at
/// the last one replace the bytes from byte `n` of the first on, as many as the datum has, by the
/// datum, and no other. Where it ends inside of the first, the last one stays.
pub fn unaligned_stores()
    ensures stored { (size : Size) (first last datum n : ℕ) → first < 2 ^ 64 → n < 8
        → joined (stored_first size first datum n) (stored_last size last datum n)
        ≡ replaced size (joined first last) datum n }
    ensures inside { (size : Size) (first datum n : ℕ) → first < 2 ^ 64 → n < 8
        → n + bytes_of size ≤ 8
        → stored_first size first datum n ≡ replaced size first datum n }
    ensures last_stays { (size : Size) (last datum n : ℕ) → n < 8 → n + bytes_of size ≤ 8
        → stored_last size last datum n ≡ last }
{}

/// Extract byte low gives the byte that its operand numbers, and gives back the low byte of what
/// insert byte low was given.
pub fn single_bytes()
    ensures extracted { (a b : ℕ) → value_of EXTBL a b ≡ byte a (b % 8) }
    ensures inserted { (a b : ℕ) → value_of EXTBL (value_of INSBL a b) b ≡ low_datum Byte a }
{}

/// ZAPNOT is ZAP by the complement of its mask, and what the two leave is together the whole
/// number.
pub fn zapnot_is_zap_of_the_complement()
    ensures zapnot { (a b : ℕ) → value_of ZAPNOT a b ≡ value_of ZAP a (complement b) }
    ensures together { (a b : ℕ) → a < 2 ^ 64 → b < 2 ^ 64
        → value_of ZAP a b + value_of ZAPNOT a b ≡ a }
{}

/// ZAP clears each byte whose bit of the mask is 1, and ZAPNOT each whose bit is 0. The other bytes
/// of the eight stay, and there are no more.
pub fn zap_by_bytes()
    ensures zap { (a b n : ℕ) → n < 8
        → byte (value_of ZAP a b) n ≡ (if has_bit b n then 0 else byte a n) }
    ensures zap_fits { (a b : ℕ) → value_of ZAP a b < 2 ^ 64 }
    ensures zapnot { (a b n : ℕ) → b < 2 ^ 64 → n < 8
        → byte (value_of ZAPNOT a b) n ≡ (if has_bit b n then byte a n else 0) }
    ensures zapnot_fits { (a b : ℕ) → value_of ZAPNOT a b < 2 ^ 64 }
{}

/// Shift right logical takes back a shift left logical that lost no bit. Each bit after shift right
/// arithmetic is the one that stood so many places higher, or the sign bit where there is none.
pub fn shifts()
    ensures left_taken_back { (a b : ℕ) → a * 2 ^ (b % 64) < 2 ^ 64
        → value_of SRL (value_of SLL a b) b ≡ a }
    ensures arithmetic { (a b i : ℕ) → a < 2 ^ 64 → i < 64
        → has_bit (value_of SRA a b) i ≡ has_bit a (min (i + b % 64) 63) }
    ensures arithmetic_fits { (a b : ℕ) → value_of SRA a b < 2 ^ 64 }
{}
