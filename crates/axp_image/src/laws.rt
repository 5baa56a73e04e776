//! Laws of images, each proved as the contract of a function that does nothing.
ghost use Rattle.std.specs.Prelude.{ℕ, List, ◌≡◌, ◌≢◌, ◌<◌, Some, None, IsSome, ◌↔◌, ◌++◌, ◌∷◌, []};
ghost use Rattle.std.specs.Prelude.{length};
ghost use Rattle.axp_image.specs.declared.limits.TheConstants.{PAGE_BYTES, MAX_MEMORY, KSEG};
ghost use Rattle.axp_image.specs.declared.limits.TheConstants.{MAX_SEGMENTS, INSTRUCTION_BYTES};
ghost use Rattle.axp_image.specs.Contents.{AreBytes, Contents, IsValid, byte_in};
ghost use Rattle.axp_image.specs.Grammar.{image_of};
ghost use Rattle.axp_image.specs.declared.faults.ImageKind.TheVariants.{Short, Extra};
ghost use Rattle.axp_image.specs.Faults.{Fault, first_fault};
ghost use Rattle.axp_image.specs.Spelling.{spelling};
ghost use Rattle.axp_image.specs.Laws.{DoNotOverlap, HaveTheirBytes, AreZeroElsewhere, smallest};
ghost use Rattle.axp_image.specs.Laws.{smallest_file};

/// What the segments of an image say of memory: no byte is in two of them, memory holds each of
/// their bytes at its place and 0 everywhere else, and each of its bytes is below 256.
pub fn memory_of_segments()
    ensures apart { (c : Contents) → IsValid c → DoNotOverlap c.segments }
    ensures inside { (c : Contents) → IsValid c → HaveTheirBytes c.segments }
    ensures outside { (c : Contents) → AreZeroElsewhere c.segments }
    ensures bytes { (c : Contents) → IsValid c → (address : ℕ) → byte_in c.segments address < 256 }
{}

/// Each image has one file. A file that is read is the file of what was read, each byte of it, and
/// what was read is valid; and whatever is valid is read from its file.
pub fn one_file()
    ensures spelled { (bytes : List ℕ) (c : Contents) → AreBytes bytes → image_of bytes ≡ Some c
        → IsValid c × (bytes ≡ spelling c) }
    ensures read { (c : Contents) → IsValid c → image_of (spelling c) ≡ Some c }
{}

/// The smallest image file is read as one page of zeros. With a byte more it is none, by the byte at
/// its end, and an empty file is short.
pub fn smallest_image()
    ensures read { image_of smallest_file ≡ Some smallest }
    ensures extra { first_fault (smallest_file ++ 0 ∷ []) ≡ Some (Extra, 40) }
    ensures short { first_fault [] ≡ Some (Short, 0) }
{}

/// The limits as numbers: definitions and code share each constant, so nothing else says these.
pub fn limits_as_numbers()
    ensures page_bytes { PAGE_BYTES ≡ 8192 }
    ensures max_memory { MAX_MEMORY ≡ 16777216 }
    ensures max_segments { MAX_SEGMENTS ≡ 64 }
    ensures kseg { KSEG ≡ 0xFFFFFC0000000000 }
    ensures instruction_bytes { INSTRUCTION_BYTES ≡ 4 }
{}

/// A file has no fault exactly where it is an image.
pub fn no_fault_is_an_image()
    ensures image { (bytes : List ℕ) → (first_fault bytes ≡ None) ↔ IsSome (image_of bytes) }
    ensures fault { (bytes : List ℕ) (f : Fault) → first_fault bytes ≡ Some f → image_of bytes ≡ None }
{}

/// An image file with more behind it is at fault where the image ends, and a front of an image file
/// is short where it ends.
pub fn cut_and_longer_files()
    ensures longer { (bytes more : List ℕ) (c : Contents) → image_of bytes ≡ Some c → more ≢ []
        → first_fault (bytes ++ more) ≡ Some (Extra, length bytes) }
    ensures cut { (front rest : List ℕ) (c : Contents) → image_of (front ++ rest) ≡ Some c → rest ≢ []
        → first_fault front ≡ Some (Short, length front) }
{}
