//! Laws of executables, each proved as the contract of a function that does nothing.
ghost use Rattle.std.specs.Prelude.{ℕ, List, [], ◌∷◌, length, All, AllPairs, ◌≡◌, ◌≤◌, false, Some};
ghost use Rattle.axp_image.specs.Contents.{AreBytes, Contents, IsValid, segment_of};
ghost use Rattle.axp_image.specs.declared.limits.TheConstants.{MAX_SEGMENTS, PAGE_BYTES};
ghost use Rattle.axp_elf.specs.declared.faults.ElfField.TheVariants.{Dynamic, Machine, Segment, Short};
ghost use Rattle.axp_elf.specs.declared.layout.TheConstants.{MAX_HEADERS, HEADER_BYTES};
ghost use Rattle.axp_elf.specs.Headers.{headers_of, headers_with_bytes, is_dynamic, loaded_headers};
ghost use Rattle.axp_elf.specs.Executables.{IsSetting, image_of};
ghost use Rattle.axp_elf.specs.Faults.{first_fault};
ghost use Rattle.axp_elf.specs.Laws.{EndsBelow, HasFileBytes, IsInMemory, IsZeroElsewhere};
ghost use Rattle.axp_elf.specs.Laws.{page_with, program, with_byte};

/// What an executable is read as is valid. Memory holds each byte that a loaded program header has
/// in the file at its place, and 0 everywhere else.
pub fn memory_of_executable()
    ensures valid { (bytes : List ℕ) (memory stack table : ℕ) (c : Contents) → AreBytes bytes
        → IsSetting memory stack table → image_of bytes memory stack table ≡ Some c → IsValid c }
    ensures inside { (bytes : List ℕ) (memory stack table : ℕ) (c : Contents) → AreBytes bytes
        → IsSetting memory stack table → image_of bytes memory stack table ≡ Some c
        → HasFileBytes bytes c }
    ensures outside { (bytes : List ℕ) (memory stack table : ℕ) (c : Contents)
        → image_of bytes memory stack table ≡ Some c → IsZeroElsewhere bytes c }
{}

/// The loaded program headers of an executable lie in memory, each behind those before it by its
/// size there. At most 64 have bytes in the file, and no header asks for dynamic linking.
pub fn headers_of_executable()
    ensures in_memory { (bytes : List ℕ) (memory stack table : ℕ) (c : Contents)
        → image_of bytes memory stack table ≡ Some c
        → All (IsInMemory memory) (loaded_headers (headers_of bytes)) }
    ensures in_order { (bytes : List ℕ) (memory stack table : ℕ) (c : Contents)
        → image_of bytes memory stack table ≡ Some c
        → AllPairs EndsBelow (loaded_headers (headers_of bytes)) }
    ensures few { (bytes : List ℕ) (memory stack table : ℕ) (c : Contents)
        → image_of bytes memory stack table ≡ Some c
        → length (headers_with_bytes (headers_of bytes)) ≤ MAX_SEGMENTS }
    ensures static_only { (bytes : List ℕ) (memory stack table : ℕ) (c : Contents)
        → image_of bytes memory stack table ≡ Some c
        → All (λ h. is_dynamic h ≡ false) (headers_of bytes) }
{}

/// A program of one word is read as one page of memory that begins with it; with another number in
/// a field it has that field's fault, and where its header has no bytes in memory it is read as a
/// page of zeros. An empty file is short.
pub fn program_of_one_word()
    ensures read { image_of program PAGE_BYTES 0 0
        ≡ Some (page_with (segment_of 0 (0 ∷ 0 ∷ 0 ∷ 0 ∷ []) ∷ [])) }
    ensures machine { first_fault (with_byte 18 0x3E) PAGE_BYTES ≡ Some (Machine, 18) }
    ensures dynamic { first_fault (with_byte 64 2) PAGE_BYTES ≡ Some (Dynamic, 64) }
    ensures interpreter { first_fault (with_byte 64 3) PAGE_BYTES ≡ Some (Dynamic, 64) }
    ensures larger_in_file { first_fault (with_byte 96 5) PAGE_BYTES ≡ Some (Segment, 64) }
    ensures past_the_end { first_fault (with_byte 72 0x79) PAGE_BYTES ≡ Some (Short, 124) }
    ensures no_memory { image_of (with_byte 104 0) PAGE_BYTES 0 0 ≡ Some (page_with []) }
    ensures empty { first_fault [] PAGE_BYTES ≡ Some (Short, 0) }
{}

/// The limits as numbers: definitions and code share each constant, so nothing else says these.
pub fn executable_limits_as_numbers()
    ensures max_headers { MAX_HEADERS ≡ 512 }
    ensures header_bytes { HEADER_BYTES ≡ 56 }
{}
