//! Laws of the litmus tests, each proved as the contract of a function that does nothing.
ghost use Rattle.std.specs.Prelude.{ℕ, ◌≡◌, ◌%◌, map};
ghost use Rattle.axp_decode.specs.Format.{instr_of};
ghost use Rattle.axp_image.specs.Contents.{IsValid};
ghost use Rattle.axp_gen.specs.declared.shapes.Shape.{Shape};
ghost use Rattle.axp_gen.specs.declared.shapes.Shape.TheVariants.{Sb, Dl, Dm, Lock};
ghost use Rattle.axp_gen.specs.Litmus.{litmus_image};
ghost use Rattle.axp_gen.specs.Programs.{code_of, program_of};
ghost use Rattle.axp_gen.specs.Shapes.{shape_of};

/// Numbers with the same remainder by 4 have the same shape, and each shape is that of one
/// remainder.
pub fn shapes_by_number()
    ensures by_remainder { (m n : ℕ) → m % 4 ≡ n % 4 → shape_of m ≡ shape_of n }
    ensures zero { shape_of 0 ≡ Sb }
    ensures one { shape_of 1 ≡ Dl }
    ensures two { shape_of 2 ≡ Dm }
    ensures three { shape_of 3 ≡ Lock }
{}

/// The image of each shape keeps the limits of an image.
pub fn litmus_images_are_valid()
    ensures { (shape : Shape) → IsValid (litmus_image shape) }
{}

/// Each word of a program is decoded as the program's instruction.
pub fn programs_are_decoded()
    ensures { (shape : Shape) → map instr_of (code_of shape) ≡ program_of shape }
{}
