//! What is wrong with an executable, in a person's words.
ghost use Rattle.std.specs.Prelude.{◌≡◌};
ghost use Rattle.axp_explain.specs.ElfWords.{elf_words};

use axp_elf::ElfField;

/// Why an executable with this field at fault is not read.
#[tactic(auto, unfolding(crate::specs::ElfWords::elf_words))]
pub fn elf_words(field: ElfField) -> &'static str
    ensures { result.now ≡ elf_words field }
{
    match field {
        ElfField::Magic => {
            "the file does not begin with the magic number of ELF: the byte 7F and the text ELF"
        }
        ElfField::Class => "the class is not 2, that of words of 64 bits",
        ElfField::Data => "the order of bytes is not 1, that of the lowest byte first",
        ElfField::Version => "the version is not 1",
        ElfField::Type => "the type is not 2, that of an executable",
        ElfField::Machine => "the machine is not 9026 hexadecimal, that of Alpha",
        ElfField::Entry => {
            "the entry address is no multiple of 4 within memory, which begins at FFFFFC0000000000"
        }
        ElfField::Headers => {
            "the program headers do not have 56 bytes each, or there are more than 512"
        }
        ElfField::Dynamic => {
            "a program header asks for dynamic linking: the program must be linked statically"
        }
        ElfField::Segment => {
            "a program header is larger in the file than in memory, not in memory, which begins at FFFFFC0000000000, not behind the one before it, or the 65th with bytes in the file"
        }
        ElfField::Short => "the file ends inside of a field, a program header or the bytes of one",
    }
}
