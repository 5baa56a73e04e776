ghost use Rattle.std.specs.Prelude.{◌≡◌, ◌≤◌, ◌/◌, IfSome};
ghost use Rattle.axp_words.specs.Commands.{order_by, order_read};
ghost use Rattle.axp_image.specs.declared.limits.TheConstants.{PAGE_BYTES};
ghost use Rattle.axp_words.specs.Words.{asm_of, elf_of, gen_of, listing_of, memory_in};
ghost use Rattle.axp_words.specs.Words.{order_of, order_of_four, order_of_one, order_of_two};
ghost use Rattle.axp_words.specs.Words.{seed_of};

use crate::numbers::read_number_in;
use crate::words::Word;
use axp_base::{MAX_BUDGET, MAX_CPUS, MIN_CPUS};
use axp_image::{MAX_MEMORY, PAGE_BYTES};

/// A command of the program. `docs/FORMATS.md` has their words under "The command line".
#[derive(Clone, Copy, Debug, PartialEq, Eq)]
pub enum Command<'a> {
    /// The trace of the run over an image that the numbers define: how many processors there are,
    /// from [`MIN_CPUS`] to [`MAX_CPUS`], how many steps each makes at most, from 1 to
    /// [`MAX_BUDGET`], and the seed of the choices.
    Seed {
        image: &'a str,
        cpus: u8,
        budget: u32,
        seed: u64,
    },
    /// The trace of the events that a file lists, over an image.
    Replay {
        image: &'a str,
        trace: &'a str,
    },
    /// Whether the accesses of a trace can be those of an Alpha's shared memory, over an image.
    Check {
        image: &'a str,
        trace: &'a str,
    },
    /// A summary of many seeded runs; the number chooses the image and the seeds.
    Gen {
        number: u64,
    },
    /// The image file of an executable: its path, the size of memory in bytes, a whole number of
    /// pages from [`PAGE_BYTES`] to [`MAX_MEMORY`], the stack word, and the page of the page table,
    /// below the number of pages.
    Elf {
        file: &'a str,
        memory: u64,
        stack: u64,
        table: u64,
    },
    /// The image file of an assembler source.
    Asm {
        file: &'a str,
    },
    /// The listing of an image, which is a source that gives it.
    List {
        image: &'a str,
    },
}

/// The words are no command.
#[derive(Clone, Copy, Debug, PartialEq, Eq)]
pub struct Usage;

/// The command of `seed` and four words.
fn read_seed<'a>(image: &'a str, cpus: &str, budget: &str, seed: &str) -> Option<Command<'a>>
    ensures { order_read result ≡ seed_of image.now cpus.now budget.now seed.now }
{
    if image.is_empty() {
        return None;
    }
    let cpus = read_number_in(cpus, MIN_CPUS as u64, MAX_CPUS as u64)?;
    let budget = read_number_in(budget, 1, MAX_BUDGET as u64)?;
    let seed = read_number_in(seed, 0, u64::MAX)?;
    Some(Command::Seed {
        image,
        cpus: cpus as u8,
        budget: budget as u32,
        seed,
    })
}

/// The command of a verb and two words, an image and a list or trace.
fn read_two<'a>(verb: &str, image: &'a str, trace: &'a str) -> Option<Command<'a>>
    ensures { order_read result ≡ order_of_two verb.now image.now trace.now }
{
    if image.is_empty() || trace.is_empty() {
        return None;
    }
    if verb == "replay" {
        Some(Command::Replay { image, trace })
    } else if verb == "check" {
        Some(Command::Check { image, trace })
    } else {
        None
    }
}

/// The size of memory that a word writes, where it is one.
fn read_memory(word: &str) -> Option<u64>
    ensures value { result ≡ memory_in word.now }
    ensures pages { IfSome result (λ size. 1 ≤ size / PAGE_BYTES) }
{
    let size = read_number_in(word, PAGE_BYTES, MAX_MEMORY)?;
    if size % PAGE_BYTES == 0 {
        Some(size)
    } else {
        None
    }
}

/// The command of `elf` and four words.
fn read_elf<'a>(file: &'a str, memory: &str, stack: &str, table: &str) -> Option<Command<'a>>
    ensures { order_read result ≡ elf_of file.now memory.now stack.now table.now }
{
    if file.is_empty() {
        return None;
    }
    let memory = read_memory(memory)?;
    let stack = read_number_in(stack, 0, u64::MAX)?;
    let table = read_number_in(table, 0, memory / PAGE_BYTES - 1)?;
    Some(Command::Elf {
        file,
        memory,
        stack,
        table,
    })
}

/// The command of a verb and four words.
fn read_four<'a>(
    verb: &str,
    first: &'a str,
    second: &str,
    third: &str,
    fourth: &str,
) -> Option<Command<'a>>
    ensures { order_read result ≡ order_of_four verb.now first.now second.now third.now fourth.now }
{
    if verb == "seed" {
        read_seed(first, second, third, fourth)
    } else if verb == "elf" {
        read_elf(first, second, third, fourth)
    } else {
        None
    }
}

/// The command of `gen` and a word.
fn read_gen(number: &str) -> Option<Command<'static>>
    ensures { order_read result ≡ gen_of number.now }
{
    let number = read_number_in(number, 0, u64::MAX)?;
    Some(Command::Gen { number })
}

/// The command of `asm` and a word.
fn read_asm(file: &str) -> Option<Command<'_>>
    ensures { order_read result ≡ asm_of file.now }
{
    if file.is_empty() {
        return None;
    }
    Some(Command::Asm { file })
}

/// The command of `list` and a word.
fn read_list(image: &str) -> Option<Command<'_>>
    ensures { order_read result ≡ listing_of image.now }
{
    if image.is_empty() {
        return None;
    }
    Some(Command::List { image })
}

/// The command of a verb and one word.
fn read_one<'a>(verb: &str, word: &'a str) -> Option<Command<'a>>
    ensures { order_read result ≡ order_of_one verb.now word.now }
{
    if verb == "gen" {
        read_gen(word)
    } else if verb == "asm" {
        read_asm(word)
    } else if verb == "list" {
        read_list(word)
    } else {
        None
    }
}

/// The command that the words are, if they are one.
#[tactic(auto, unfolding(crate::specs::Words::order_of))]
fn read(words: &[Word]) -> Option<Command<'_>>
    ensures { order_read result ≡ order_of words.now }
{
    match words {
        [verb, word] => read_one(verb.as_str(), word.as_str()),
        [verb, image, trace] => read_two(verb.as_str(), image.as_str(), trace.as_str()),
        [verb, first, second, third, fourth] => read_four(
            verb.as_str(),
            first.as_str(),
            second.as_str(),
            third.as_str(),
            fourth.as_str(),
        ),
        _ => None,
    }
}

/// The command that the words are; [`Usage`] exactly where they are none.
pub fn read_words(words: &[Word]) -> Result<Command<'_>, Usage>
    ensures { order_by result ≡ order_of words.now }
{
    match read(words) {
        Some(command) => Ok(command),
        None => Err(Usage),
    }
}
