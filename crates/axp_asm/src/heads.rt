//! The first four lines of a source.
ghost use Rattle.std.specs.Prelude.{◌≡◌, ◌≤◌, ◌/◌, ◌%◌, ◌+◌, ◌-◌, ◌<◌, length, [], IfOk, IfErr, IfSome, Ok};
ghost use Rattle.axp_image.specs.Contents.{contents};
ghost use Rattle.axp_image.specs.Grammar.{is_memory_size, is_entry};
ghost use Rattle.axp_image.specs.declared.limits.TheConstants.{MAX_MEMORY};
ghost use Rattle.axp_asm.specs.Lines.{directive_first, said_in, split};
ghost use Rattle.axp_asm.specs.Heads.{memory_in, entry_in, stack_in, table_in, head_of};
ghost use Rattle.axp_asm.specs.Sources.{HeadNames};

use crate::faults::AsmError;
use crate::layout::{ENTRY_LINE, MEMORY_LINE, STACK_LINE, TABLE_LINE};
use axp_image::{INSTRUCTION_BYTES, Image, KSEG, MAX_MEMORY, PAGE_BYTES};
use axp_source::{Directive, Statement, read_statement};
use axp_trace::first_line;
use std::alloc::Global;

/// What the first line says as a directive, and the text behind it.
#[tactic(auto, unfolding(crate::specs::Lines::said_in))]
fn split_directive(text: &[u8]) -> Option<(Directive, &[u8])>
    ensures value { split result ≡ directive_first (said_in text.now) }
    ensures shorter { IfSome result (λ p. length p.1.now ≤ length text.now) }
{
    let (line, rest) = first_line(text)?;
    match read_statement(line)? {
        Statement::Directive(directive) => Some((directive, rest)),
        Statement::Label(_) | Statement::Instruction(_) | Statement::BranchTo { .. } => None,
    }
}

/// Whether memory may have this size.
fn is_memory_size(size: u64) -> bool
    ensures { result ≡ is_memory_size size }
{
    size % PAGE_BYTES == 0 && PAGE_BYTES <= size && size <= MAX_MEMORY
}

/// Whether processors may start at this address in a memory of this size.
fn is_entry(size: u64, address: u64) -> bool
    requires { size ≤ MAX_MEMORY }
    ensures { result ≡ is_entry size address }
{
    address % INSTRUCTION_BYTES == 0
        && KSEG <= address
        && address <= KSEG + size - INSTRUCTION_BYTES
}

/// The size of memory that the first line says.
fn split_memory(text: &[u8]) -> Option<(u64, &[u8])>
    ensures value { split result ≡ memory_in (directive_first (said_in text.now)) }
    ensures shorter { IfSome result (λ p. length p.1.now ≤ length text.now) }
{
    let (directive, rest) = split_directive(text)?;
    match directive {
        Directive::Memory(size) => {
            if is_memory_size(size) {
                Some((size, rest))
            } else {
                None
            }
        }
        Directive::Entry(_)
        | Directive::Stack(_)
        | Directive::Table(_)
        | Directive::At(_)
        | Directive::Byte(_)
        | Directive::Word(_) => None,
    }
}

/// The entry address that the first line says, for a memory of this size.
fn split_entry(size: u64, text: &[u8]) -> Option<(u64, &[u8])>
    requires { size ≤ MAX_MEMORY }
    ensures value { split result ≡ entry_in size (directive_first (said_in text.now)) }
    ensures shorter { IfSome result (λ p. length p.1.now ≤ length text.now) }
{
    let (directive, rest) = split_directive(text)?;
    match directive {
        Directive::Entry(address) => {
            if is_entry(size, address) {
                Some((address, rest))
            } else {
                None
            }
        }
        Directive::Memory(_)
        | Directive::Stack(_)
        | Directive::Table(_)
        | Directive::At(_)
        | Directive::Byte(_)
        | Directive::Word(_) => None,
    }
}

/// The stack word that the first line says.
fn split_stack(text: &[u8]) -> Option<(u64, &[u8])>
    ensures value { split result ≡ stack_in (directive_first (said_in text.now)) }
    ensures shorter { IfSome result (λ p. length p.1.now ≤ length text.now) }
{
    let (directive, rest) = split_directive(text)?;
    match directive {
        Directive::Stack(word) => Some((word, rest)),
        Directive::Memory(_)
        | Directive::Entry(_)
        | Directive::Table(_)
        | Directive::At(_)
        | Directive::Byte(_)
        | Directive::Word(_) => None,
    }
}

/// The page of the page table that the first line says, for a memory of this size.
fn split_table(size: u64, text: &[u8]) -> Option<(u64, &[u8])>
    ensures value { split result ≡ table_in size (directive_first (said_in text.now)) }
    ensures shorter { IfSome result (λ p. length p.1.now ≤ length text.now) }
{
    let (directive, rest) = split_directive(text)?;
    match directive {
        Directive::Table(page) => {
            if page < size / PAGE_BYTES {
                Some((page, rest))
            } else {
                None
            }
        }
        Directive::Memory(_)
        | Directive::Entry(_)
        | Directive::Stack(_)
        | Directive::At(_)
        | Directive::Byte(_)
        | Directive::Word(_) => None,
    }
}

/// The image without segments that the first four lines say, and the text behind them.
#[tactic(auto, unfolding(crate::specs::Heads::head_of))]
pub(crate) fn read_head(alloc: Global, text: &[u8]) -> Result<(Image, &[u8]), AsmError>
    ensures image { IfOk result (λ p. head_of (said_in text.now) ≡ Ok (p.0, said_in p.1.now)) }
    ensures shorter { IfOk result (λ p. length p.1.now ≤ length text.now) }
    ensures no_segment { IfOk result (λ p. p.0.segments ≡ []) }
    ensures fault { IfErr result (HeadNames (head_of (said_in text.now))) }
{
    let Some((size, rest)) = split_memory(text) else {
        return Err(AsmError::Bad { line: MEMORY_LINE });
    };
    let Some((entry, rest)) = split_entry(size, rest) else {
        return Err(AsmError::Bad { line: ENTRY_LINE });
    };
    let Some((stack, rest)) = split_stack(rest) else {
        return Err(AsmError::Bad { line: STACK_LINE });
    };
    let Some((table, rest)) = split_table(size, rest) else {
        return Err(AsmError::Bad { line: TABLE_LINE });
    };
    let image = Image::start(alloc, size, entry, stack, table)?;
    Ok((image, rest))
}
