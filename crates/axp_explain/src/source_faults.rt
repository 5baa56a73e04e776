//! What is wrong with a line of an assembler source, in a person's words.
ghost use Rattle.std.specs.Prelude.{◌≡◌};
ghost use Rattle.axp_source.specs.Items.{item_in, item_read};
ghost use Rattle.axp_explain.specs.LinePlaces.{file_line};
ghost use Rattle.axp_explain.specs.SourceWords.{bytes_words, directive_words, head_words};
ghost use Rattle.axp_explain.specs.SourceWords.{said_words, source_words, statement_words};

use crate::line_faults::LineAt;
use axp_asm::{ENTRY_LINE, MEMORY_LINE, STACK_LINE, TABLE_LINE};
use axp_source::{Directive, Statement, read_statement};

/// What one of the first four lines says.
#[tactic(auto, unfolding(crate::specs::SourceWords::head_words))]
fn head_words(number: u32) -> &'static str
    ensures { result.now ≡ head_words number }
{
    match number {
        MEMORY_LINE =>
            ".memory and the size of memory stand here, a multiple of 8192 up to 16777216",
        ENTRY_LINE => {
            ".entry and the entry address stand here, a multiple of 4 in memory, which begins at FFFFFC0000000000"
        }
        STACK_LINE => ".stack and the stack word stand here",
        _ => {
            ".table and the page of the page table stand here, which is below the number of pages of 8192 bytes"
        }
    }
}

/// What bytes need.
#[tactic(auto, unfolding(crate::specs::SourceWords::bytes_words))]
fn bytes_words() -> &'static str
    ensures { result.now ≡ bytes_words }
{
    "there is no .at line in front of these bytes, or they end behind memory"
}

/// What a directive behind the first four lines needs.
fn directive_words(directive: Directive) -> &'static str
    ensures { result.now ≡ directive_words directive }
{
    match directive {
        Directive::At(_) => {
            "a segment begins in memory, behind the segment before it, and has bytes; there are at most 64"
        }
        Directive::Byte(_) | Directive::Word(_) => bytes_words(),
        Directive::Memory(_) | Directive::Entry(_) | Directive::Stack(_) | Directive::Table(_) => {
            "this directive has its place in the first four lines"
        }
    }
}

/// What a statement behind the first four lines needs.
#[tactic(auto, unfolding(crate::specs::SourceWords::statement_words))]
fn statement_words(statement: Statement<'_>) -> &'static str
    ensures { result.now ≡ statement_words (item_in statement.entry) }
{
    match statement {
        Statement::Directive(directive) => directive_words(directive),
        Statement::Label(_) => {
            "there is no .at line in front of this label, or a line before has the same label"
        }
        Statement::Instruction(_) => bytes_words(),
        Statement::BranchTo { .. } => {
            "there is no .at line in front of this branch, it ends behind memory, or its label stands nowhere, too far away, or no whole number of words away"
        }
    }
}

/// What is wrong with a line that has this number and says this.
#[tactic(auto, unfolding(crate::specs::SourceWords::no_statement_words))]
fn said_words(number: u32, said: Option<Statement<'_>>) -> &'static str
    ensures { result.now ≡ said_words number (item_read said.entry) }
{
    match said {
        Some(_) if number <= TABLE_LINE => head_words(number),
        Some(statement) => statement_words(statement),
        None => {
            "the line is no directive, label or instruction; one blank stands between two words, and there are no other blanks and no comments"
        }
    }
}

/// What is wrong with the line at fault, which has this number.
pub fn source_words(number: u32, line: LineAt<'_>) -> &'static str
    ensures { result.now ≡ source_words number (file_line line.entry) }
{
    match line {
        LineAt::Missing => head_words(number),
        LineAt::Unended => "the line has no line feed at its end",
        LineAt::Whole(line) => said_words(number, read_statement(line)),
    }
}
