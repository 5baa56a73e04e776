//! Images from sources.
ghost use Rattle.std.specs.Prelude.{◌≡◌, ◌+◌, ◌≤◌, length, IfOk, IfErr, OnOk, Ok, Err, Some, None};
ghost use Rattle.axp_image.specs.Contents.{IsValid};
ghost use Rattle.axp_asm.specs.Lines.{first_formless, said_in};
ghost use Rattle.axp_asm.specs.Sources.{Names, assembled, image_behind};
ghost use Rattle.axp_asm.specs.declared.layout.TheConstants.{MAX_SOURCE, BODY_LINE};

use crate::drafts::Draft;
use crate::faults::AsmError;
use crate::heads::read_head;
use crate::labels::{LabelList, read_labels};
use crate::layout::BODY_LINE;
use axp_image::Image;
use axp_source::read_statement;
use axp_trace::first_line;
use std::alloc::Global;

/// The number of the first line that is no statement.
#[tactic(auto, unfolding(crate::specs::Lines::said_in))]
fn first_formless(text: &[u8]) -> Option<u32>
    requires { length text.now ≤ MAX_SOURCE }
    ensures { result ≡ first_formless 1 (said_in text.now) }
{
    let mut number = 1;
    let mut rest = text;
    while let Some((line, more)) = first_line(rest) {
        if read_statement(line).is_none() {
            return Some(number);
        }
        number += 1;
        rest = more;
    }
    if rest.is_empty() { None } else { Some(number) }
}

/// The image of a draft and the lines behind the first four.
#[tactic(auto, unfolding(crate::specs::Lines::said_in))]
fn fill(alloc: Global, labels: &LabelList<'_>, start: Draft, body: &[u8]) -> Result<Image, AsmError>
    requires { length body.now ≤ MAX_SOURCE }
    ensures image { IfOk result
        (λ image. image_behind labels.now BODY_LINE start (said_in body.now) ≡ Ok image) }
    ensures valid { IfOk result IsValid }
    ensures fault { IfErr result (Names (image_behind labels.now BODY_LINE start (said_in body.now))) }
{
    let mut number = BODY_LINE;
    let mut draft = start;
    let mut rest = body;
    while let Some((line, more)) = first_line(rest) {
        let Some(statement) = read_statement(line) else {
            return Err(AsmError::Bad { line: number });
        };
        let Some(next) = draft.with_statement(alloc, labels, number, more, statement)? else {
            return Err(AsmError::Bad { line: number });
        };
        draft = next;
        number += 1;
        rest = more;
    }
    if !rest.is_empty() {
        return Err(AsmError::Bad { line: number });
    }
    Ok(draft.close(alloc)?)
}

/// Reads a source as an image, by the grammar in `docs/FORMATS.md`, "Assembler source". A source
/// that gives none is answered by the number of its line at fault. A label is found by going through
/// the labels before it.
#[tactic(auto, unfolding(crate::specs::Sources::assembled))]
pub fn assemble(alloc: Global, text: &[u8]) -> Result<Image, AsmError>
    requires { length text.now ≤ MAX_SOURCE }
    ensures image { IfOk result (λ image. assembled text.now ≡ Ok image) }
    ensures valid { IfOk result IsValid }
    ensures fault { IfErr result (Names (assembled text.now)) }
{
    if let Some(line) = first_formless(text) {
        return Err(AsmError::Bad { line });
    }
    let labels = read_labels(alloc, text)?;
    let (image, body) = read_head(alloc, text)?;
    fill(alloc, &labels, Draft::start(image), body)
}
