//! An image as it is filled, statement by statement.
ghost use Rattle.std.specs.Prelude.{◌≡◌, ◌+◌, ◌≤◌, ◌<◌, ◌∷◌, [], length, IfOk, OnOk, OnErr, Some, None};
ghost use Rattle.std.specs.Int.{w32, to_le_bytes};
ghost use Rattle.axp_image.specs.Contents.{IsValid, last_end};
ghost use Rattle.axp_image.specs.declared.limits.TheConstants.{MAX_MEMORY};
ghost use Rattle.axp_decode.specs.Format.{word_of};
ghost use Rattle.axp_source.specs.Items.{item_in};
ghost use Rattle.axp_asm.specs.Lines.{said_in};
ghost use Rattle.axp_asm.specs.Drafts.{closed, draft, displacement_to, end_of_draft, have_bytes, is_start};
ghost use Rattle.axp_asm.specs.Drafts.{is_on, with_branch, with_bytes, with_directive, with_item};
ghost use Rattle.axp_asm.specs.Drafts.{with_label, with_last, with_start, with_word};
ghost use Rattle.axp_asm.specs.Seen.{IsFilled};

use crate::labels::{LabelList, Place, displacement, size_of};
use axp_base::{Bytes, NoMemory};
use axp_decode::{BranchOp, Instr, encode};
use axp_image::{INSTRUCTION_BYTES, Image, MAX_SEGMENTS};
use axp_source::{Directive, Statement, read_statement};
use axp_trace::first_line;
use std::alloc::Global;
use std::marker::Model;

/// The segment that is being filled.
#[derive(Debug, Drop)]
struct Part {
    address: u64,
    bytes: Bytes,
}

impl Model for Part {
    ghost use Rattle.axp_image.specs.Contents.{Segment, segment_of};

    ghost Value = { Segment };

    ghost view = { λ p. segment_of p.address p.bytes };
}

/// An image with the segments before the last, and the last.
#[derive(Debug, Drop)]
pub(crate) struct Draft {
    image: Image,
    last: Option<Part>,
}

impl Model for Draft {
    ghost use Rattle.axp_asm.specs.Drafts as seen;
    ghost use Rattle.axp_asm.specs.Seen.{IsFilled};

    ghost Value = { seen.Draft };

    ghost view = { λ d. seen.draft d.image d.last };

    ghost invariant = { λ d. IsFilled (seen.draft d.image d.last) };
}

/// Whether a statement begins a segment.
fn is_start(statement: &Statement<'_>) -> bool
    ensures { result ≡ is_start (item_in statement.now) }
{
    match *statement {
        Statement::Directive(Directive::At(_)) => true,
        Statement::Directive(
            Directive::Memory(_)
            | Directive::Entry(_)
            | Directive::Stack(_)
            | Directive::Table(_)
            | Directive::Byte(_)
            | Directive::Word(_),
        )
        | Statement::Label(_)
        | Statement::Instruction(_)
        | Statement::BranchTo { .. } => false,
    }
}

/// Whether some statement of a text has bytes before the next that begins a segment.
#[tactic(auto, unfolding(crate::specs::Lines::said_in))]
fn have_bytes(text: &[u8]) -> bool
    ensures { result ≡ have_bytes (said_in text.now) }
{
    let mut rest = text;
    while let Some((line, more)) = first_line(rest) {
        let Some(statement) = read_statement(line) else {
            return false;
        };
        if is_start(&statement) {
            return false;
        }
        if 0 < size_of(&statement) {
            return true;
        }
        rest = more;
    }
    false
}

/// Whether the first place of a label is on this line.
fn is_on(line: u32, place: Option<Place>) -> bool
    ensures { result ≡ is_on line place }
{
    match place {
        Some(place) => place.line == line,
        None => false,
    }
}

/// The address behind the last segment of an image.
fn end_of_image(image: &Image) -> u64
    ensures value { result ≡ last_end image.now.segments }
    ensures within { result ≤ image.now.size }
{
    match image.segments() {
        0 => 0,
        count => {
            let (address, bytes) = image.segment(count - 1);
            address + bytes.len() as u64
        }
    }
}

/// An image with one more segment, if that has bytes.
fn with_last(alloc: Global, mut image: Image, last: Option<Part>) -> Result<Image, NoMemory>
    requires { IsFilled (draft image last) }
    ensures { IfOk result (λ i. i ≡ with_last image last) }
{
    if let Some(part) = last {
        let bytes = part.bytes.as_slice();
        if !bytes.is_empty() {
            image.add(alloc, part.address, bytes)?;
        }
    }
    Ok(image)
}

impl Draft {
    /// The draft of an image without segments.
    pub(crate) fn start(image: Image) -> Draft
        ensures { result ≡ draft image None }
    {
        let _size = image.size();
        Draft { image, last: None }
    }

    /// The image of what stands.
    #[tactic(auto, using(crate::proofs::EndLemmas::closed_below))]
    pub(crate) fn close(self, alloc: Global) -> Result<Image, NoMemory>
        ensures image { IfOk result (λ image. image ≡ closed self) }
        ensures behind { IfOk result (λ image. last_end image.segments ≤ end_of_draft self) }
        ensures valid { IfOk result IsValid }
    {
        let image = with_last(alloc, self.image, self.last)?;
        let _size = image.size();
        Ok(image)
    }

    /// The address behind all that stands.
    fn end(&self) -> u64
        ensures value { result ≡ end_of_draft self.now }
        ensures within { result ≤ MAX_MEMORY }
    {
        match &self.last {
            Some(part) => part.address + part.bytes.as_slice().len() as u64,
            None => end_of_image(&self.image),
        }
    }

    /// The draft with a segment at an address behind it, if that may follow before these lines.
    fn with_start(self, alloc: Global, rest: &[u8], address: u64) -> Result<Option<Draft>, NoMemory>
        ensures { IfOk result (λ d. d ≡ with_start (said_in rest.now) self address) }
    {
        let end = self.end();
        let image = self.close(alloc)?;
        if end <= address
            && address < image.size()
            && image.segments() < MAX_SEGMENTS
            && have_bytes(rest)
        {
            let bytes = Bytes::empty(alloc);
            Ok(Some(Draft {
                image,
                last: Some(Part { address, bytes }),
            }))
        } else {
            Ok(None)
        }
    }

    /// The draft with more bytes, where they lie in memory and in a segment.
    fn with_bytes(self, alloc: Global, bytes: &[u8]) -> Result<Option<Draft>, NoMemory>
        ensures { IfOk result (λ d. d ≡ with_bytes self bytes.now) }
    {
        let end = self.end();
        let Draft { image, last } = self;
        let Some(mut part) = last else {
            return Ok(None);
        };
        if image.size() - end < bytes.len() as u64 {
            return Ok(None);
        }
        part.bytes.append(alloc, bytes)?;
        Ok(Some(Draft {
            image,
            last: Some(part),
        }))
    }

    /// The draft with one more word.
    fn with_word(self, alloc: Global, word: u32) -> Result<Option<Draft>, NoMemory>
        ensures { IfOk result (λ d. d ≡ with_word self word) }
    {
        self.with_bytes(alloc, &word.to_le_bytes())
    }

    /// The draft with a label that stands on a line, if it is in a segment and the first of its name.
    fn with_label(self, labels: &LabelList<'_>, line: u32, name: &[u8]) -> Option<Draft>
        ensures { result ≡ with_label labels.now line self name.now }
    {
        if self.last.is_some() && is_on(line, labels.find(name)) {
            Some(self)
        } else {
            None
        }
    }

    /// The bits of the displacement of a branch to a label that stands behind the draft.
    fn displacement_to(&self, labels: &LabelList<'_>, label: &[u8]) -> Option<u32>
        ensures { result ≡ displacement_to labels.now self.now label.now }
    {
        let place = labels.find(label)?;
        displacement(self.end() + INSTRUCTION_BYTES, place.address)
    }

    /// The draft with a branch to a label.
    fn with_branch(
        self,
        alloc: Global,
        labels: &LabelList<'_>,
        op: BranchOp,
        a: u8,
        label: &[u8],
    ) -> Result<Option<Draft>, NoMemory>
        ensures { IfOk result
            (λ d. d ≡ with_branch self op a (displacement_to labels.now self label.now)) }
    {
        match self.displacement_to(labels, label) {
            Some(disp) => self.with_word(alloc, encode(&Instr::Branch { op, a, disp })),
            None => Ok(None),
        }
    }

    /// The draft with what a directive says.
    fn with_directive(
        self,
        alloc: Global,
        rest: &[u8],
        directive: Directive,
    ) -> Result<Option<Draft>, NoMemory>
        ensures { IfOk result (λ d. d ≡ with_directive (said_in rest.now) self directive) }
    {
        match directive {
            Directive::At(address) => self.with_start(alloc, rest, u64::from(address)),
            Directive::Byte(byte) => self.with_bytes(alloc, &[byte]),
            Directive::Word(word) => self.with_word(alloc, word),
            Directive::Memory(_)
            | Directive::Entry(_)
            | Directive::Stack(_)
            | Directive::Table(_) => { Ok(None) }
        }
    }

    /// The draft with the statement of a line, before other lines; `None` where the line is at fault.
    pub(crate) fn with_statement(
        self,
        alloc: Global,
        labels: &LabelList<'_>,
        line: u32,
        rest: &[u8],
        statement: Statement<'_>,
    ) -> Result<Option<Draft>, NoMemory>
        ensures { IfOk result
            (λ d. d ≡ with_item labels.now line (said_in rest.now) self (item_in statement.entry)) }
    {
        match statement {
            Statement::Directive(directive) => self.with_directive(alloc, rest, directive),
            Statement::Label(name) => Ok(self.with_label(labels, line, name)),
            Statement::Instruction(instr) => self.with_word(alloc, encode(&instr)),
            Statement::BranchTo { op, a, label } => self.with_branch(alloc, labels, op, a, label),
        }
    }
}
