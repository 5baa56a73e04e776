//! Where the labels of a source stand.
ghost use Rattle.std.specs.Prelude.{◌≡◌, ◌+◌, ◌*◌, ◌++◌, ◌≤◌, ◌<◌, ◌^◌, ◌∷◌, [], length, IfOk, OnOk};
ghost use Rattle.axp_source.specs.Items.{item_in};
ghost use Rattle.axp_source.specs.declared.numbers.TheConstants.{BRANCH_HALF};
ghost use Rattle.axp_asm.specs.Labels.{displacement, bits_up, bits_down, found, named, labels_of};
ghost use Rattle.axp_asm.specs.Labels.{size_of, address_behind};
ghost use Rattle.axp_asm.specs.Lines.{said_in};
ghost use Rattle.axp_asm.specs.declared.layout.TheConstants.{MAX_SOURCE};

use axp_base::NoMemory;
use axp_image::INSTRUCTION_BYTES;
use axp_source::{BRANCH_HALF, Directive, Statement, read_statement};
use axp_trace::first_line;
use std::alloc::Global;
use std::marker::Model;

/// A line, counted from 1, and the physical address of what follows it.
#[derive(Clone, Copy, Debug, PartialEq, Eq)]
pub(crate) struct Place {
    pub(crate) line: u32,
    pub(crate) address: u64,
}

/// A label and where it stands.
#[derive(Clone, Copy, Debug)]
struct Label<'a> {
    name: &'a [u8],
    place: Place,
}

/// The labels of a source, in the order of their lines.
#[derive(Debug, Drop)]
pub(crate) struct LabelList<'a> {
    items: Vec<Label<'a>>,
}

impl<'a> Model for LabelList<'a> {
    ghost use Rattle.std.specs.Prelude.{List, map};
    ghost use Rattle.axp_asm.specs.Labels.{Named};
    ghost use Rattle.axp_asm.specs.Seen.{named_by};

    ghost Value = { List Named };

    ghost view = { λ l. map named_by l.items.items };
}

impl<'a> LabelList<'a> {
    /// No labels.
    fn empty(alloc: Global) -> LabelList<'a>
        ensures { result ≡ [] }
    {
        LabelList {
            items: Vec::new(alloc),
        }
    }

    /// Puts a label last.
    fn push(&mut self, name: &'a [u8], place: Place) -> Result<(), NoMemory>
        ensures { OnOk result (self.new ≡ self.old ++ named name.now place.line place.address ∷ []) }
    {
        self.items.push(Label { name, place })?;
        Ok(())
    }

    /// Where the first label of this name stands.
    pub(crate) fn find(&self, name: &[u8]) -> Option<Place>
        ensures { result ≡ found name.now self.now }
    {
        for label in &self.items {
            if name == label.name {
                return Some(label.place);
            }
        }
        None
    }
}

/// The number of bytes that a statement puts into memory.
pub(crate) fn size_of(statement: &Statement<'_>) -> u64
    ensures { result ≡ size_of (item_in statement.now) }
{
    match *statement {
        Statement::Directive(Directive::Byte(_)) => 1,
        Statement::Directive(Directive::Word(_))
        | Statement::Instruction(_)
        | Statement::BranchTo { .. } => INSTRUCTION_BYTES,
        Statement::Directive(
            Directive::Memory(_)
            | Directive::Entry(_)
            | Directive::Stack(_)
            | Directive::Table(_)
            | Directive::At(_),
        )
        | Statement::Label(_) => 0,
    }
}

/// The address behind a statement that stands at an address.
fn address_behind(address: u64, statement: &Statement<'_>) -> u64
    requires { address < 2 ^ 63 }
    ensures value { result ≡ address_behind address (item_in statement.now) }
    ensures near { result ≤ address + 2 ^ 32 }
{
    match *statement {
        Statement::Directive(Directive::At(x)) => u64::from(x),
        _ => address + size_of(statement),
    }
}

/// The labels of a source; of lines that are no statements there are none.
#[tactic(auto, unfolding(crate::specs::Lines::said_in))]
pub(crate) fn read_labels<'a>(alloc: Global, text: &'a [u8]) -> Result<LabelList<'a>, NoMemory>
    requires { length text.now ≤ MAX_SOURCE }
    ensures { IfOk result (λ labels. labels ≡ labels_of 1 0 (said_in text.now)) }
{
    let mut labels = LabelList::empty(alloc);
    let mut place = Place {
        line: 1,
        address: 0,
    };
    let mut rest = text;
    while let Some((line, more)) = first_line(rest) {
        place.address = match read_statement(line) {
            Some(Statement::Label(name)) => {
                labels.push(name, place)?;
                place.address
            }
            Some(statement) => address_behind(place.address, &statement),
            None => place.address,
        };
        place.line += 1;
        rest = more;
    }
    Ok(labels)
}

/// The bits of a displacement of so many bytes up.
fn bits_up(bytes: u64) -> Option<u32>
    ensures { result ≡ bits_up bytes }
{
    let words = bytes / INSTRUCTION_BYTES;
    if bytes % INSTRUCTION_BYTES == 0 && words < u64::from(BRANCH_HALF) {
        Some(words as u32)
    } else {
        None
    }
}

/// The bits of a displacement of so many bytes down.
fn bits_down(bytes: u64) -> Option<u32>
    ensures { result ≡ bits_down bytes }
{
    let words = bytes / INSTRUCTION_BYTES;
    if bytes % INSTRUCTION_BYTES == 0 && words <= u64::from(BRANCH_HALF) {
        Some(2 * BRANCH_HALF - words as u32)
    } else {
        None
    }
}

/// The bits of the displacement by which a branch leads from the address behind it to another;
/// `None` where they are no whole number of words apart, or too far.
#[tactic(auto, unfolding(crate::specs::Labels::displacement))]
pub(crate) fn displacement(from: u64, target: u64) -> Option<u32>
    ensures { result ≡ displacement from target }
{
    if from <= target {
        bits_up(target - from)
    } else {
        bits_down(from - target)
    }
}
