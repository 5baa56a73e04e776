//! The statement that a line spells.
ghost use Rattle.std.specs.Prelude.{ℕ, ◌≡◌, ◌↔◌, ◌<◌, ◌^◌, Some, IsNone, IfSome};
ghost use Rattle.axp_trace.specs.Fields.{cut_at};
ghost use Rattle.axp_source.specs.Fields.{register_in};
ghost use Rattle.axp_source.specs.Items.{Item, Fits, item_read};
ghost use Rattle.axp_source.specs.Reading.{directive_in, directive_if, directive_by, instr_if};
ghost use Rattle.axp_source.specs.Reading.{memory_by, jump_by, three_by, three_in, misc_by};
ghost use Rattle.axp_source.specs.Reading.{named_by, instr_in, branch_to, branch_in};
ghost use Rattle.axp_source.specs.Reading.{operands_by, operands_in, label_by, word_by};
ghost use Rattle.axp_source.specs.Reading.{plain_by, item_of, pal_by};
ghost use Rattle.axp_source.specs.Names.{branch_named, jump_named, memory_named, misc_named};
ghost use Rattle.axp_source.specs.Names.{operate_named, pal_named};
ghost use Rattle.axp_source.specs.Texts.{item_text};

use crate::cuts::cut;
use crate::fields::{begins, guess_operand, guess_register, guess_signed, is_label, push_register};
use crate::names::{branch_named, jump_named, memory_named, misc_named, operate_named, pal_named};
use crate::numbers::{BRANCH_HALF, MEMORY_HALF, hex_in, number_in};
use crate::texts::{instruction_text, write_directive};
use crate::{Directive, Statement};
use axp_decode::{BranchOp, Instr, MemOp};
use axp_trace::LineText;

/// What the name of a directive and a word mean.
fn guess_directive(name: &[u8], word: &[u8]) -> Option<Directive>
    ensures { result ≡ directive_in name.now word.now }
{
    if name == b".memory" as &[u8] {
        Some(Directive::Memory(number_in(word)))
    } else if name == b".entry" as &[u8] {
        Some(Directive::Entry(hex_in(word)))
    } else if name == b".stack" as &[u8] {
        Some(Directive::Stack(hex_in(word)))
    } else if name == b".table" as &[u8] {
        Some(Directive::Table(number_in(word)))
    } else if name == b".at" as &[u8] {
        Some(Directive::At((hex_in(word) % (1 << 32)) as u32))
    } else if name == b".byte" as &[u8] {
        Some(Directive::Byte((hex_in(word) % (1 << 8)) as u8))
    } else if name == b".word" as &[u8] {
        Some(Directive::Word((hex_in(word) % (1 << 32)) as u32))
    } else {
        None
    }
}

/// The directive that a line spells.
fn read_directive(line: &[u8]) -> Option<Statement<'static>>
    ensures { item_read result ≡ directive_by line.now (cut_at 32 line.now) }
{
    let (name, word) = cut(line, b' ')?;
    let directive = guess_directive(name, word)?;
    if write_directive(directive).as_slice() == line {
        Some(Statement::Directive(directive))
    } else {
        None
    }
}

/// The instruction, if the line is its text.
fn read_as(line: &[u8], instr: Option<Instr>) -> Option<Statement<'static>>
    ensures { item_read result ≡ instr_if line.now instr }
{
    let instr = instr?;
    if instruction_text(instr).as_slice() == line {
        Some(Statement::Instruction(instr))
    } else {
        None
    }
}

/// What the operands of the memory format mean: register Ra, and a displacement with Rb in brackets.
fn guess_memory(op: MemOp, a: u8, rest: &[u8]) -> Option<Instr>
    ensures { result ≡ memory_by op a (cut_at 40 rest.now) }
{
    let (disp, b) = cut(rest, b'(')?;
    Some(Instr::Memory {
        op,
        a,
        b: guess_register(b),
        disp: guess_signed(disp, MEMORY_HALF) as u16,
    })
}

/// What the operands of a jump mean: register Ra, Rb in brackets, and a hint.
fn guess_jump(name: &[u8], a: u8, b: &[u8], hint: &[u8]) -> Option<Instr>
    ensures { result ≡ jump_by (jump_named name.now) a b.now hint.now }
{
    let kind = jump_named(name)?;
    Some(Instr::Jump {
        kind,
        a,
        b: guess_register(b),
        hint: (number_in(hint) % (1 << 14)) as u16,
    })
}

/// What a name and three operands mean: an instruction of the operate format, or else a jump.
fn guess_three(name: &[u8], a: u8, rest: &[u8]) -> Option<Instr>
    ensures { result ≡ three_in name.now a (cut_at 44 rest.now) }
{
    let (b, c) = cut(rest, b',')?;
    match operate_named(name) {
        Some(op) => Some(Instr::Operate {
            op,
            a,
            b: guess_operand(b),
            c: guess_register(c),
        }),
        None => guess_jump(name, a, b, c),
    }
}

/// What the name of a miscellaneous instruction, of the operate format or of a jump means, with its
/// operands.
fn guess_other(name: &[u8], a: u8, rest: &[u8]) -> Option<Instr>
    ensures { result ≡ misc_by (misc_named name.now) name.now a rest.now }
{
    match misc_named(name) {
        Some(op) => Some(Instr::Misc {
            op,
            a,
            b: guess_register(rest),
        }),
        None => guess_three(name, a, rest),
    }
}

/// What a name that is no branch's means, with the first operand and the others.
fn guess_instruction(name: &[u8], first: &[u8], rest: &[u8]) -> Option<Instr>
    ensures { result ≡ instr_in name.now first.now rest.now }
{
    let a = guess_register(first);
    match memory_named(name) {
        Some(op) => guess_memory(op, a, rest),
        None => guess_other(name, a, rest),
    }
}

/// A branch to a label, if the register of the branch is spelled so.
fn read_branch_to<'a>(op: BranchOp, first: &[u8], label: &'a [u8]) -> Option<Statement<'a>>
    ensures { item_read result ≡ branch_to op first.now label.now }
{
    let a = guess_register(first);
    let mut text = LineText::new();
    push_register(&mut text, a);
    if first == text.as_slice() {
        Some(Statement::BranchTo { op, a, label })
    } else {
        None
    }
}

/// What a branch spells: one to a label, or else one by a displacement.
fn read_branch<'a>(
    line: &[u8],
    op: BranchOp,
    first: &[u8],
    target: &'a [u8],
) -> Option<Statement<'a>>
    ensures { item_read result ≡ branch_in line.now op first.now target.now }
{
    if is_label(target) {
        read_branch_to(op, first, target)
    } else {
        let branch = Instr::Branch {
            op,
            a: guess_register(first),
            disp: guess_signed(target, BRANCH_HALF),
        };
        read_as(line, Some(branch))
    }
}

/// What a name and its operands spell, of which there are two or three.
fn read_operands<'a>(line: &[u8], name: &[u8], operands: &'a [u8]) -> Option<Statement<'a>>
    ensures { item_read result ≡ operands_in line.now name.now (cut_at 44 operands.now) }
{
    let (first, rest) = cut(operands, b',')?;
    match branch_named(name) {
        Some(op) => read_branch(line, op, first, rest),
        None => read_as(line, guess_instruction(name, first, rest)),
    }
}

/// A call of PALcode.
fn read_pal(word: &[u8]) -> Option<Statement<'static>>
    ensures { item_read result ≡ pal_by (pal_named word.now) }
{
    let op = pal_named(word)?;
    Some(Statement::Instruction(Instr::Pal { op }))
}

/// A label, if nothing stands behind its colon.
fn read_label<'a>(name: &'a [u8], behind: &[u8]) -> Option<Statement<'a>>
    ensures { item_read result ≡ label_by name.now behind.now }
{
    if behind.is_empty() && is_label(name) {
        Some(Statement::Label(name))
    } else {
        None
    }
}

/// What a line without a blank spells: a label, or else a call of PALcode.
fn read_word(word: &[u8]) -> Option<Statement<'_>>
    ensures { item_read result ≡ word_by word.now (cut_at 58 word.now) }
{
    match cut(word, b':') {
        Some((name, behind)) => read_label(name, behind),
        None => read_pal(word),
    }
}

/// What a line spells that is no directive.
fn read_plain(line: &[u8]) -> Option<Statement<'_>>
    ensures { item_read result ≡ plain_by line.now (cut_at 32 line.now) }
{
    match cut(line, b' ') {
        Some((name, operands)) => read_operands(line, name, operands),
        None => read_word(line),
    }
}

/// What a line spells.
#[tactic(auto, unfolding(crate::specs::Reading::item_of))]
fn read(line: &[u8]) -> Option<Statement<'_>>
    ensures { item_read result ≡ item_of line.now }
{
    if begins(line, b'.') {
        read_directive(line)
    } else {
        read_plain(line)
    }
}

/// The statement that a line, without its line feed, spells; `None` where the line is the text of
/// none (`docs/FORMATS.md`, "Assembler source").
pub fn read_statement(line: &[u8]) -> Option<Statement<'_>>
    ensures value { item_read result ≡ item_of line.now }
    ensures spelled { (s : Item) → (item_read result ≡ Some s) ↔ ((line.now ≡ item_text s) × Fits s) }
    ensures means { IfSome (item_read result) (λ s. (line.now ≡ item_text s) × Fits s) }
    ensures none { IsNone result ↔ ((s : Item) → line.now ≡ item_text s → Fits s → ⊥) }
{
    read(line)
}
