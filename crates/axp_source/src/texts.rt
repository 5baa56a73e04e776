//! The lines of directives and instructions.
ghost use Rattle.std.specs.Prelude.{◌≡◌, ◌+◌, ◌≤◌, ◌++◌, ◌↔◌, IsNone, IfSome, false};
ghost use Rattle.arrayvec.specs.ArrayVec.{array_vec_len};
ghost use Rattle.axp_trace.specs.declared.lines.TheConstants.{LINE_ROOM};
ghost use Rattle.axp_source.specs.Items.{is_written};
ghost use Rattle.axp_source.specs.Texts.{directive_text, instr_text, memory_operands};
ghost use Rattle.axp_source.specs.Texts.{branch_operands, jump_operands, operate_operands};
ghost use Rattle.axp_source.specs.Texts.{misc_operands, signed_text};
ghost use Rattle.axp_source.specs.declared.numbers.TheConstants.{BRANCH_HALF};

use crate::Directive;
use crate::fields::{push_operand, push_register, push_signed};
use crate::names::{branch_name, jump_name, memory_name, misc_name, operate_name, pal_name};
use crate::numbers::{BRANCH_HALF, MEMORY_HALF, push_all, push_decimal, push_hex};
use axp_decode::{Instr, Operand};
use axp_trace::LineText;

/// The line of a directive, without its line feed (`docs/FORMATS.md`, "Assembler source").
#[tactic(auto, unfolding(crate::specs::Texts::directive_text))]
pub fn write_directive(directive: Directive) -> LineText
    ensures { result.items ≡ directive_text directive }
{
    let mut out = LineText::new();
    match directive {
        Directive::Memory(size) => {
            push_all(&mut out, b".memory ");
            push_decimal(&mut out, size);
        }
        Directive::Entry(address) => {
            push_all(&mut out, b".entry ");
            push_hex(&mut out, 16, address);
        }
        Directive::Stack(word) => {
            push_all(&mut out, b".stack ");
            push_hex(&mut out, 16, word);
        }
        Directive::Table(page) => {
            push_all(&mut out, b".table ");
            push_decimal(&mut out, page);
        }
        Directive::At(address) => {
            push_all(&mut out, b".at ");
            push_hex(&mut out, 8, address as u64);
        }
        Directive::Byte(byte) => {
            push_all(&mut out, b".byte ");
            push_hex(&mut out, 2, byte as u64);
        }
        Directive::Word(word) => {
            push_all(&mut out, b".word ");
            push_hex(&mut out, 8, word as u64);
        }
    }
    out
}

/// Appends the operands of the memory format.
fn push_memory(out: &mut LineText, a: u8, b: u8, disp: u16)
    requires { array_vec_len out.old + 32 ≤ LINE_ROOM }
    ensures text { out.new.items ≡ out.old.items ++ memory_operands a b disp }
{
    push_register(out, a);
    push_all(out, b",");
    push_signed(out, MEMORY_HALF, disp as u32);
    push_all(out, b"(");
    push_register(out, b);
    push_all(out, b")");
}

/// Appends the operands of a branch by a displacement.
fn push_branch(out: &mut LineText, a: u8, disp: u32)
    requires { array_vec_len out.old + 32 ≤ LINE_ROOM }
    ensures text { out.new.items ≡ out.old.items ++ branch_operands a (signed_text BRANCH_HALF disp) }
{
    push_register(out, a);
    push_all(out, b",");
    push_signed(out, BRANCH_HALF, disp);
}

/// Appends the operands of a jump.
fn push_jump(out: &mut LineText, a: u8, b: u8, hint: u16)
    requires { array_vec_len out.old + 32 ≤ LINE_ROOM }
    ensures text { out.new.items ≡ out.old.items ++ jump_operands a b hint }
{
    push_register(out, a);
    push_all(out, b",(");
    push_register(out, b);
    push_all(out, b"),");
    push_decimal(out, hint as u64);
}

/// Appends the operands of the operate format.
fn push_operate(out: &mut LineText, a: u8, b: Operand, c: u8)
    requires { array_vec_len out.old + 32 ≤ LINE_ROOM }
    ensures text { out.new.items ≡ out.old.items ++ operate_operands a b c }
{
    push_register(out, a);
    push_all(out, b",");
    push_operand(out, b);
    push_all(out, b",");
    push_register(out, c);
}

/// Appends the operands of a miscellaneous instruction.
fn push_misc(out: &mut LineText, a: u8, b: u8)
    requires { array_vec_len out.old + 32 ≤ LINE_ROOM }
    ensures text { out.new.items ≡ out.old.items ++ misc_operands a b }
{
    push_register(out, a);
    push_all(out, b",");
    push_register(out, b);
}

/// The line of an instruction; empty for a word that is no instruction, and for an operand register
/// without its pad.
#[tactic(auto, unfolding(crate::specs::Texts::instr_text))]
pub(crate) fn instruction_text(instr: Instr) -> LineText
    ensures { result.items ≡ instr_text instr }
{
    let mut out = LineText::new();
    match instr {
        Instr::Memory { op, a, b, disp } => {
            push_all(&mut out, memory_name(op));
            push_all(&mut out, b" ");
            push_memory(&mut out, a, b, disp);
        }
        Instr::Branch { op, a, disp } => {
            push_all(&mut out, branch_name(op));
            push_all(&mut out, b" ");
            push_branch(&mut out, a, disp);
        }
        Instr::Jump { kind, a, b, hint } => {
            push_all(&mut out, jump_name(kind));
            push_all(&mut out, b" ");
            push_jump(&mut out, a, b, hint);
        }
        Instr::Operate { op, a, b, c } => {
            push_all(&mut out, operate_name(op));
            push_all(&mut out, b" ");
            push_operate(&mut out, a, b, c);
        }
        Instr::Misc { op, a, b } => {
            push_all(&mut out, misc_name(op));
            push_all(&mut out, b" ");
            push_misc(&mut out, a, b);
        }
        Instr::Pal { op } => push_all(&mut out, pal_name(op)),
        Instr::Floating { word: _ } => {}
        Instr::Reserved { word: _ } => {}
    }
    out
}

/// Whether an instruction has a line.
fn is_written(instr: Instr) -> bool
    ensures { result ≡ is_written instr }
{
    match instr {
        Instr::Operate {
            op: _,
            a: _,
            b,
            c: _,
        } => match b {
            Operand::Reg { n: _, pad } => pad == 0,
            Operand::Literal { value: _ } => true,
        },
        Instr::Floating { word: _ } => false,
        Instr::Reserved { word: _ } => false,
        _ => true,
    }
}

/// The line of an instruction, without its line feed (`docs/FORMATS.md`, "Assembler source");
/// `None` exactly where it has none: a word that stands in no table or is one of floating point, and
/// an operand register with a pad other than 0, which no line tells.
pub fn write_instruction(instr: Instr) -> Option<LineText>
    ensures text { IfSome result (λ t. t.items ≡ instr_text instr) }
    ensures none { IsNone result ↔ (is_written instr ≡ false) }
{
    if is_written(instr) {
        Some(instruction_text(instr))
    } else {
        None
    }
}
