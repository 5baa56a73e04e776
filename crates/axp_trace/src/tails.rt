//! The lines of a trace's tail, both ways.
ghost use Rattle.std.specs.Prelude.{ℕ, List, ◌≡◌, ◌+◌, ◌*◌, ◌^◌, ◌≤◌, ◌<◌, ◌++◌, ◌∷◌, ◌↔◌, IfSome, IfOk};
ghost use Rattle.std.specs.Prelude.{Some, None, true, false, map, ◌&&◌, length, codes};
ghost use Rattle.std.specs.Str.{bytes_eq};
ghost use Rattle.arrayvec.specs.ArrayVec.{array_vec_len};
ghost use Rattle.axp_base.specs.Cpus.{cpu_number};
ghost use Rattle.axp_access.specs.declared.tail_items.TailItem.{TailItem};
ghost use Rattle.axp_trace.specs.Lines.{end_text, processor_line, register_line, memory_line};
ghost use Rattle.axp_trace.specs.Lines.{console_line, end_line, tail_line, halted_of};
ghost use Rattle.axp_trace.specs.Fields.{words_of, cut_at};
ghost use Rattle.axp_trace.specs.Tails.{ended_in, halted_in, end_in, quadword_in};
ghost use Rattle.axp_trace.specs.Tails.{register_in, processor_in, item_in, console_in, tail_if, tail_of};
ghost use Rattle.axp_trace.specs.Tails.{is_cpu_below, is_console, is_item, is_hex_digit, is_pairs};
ghost use Rattle.axp_trace.specs.Tails.{is_console_word};
ghost use Rattle.axp_trace.specs.Tails.{IsItem};
ghost use Rattle.axp_trace.specs.declared.fields.TheConstants.{BLANK};
ghost use Rattle.axp_trace.specs.declared.tails.TheConstants.{MOST_HALT};
ghost use Rattle.axp_trace.specs.declared.lines.TheConstants.{LINE_ROOM};

use crate::LineText;
use crate::cuts::cut;
use crate::digits::{
    VALUE_DIGITS, push_all, push_byte, push_decimal, push_hex, read_hex, read_within,
};
use crate::fields::{BLANK, MOST_NUMBER, guess_cpu, guess_moved, words};
use arrayvec::ArrayVec;
use axp_access::{Bytes, TailItem};
use axp_base::{Cpu, NoMemory, QUADWORD_BYTES};
use hex::encode_upper;
use std::alloc::Global;

/// The greatest halt code.
const MOST_HALT: u64 = 4;

/// The greatest number of a register that a line has.
const MOST_REGISTER: u64 = 30;

/// Appends how a processor ended.
fn push_end(out: &mut LineText, halted: Option<u8>)
    requires { array_vec_len out.old + 9 ≤ LINE_ROOM }
    ensures text { out.new.items ≡ out.old.items ++ end_text halted }
    ensures len { array_vec_len out.new ≤ array_vec_len out.old + 9 }
{
    match halted {
        Some(code) => {
            push_all(out, b" halt ");
            push_byte(out, code);
        }
        None => push_all(out, b" spent"),
    }
}

/// The line of a processor at the end: the code with which it halted, or none where its budget is
/// spent, the number of its steps, and its program counter.
#[tactic(auto, unfolding(crate::specs::Lines::processor_line))]
fn write_processor(cpu: Cpu, halted: Option<u8>, steps: u32, pc: u64) -> LineText
    ensures text { result.items ≡ processor_line (cpu_number cpu) halted steps pc }
    ensures short { array_vec_len result < LINE_ROOM }
{
    let mut out = ArrayVec::new();
    push_all(&mut out, b"cpu ");
    push_byte(&mut out, cpu.number());
    push_end(&mut out, halted);
    push_all(&mut out, b" steps ");
    push_decimal(&mut out, steps);
    push_all(&mut out, b" pc ");
    push_hex(&mut out, 16, pc);
    out
}

/// The line of register `n` of a processor at the end.
#[tactic(auto, unfolding(crate::specs::Lines::register_line))]
fn write_register(cpu: Cpu, n: u8, value: u64) -> LineText
    ensures text { result.items ≡ register_line (cpu_number cpu) n value }
    ensures short { array_vec_len result < LINE_ROOM }
{
    let mut out = ArrayVec::new();
    push_all(&mut out, b"reg ");
    push_byte(&mut out, cpu.number());
    push_all(&mut out, b" ");
    push_byte(&mut out, n);
    push_all(&mut out, b" ");
    push_hex(&mut out, 16, value);
    out
}

/// The line of the quadword of memory at `address` at the end.
#[tactic(auto, unfolding(crate::specs::Lines::memory_line))]
fn write_memory(address: u64, value: u64) -> LineText
    ensures text { result.items ≡ memory_line address value }
    ensures short { array_vec_len result < LINE_ROOM }
{
    let mut out = ArrayVec::new();
    push_all(&mut out, b"mem ");
    push_hex(&mut out, 8, address);
    push_all(&mut out, b" ");
    push_hex(&mut out, 16, value);
    out
}

/// The last line of a trace: the number of its events.
#[tactic(auto, unfolding(crate::specs::Lines::end_line))]
fn write_end(events: u32) -> LineText
    ensures text { result.items ≡ end_line events }
    ensures short { array_vec_len result < LINE_ROOM }
{
    let mut out = ArrayVec::new();
    push_all(&mut out, b"end ");
    push_decimal(&mut out, events);
    out
}

/// The halt code of a processor; `None` for 0, where its budget is spent.
fn halted(halt: u8) -> Option<u8>
    ensures { result ≡ halted_of halt }
{
    if halt == 0 { None } else { Some(halt) }
}

/// The line of an item other than the console's, which alone has no bound on its length.
fn short_line(item: &TailItem) -> LineText
    requires { is_console item.now ≡ false }
    ensures { result.items ≡ tail_line item.now }
{
    match item {
        TailItem::Cpu {
            cpu,
            halt,
            steps,
            pc,
        } => write_processor(*cpu, halted(*halt), *steps, *pc),
        TailItem::Reg { cpu, n, value } => write_register(*cpu, *n, *value),
        TailItem::Mem { address, value } => write_memory(*address, *value),
        TailItem::Console { bytes: _ } => unreachable!(),
        TailItem::End { events } => write_end(*events),
    }
}

/// The line of the bytes that were sent to the console.
#[tactic(auto, unfolding(crate::specs::Lines::console_line))]
fn write_console(alloc: Global, bytes: &[u8]) -> Result<Bytes, NoMemory>
    ensures { IfOk result (λ line. line ≡ console_line bytes.now) }
{
    if bytes.is_empty() {
        return Bytes::copy(alloc, b"console -");
    }
    let digits = encode_upper(alloc, bytes)?;
    let mut line = Bytes::copy(alloc, b"console ")?;
    line.append(alloc, digits.as_bytes())?;
    Ok(line)
}

/// The line of an item of a trace's tail, without its line feed (`docs/FORMATS.md`, "The trace"); an
/// `Err` says that memory was not found for it. Each item in the ranges of [`TailItem`] is read back
/// from its line, also with more steps, or with a register that is 0.
pub fn write_tail(alloc: Global, item: &TailItem) -> Result<Bytes, NoMemory>
    ensures { IfOk result (λ line. line ≡ tail_line item.now) }
{
    match item {
        TailItem::Console { bytes } => write_console(alloc, bytes.as_slice()),
        TailItem::Cpu { .. } | TailItem::Reg { .. } | TailItem::Mem { .. } | TailItem::End { .. } =>
            { Bytes::copy(alloc, short_line(item).as_slice()) }
    }
}

/// How a processor ended whose words are these; a word for a halt code, or none where its budget is
/// spent.
fn guess_ended(cpu: &[u8], halt: u64, steps: &[u8], pc: &[u8]) -> Option<TailItem>
    requires { halt ≤ MOST_HALT }
    ensures value { result ≡ ended_in cpu.now (Some halt) steps.now pc.now }
    ensures short { IfSome result (λ i. is_console i ≡ false) }
{
    Some(TailItem::Cpu {
        cpu: guess_cpu(cpu)?,
        halt: halt as u8,
        steps: read_within(steps, 0, MOST_NUMBER)? as u32,
        pc: read_hex(pc, VALUE_DIGITS)?,
    })
}

/// How a processor ended that halted with the code of a word.
fn guess_halted(cpu: &[u8], halt: &[u8], steps: &[u8], pc: &[u8]) -> Option<TailItem>
    ensures value { result ≡ halted_in cpu.now halt.now steps.now pc.now }
    ensures short { IfSome result (λ i. is_console i ≡ false) }
{
    let halt = read_within(halt, 1, MOST_HALT)?;
    guess_ended(cpu, halt, steps, pc)
}

/// The number of events that a word names.
fn guess_end(events: &[u8]) -> Option<TailItem>
    ensures value { result ≡ end_in events.now }
    ensures short { IfSome result (λ i. is_console i ≡ false) }
{
    let events = read_within(events, 0, MOST_NUMBER)? as u32;
    Some(TailItem::End { events })
}

/// The quadword of memory that these words name.
fn guess_quadword(address: &[u8], value: &[u8]) -> Option<TailItem>
    ensures value { result ≡ quadword_in address.now value.now }
    ensures short { IfSome result (λ i. is_console i ≡ false) }
{
    let moved = guess_moved(address, QUADWORD_BYTES, value)?;
    Some(TailItem::Mem {
        address: moved.address,
        value: moved.value,
    })
}

/// The register of a processor that these words name.
fn guess_register(cpu: &[u8], n: &[u8], value: &[u8]) -> Option<TailItem>
    ensures value { result ≡ register_in cpu.now n.now value.now }
    ensures short { IfSome result (λ i. is_console i ≡ false) }
{
    Some(TailItem::Reg {
        cpu: guess_cpu(cpu)?,
        n: read_within(n, 0, MOST_REGISTER)? as u8,
        value: read_hex(value, VALUE_DIGITS)?,
    })
}

/// What the words behind a processor's number mean.
fn guess_processor(cpu: &[u8], words: &[&[u8]]) -> Option<TailItem>
    ensures value { result ≡ processor_in cpu.now (map (λ w. w.now) words.now) }
    ensures short { IfSome result (λ i. is_console i ≡ false) }
{
    match words {
        [_, _, steps, _, pc] => guess_ended(cpu, 0, steps, pc),
        [_, halt, _, steps, _, pc] => guess_halted(cpu, halt, steps, pc),
        _ => None,
    }
}

/// What the words of a line mean that is not the console's, by their number.
fn guess_item(words: &[&[u8]]) -> Option<TailItem>
    ensures value { result ≡ item_in (map (λ w. w.now) words.now) }
    ensures short { IfSome result (λ i. is_console i ≡ false) }
{
    match words {
        [_, events] => guess_end(events),
        [_, address, value] => guess_quadword(address, value),
        [_, cpu, n, value] => guess_register(cpu, n, value),
        [_, cpu, words @ ..] => guess_processor(cpu, words),
        _ => None,
    }
}

/// Whether the processor that an item names, if any, is below the count.
fn is_cpu_below_count(item: &TailItem, cpus: u8) -> bool
    ensures { result ≡ is_cpu_below cpus item.now }
{
    match item {
        TailItem::Cpu { cpu, .. } | TailItem::Reg { cpu, .. } => cpu.number() < cpus,
        TailItem::Mem { .. } | TailItem::Console { .. } | TailItem::End { .. } => true,
    }
}

/// Whether a line spells an item of the tail other than the console's.
#[tactic(auto, using(crate::proofs::TailLemmas::item_in_long))]
fn is_item_line(line: &[u8], cpus: u8) -> bool
    ensures { result ≡ is_item (tail_if cpus line.now (item_in (words_of line.now))) }
{
    let Some(words) = words(line) else {
        return false;
    };
    match guess_item(words.as_slice()) {
        Some(item) => { is_cpu_below_count(&item, cpus) && short_line(&item).as_slice() == line }
        None => false,
    }
}

/// Whether a byte is a hexadecimal digit in upper case.
fn is_digit(byte: u8) -> bool
    ensures { result ≡ is_hex_digit byte }
{
    byte.is_ascii_digit() || (b'A'..=b'F').contains(&byte)
}

/// Whether both bytes are.
fn is_digit_pair(high: u8, low: u8) -> bool
    ensures { result ≡ (is_hex_digit high && is_hex_digit low) }
{
    is_digit(high) && is_digit(low)
}

/// Whether these are two hexadecimal digits for each of some bytes.
fn is_byte_pairs(word: &[u8]) -> bool
    ensures { result ≡ is_pairs word.now }
{
    let mut rest = word;
    while let [high, low, more @ ..] = rest {
        if !is_digit_pair(*high, *low) {
            return false;
        }
        rest = more;
    }
    rest.is_empty()
}

/// Whether a word spells some bytes, or that there are none.
#[tactic(auto, using(crate::proofs::ConsoleLemmas::word_of_console))]
fn spells_bytes(word: &[u8]) -> bool
    ensures { result ≡ is_console_word word.now }
{
    word == b"-" as &[u8] || (!word.is_empty() && is_byte_pairs(word))
}

/// Whether a line with these words on both sides of its first blank spells what was sent to the
/// console.
fn is_console_parts(verb: &[u8], word: &[u8]) -> bool
    ensures { result ≡ (bytes_eq verb.now (codes "console") && is_console_word word.now) }
{
    verb == b"console" as &[u8] && spells_bytes(word)
}

/// Whether a line spells what was sent to the console.
fn is_console_line(line: &[u8]) -> bool
    ensures { result ≡ is_item (console_in line.now (cut_at BLANK line.now)) }
{
    match cut(line, BLANK) {
        Some((verb, word)) => is_console_parts(verb, word),
        None => false,
    }
}

/// Whether a line spells an item of a trace's tail, where there are so many processors.
#[tactic(auto, unfolding(crate::specs::Tails::tail_of), using(crate::proofs::TailLemmas::either_item))]
pub(crate) fn is_tail(line: &[u8], cpus: u8) -> bool
    ensures { result ≡ is_item (tail_of cpus line.now) }
{
    is_console_line(line) || is_item_line(line, cpus)
}

/// A line is read as an item of the tail exactly where it is the item's text, the item's numbers are
/// such as are printed, and the processor that it names, if any, is below the count.
pub fn tails_are_their_texts()
    ensures { (cpus : ℕ) (line : List ℕ) (i : TailItem)
        → (tail_of cpus line ≡ Some i) ↔ ((line ≡ tail_line i) × IsItem cpus i) }
{}
