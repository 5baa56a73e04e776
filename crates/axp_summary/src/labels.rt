//! What a run of a litmus test showed, and the words by which it is printed.
ghost use Rattle.std.specs.Prelude.{◌≡◌, ◌≤◌, ◌<◌, length};
ghost use Rattle.axp_gen.specs.Litmus.{litmus_image};
ghost use Rattle.axp_gen.specs.declared.shapes.Shape.TheVariants.{Lock};
ghost use Rattle.axp_summary.specs.declared.labels.TheConstants.{COUNTER_AT};
ghost use Rattle.axp_summary.specs.Labels.{counter_label, halted_itself, label_of, labels_of};
ghost use Rattle.axp_summary.specs.Labels.{loads_label, name_of, pointer_label};
ghost use Rattle.axp_trace.specs.declared.summaries.TheConstants.{MOST_LABEL};

use axp_base::{Cpu, QUADWORD_BYTES};
use axp_gen::Shape;
use axp_machine::Machine;

/// The register into which each processor of the store-buffering test loads the other's place.
const LOADED: u8 = 2;

/// The register into which processor 1 of a dependent load loads the pointer.
const POINTER: u8 = 4;

/// The register into which it loads what the pointer points to.
const POINTED: u8 = 5;

/// The pointer before processor 0 publishes another.
const OLD_POINTER: u64 = 0xFFFF_FC00_0000_4080;

/// The halt code of a processor that halts itself.
const HALTED_ITSELF: u8 = 1;

/// The physical address of the spin lock's counter.
const COUNTER_AT: u64 = 0xE040;

/// What the counter is where no addition was lost.
const ADDED: u64 = 6;

/// What a run of a litmus test showed at its end.
#[derive(Clone, Copy, Debug, PartialEq, Eq)]
pub enum Label {
    /// Store buffering: both processors loaded 0.
    ZeroZero,
    /// Store buffering: processor 0 loaded 0, and processor 1 did not.
    ZeroOne,
    /// Store buffering: processor 1 loaded 0, and processor 0 did not.
    OneZero,
    /// Store buffering: none of them loaded 0.
    OneOne,
    /// A dependent load: processor 1 loaded the old pointer.
    Old,
    /// A dependent load: it loaded the new pointer, and through it the 1 that was stored before.
    New,
    /// A dependent load: it loaded the new pointer, and through it not the 1.
    Weak,
    /// The spin lock: both processors halted themselves, and no addition was lost.
    Exact,
    /// The spin lock: all else.
    Other,
}

impl Label {
    /// The word by which the label is printed.
    pub fn name(self) -> &'static str
        ensures value { result.now ≡ name_of self }
        ensures short { length result.now ≤ MOST_LABEL }
    {
        match self {
            Label::ZeroZero => "00",
            Label::ZeroOne => "01",
            Label::OneZero => "10",
            Label::OneOne => "11",
            Label::Old => "old",
            Label::New => "new",
            Label::Weak => "weak",
            Label::Exact => "exact",
            Label::Other => "other",
        }
    }
}

/// The labels of a litmus test, in the order in which a summary has them.
pub fn labels_of(shape: Shape) -> &'static [Label]
    ensures { result.now ≡ labels_of shape }
{
    match shape {
        Shape::Sb => &[
            Label::ZeroZero,
            Label::ZeroOne,
            Label::OneZero,
            Label::OneOne,
        ],
        Shape::Dl | Shape::Dm => &[Label::Old, Label::New, Label::Weak],
        Shape::Lock => &[Label::Exact, Label::Other],
    }
}

/// The label of store buffering, by what the two processors loaded.
fn loads_label(first: u64, second: u64) -> Label
    ensures { result ≡ loads_label first second }
{
    match (first == 0, second == 0) {
        (true, true) => Label::ZeroZero,
        (true, false) => Label::ZeroOne,
        (false, true) => Label::OneZero,
        (false, false) => Label::OneOne,
    }
}

/// The label of a dependent load, by the pointer that was loaded and what it pointed to.
fn pointer_label(pointer: u64, pointed: u64) -> Label
    ensures { result ≡ pointer_label pointer pointed }
{
    if pointer == OLD_POINTER {
        Label::Old
    } else if pointed == 1 {
        Label::New
    } else {
        Label::Weak
    }
}

/// Whether a processor halted itself, by its halt code.
fn halted_itself(code: Option<u8>) -> bool
    ensures { result ≡ halted_itself code }
{
    code == Some(HALTED_ITSELF)
}

/// The label of the spin lock, by whether both processors halted themselves, and by the counter.
fn counter_label(halted: bool, counter: u64) -> Label
    ensures { result ≡ counter_label halted counter }
{
    if halted && counter == ADDED {
        Label::Exact
    } else {
        Label::Other
    }
}

/// The label of a run of the spin lock by two processors, at its end.
fn lock_label(machine: &Machine) -> Label
    requires cpus { machine.now.cpus ≡ 2 }
    requires memory { COUNTER_AT < machine.now.image.size }
    ensures { result ≡ label_of Lock machine.now }
{
    let (Some(first), Some(second)) = (Cpu::new(0), Cpu::new(1)) else {
        unreachable!()
    };
    let halted = halted_itself(machine.halted(first)) && halted_itself(machine.halted(second));
    counter_label(halted, machine.quadword(COUNTER_AT / QUADWORD_BYTES))
}

/// The label of a run of a litmus test by two processors, at its end.
#[tactic(auto, using(crate::proofs::LabelLemmas::has_counter))]
pub(crate) fn label_of(shape: Shape, machine: &Machine) -> Label
    requires cpus { machine.now.cpus ≡ 2 }
    requires image { machine.now.image ≡ litmus_image shape }
    ensures { result ≡ label_of shape machine.now }
{
    let (Some(first), Some(second)) = (Cpu::new(0), Cpu::new(1)) else {
        unreachable!()
    };
    match shape {
        Shape::Sb => loads_label(
            machine.register(first, LOADED),
            machine.register(second, LOADED),
        ),
        Shape::Dl | Shape::Dm => pointer_label(
            machine.register(second, POINTER),
            machine.register(second, POINTED),
        ),
        Shape::Lock => lock_label(machine),
    }
}
