ghost use Rattle.std.specs.Prelude.{◌≡◌, ◌≤◌, length, IfOk};
ghost use Rattle.axp_summary.specs.Summaries.{count_of, summary_of};
ghost use Rattle.axp_summary.specs.declared.rounds.TheConstants.{ROUNDS};

use crate::labels::{Label, label_of};
use crate::rounds::{rounds_of, run_round};
use axp_base::NoMemory;
use axp_gen::{Shape, litmus, shape_of};
use std::alloc::Global;
use std::marker::Model;

/// What the rounds of a number showed: many seeded runs of one litmus test by two processors
/// (docs/FORMATS.md, "The summary").
#[derive(Debug, Drop)]
pub struct Summary {
    shape: Shape,
    labels: Vec<Label>,
    events: u64,
}

impl Model for Summary {
    ghost use Rattle.std.specs.Prelude.{◌≤◌, length};
    ghost use Rattle.axp_summary.specs.Summaries as seen;
    ghost use Rattle.axp_summary.specs.declared.rounds.TheConstants.{ROUNDS};

    ghost Value = { seen.Summary };

    ghost view = { λ s. record { shape = s.shape; labels = s.labels.items; events = s.events } };

    ghost invariant = { λ s. length s.labels.items ≤ ROUNDS };
}

impl Summary {
    /// The litmus test.
    pub fn shape(&self) -> Shape
        ensures { result ≡ self.now.shape }
    {
        self.shape
    }

    /// How many rounds there were, at most 1,024.
    pub fn rounds(&self) -> u32
        ensures value { result ≡ length self.now.labels }
        ensures most { result ≤ ROUNDS }
    {
        self.labels.len() as u32
    }

    /// How many of them had this label.
    pub fn count(&self, label: Label) -> u32
        ensures value { result ≡ count_of label self.now.labels }
        ensures most { result ≤ length self.now.labels }
    {
        let given = self.labels.iter();
        given.filter(|other| label.name() == other.name()).count() as u32
    }

    /// How many events they had together.
    pub fn events(&self) -> u64
        ensures { result ≡ self.now.events }
    {
        self.events
    }
}

/// Makes all rounds of a number, any of 64 bits. [`NoMemory`] where memory was not found for a run.
pub fn summarize(alloc: Global, number: u64) -> Result<Summary, NoMemory>
    ensures { IfOk result (λ summary. summary ≡ summary_of number) }
{
    let shape = shape_of(number);
    let image = litmus(alloc, shape)?;
    let mut labels = Vec::new(alloc);
    let mut events = 0;
    for round in 0..rounds_of(shape) {
        let run = run_round(alloc, &image, number, round)?;
        labels.push(label_of(shape, run.machine()))?;
        events += run.machine().events() as u64;
    }
    Ok(Summary {
        shape,
        labels,
        events,
    })
}
