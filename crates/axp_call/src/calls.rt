use axp_base::Cpu;

/// A call: the processor that made it, what it asked, and what it was answered.
#[derive(Debug, Drop)]
pub struct Call<Ask, Answer> {
    /// The processor that made the call.
    pub cpu: Cpu,
    /// What it asked.
    pub ask: Ask,
    /// What it was answered.
    pub answer: Answer,
}
