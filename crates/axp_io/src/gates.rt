use crate::Gate;
use axp_base::Cpu;

/// The gate that is always open: it returns at once.
#[derive(Clone, Copy, Debug, PartialEq, Eq)]
pub struct FreeGate;

impl Gate for FreeGate {
    fn pass(&self, _cpu: Cpu, _step: u32) {}
}

#[cfg(test)]
mod tests {
    use super::*;

    /// A worker's pass: threads share the gate.
    fn pass<G: Gate + Sync>(gate: &G, cpu: Cpu, step: u32) {
        gate.pass(cpu, step);
    }

    #[test]
    fn the_gate_lets_a_step_pass(rt: HostRuntime) {
        let cpu = Cpu::new(0).expect(&rt, "a machine has a first processor");
        pass(&FreeGate, cpu, 0);
    }
}
