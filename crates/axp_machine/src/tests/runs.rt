//! Runs of one processor that were worked out by hand: what its steps access, and where it then
//! stands.
use super::tables::register;
use super::*;

/// What every address in the kernel segment begins with.
pub(super) const KERNEL: u64 = 0xFFFF_FC00_0000_0000;

/// Eight pages of memory, with the stack at 0x8000 and the page table of level 1 at 0x6000.
const LAYOUT: [u8; 32] = [
    0, 0, 1, 0, 0, 0, 0, 0, // size
    0, 0x20, 0, 0, 0, 0xFC, 0xFF, 0xFF, // entry
    0, 0x80, 0, 0, 0, 0xFC, 0xFF, 0xFF, // stack
    3, 0, 0, 0, 0, 0, 0, 0, // table
];

/// Two processors over a program at 0x2000, where they start, and quadwords behind it, by ascending
/// address: each one's address and value. Each has a budget of 300 steps.
pub(super) fn start_over(
    alloc: Global,
    words: &[u32],
    quadwords: &[(u64, u64)],
) -> Result<Machine, Fail> {
    let mut file = Vec::new(alloc);
    let segments = (quadwords.len() as u64).wrapping_add(1).to_le_bytes();
    file.extend_from_slice(&[0x41, 0x58, 0x50, 0x49, 1, 0, segments[0], segments[1]])?;
    file.extend_from_slice(&LAYOUT)?;
    file.extend_from_slice(&0x2000_u64.to_le_bytes())?;
    file.extend_from_slice(&(words.len() as u64).wrapping_mul(4).to_le_bytes())?;
    for (address, _) in quadwords {
        file.extend_from_slice(&address.to_le_bytes())?;
        file.extend_from_slice(&8_u64.to_le_bytes())?;
    }
    for word in words {
        file.extend_from_slice(&word.to_le_bytes())?;
    }
    for (_, value) in quadwords {
        file.extend_from_slice(&value.to_le_bytes())?;
    }
    let image = read_image(alloc, file.as_slice())?;
    Ok(Machine::load(alloc, &image, 2, 300)?)
}

/// What [`next_access`] tells of a step without an access.
pub(super) const NO_ACCESS: (u64, u64) = (u64::MAX, 0);

/// The physical address and the value of a processor's next access, which it makes, with the fill
/// that it needs; `None` where no step is made.
pub(super) fn next_access(machine: &mut Machine, cpu: Cpu) -> Option<(u64, u64)> {
    let step = Event {
        cpu,
        act: Act::Step,
    };
    let fill = Event {
        cpu,
        act: Act::Fill,
    };
    let stepped = match machine.event(step) {
        Err(NotLegal) => match machine.event(fill) {
            Ok(_) => machine.event(step),
            Err(refusal) => Err(refusal),
        },
        other => other,
    };
    match stepped {
        Ok(Outcome::Access(access)) => Some((access.address, access.value)),
        Ok(Outcome::NoAccess) => Some(NO_ACCESS),
        _ => None,
    }
}

/// Whether a processor's next accesses are these, each by its address and its value.
pub(super) fn accesses(machine: &mut Machine, cpu: Cpu, steps: &[(u64, u64)]) -> bool {
    for step in steps {
        if next_access(machine, cpu) != Some(*step) {
            return false;
        }
    }
    true
}

/// Whether a processor's next accesses are at these addresses.
pub(super) fn goes_by(machine: &mut Machine, cpu: Cpu, addresses: &[u64]) -> bool {
    for address in addresses {
        match next_access(machine, cpu) {
            Some((at, _)) => {
                if at != *address {
                    return false;
                }
            }
            None => return false,
        }
    }
    true
}

/// Whether a processor made so many steps and stands there, halted with this code or not at all.
pub(super) fn stands(machine: &Machine, cpu: Cpu, steps: u32, pc: u64, halted: Option<u8>) -> bool {
    cpu.number() < machine.cpus()
        && machine.steps(cpu) == steps
        && machine.pc(cpu) == pc
        && machine.halted(cpu) == halted
}

/// The first of these registers that has another value; `None` where none has.
pub(super) fn first_other(machine: &Machine, cpu: Cpu, values: &[(u8, u64)]) -> Option<u8> {
    for n in 0..values.len() {
        let (number, value) = values[n];
        if register(machine, cpu, number) != Some(value) {
            return Some(number);
        }
    }
    None
}

/// A run of processor 0 from the start.
#[derive(Drop)]
pub(super) struct Run {
    /// The program.
    pub words: &'static [u32],
    /// The quadwords of the image behind it.
    pub quadwords: &'static [(u64, u64)],
    /// The accesses of its steps.
    pub steps: &'static [(u64, u64)],
    /// The program counter behind them.
    pub pc: u64,
    /// The halt code behind them.
    pub halted: Option<u8>,
    /// Registers behind them.
    pub registers: &'static [(u8, u64)],
}

/// Whether a run goes so.
pub(super) fn holds(alloc: Global, run: &Run) -> Result<bool, Fail> {
    let (cpu, _) = both()?;
    let mut machine = start_over(alloc, run.words, run.quadwords)?;
    let steps = u32::try_from(run.steps.len()).unwrap_or(u32::MAX);
    Ok(
        accesses(&mut machine, cpu, run.steps)
            && stands(&machine, cpu, steps, run.pc, run.halted)
            && first_other(&machine, cpu, run.registers).is_none(),
    )
}
