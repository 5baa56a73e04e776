ghost use Rattle.std.specs.Prelude.{◌≡◌, ◌<◌, ◌≤◌, ◌↔◌, nat_lt, true, IsNone, IsSome, IfSome};
ghost use Rattle.axp_base.specs.declared.processors.TheConstants.{MAX_CPUS};

/// The greatest number of processors that a machine has.
pub const MAX_CPUS: u8 = 8;

/// The least number of processors that a machine has.
pub const MIN_CPUS: u8 = 2;

/// The greatest number of steps that a processor may make.
pub const MAX_BUDGET: u32 = 32_768;

/// The number of a processor, below [`MAX_CPUS`].
#[derive(Clone, Copy, Debug, PartialEq, Eq)]
pub struct Cpu {
    number: u8,
    ghost below: { nat_lt number MAX_CPUS ≡ true },
}

impl Cpu {
    ghost use Rattle.axp_base.specs.Cpus.{cpu_number, cpu_of};

    /// The processor of this number; `None` where the number is [`MAX_CPUS`] or more.
    pub fn new(n: u8) -> Option<Cpu>
        ensures value { result ≡ cpu_of n }
        ensures none { IsNone result ↔ (MAX_CPUS ≤ n) }
        ensures some { n < MAX_CPUS → IsSome result }
        ensures number { IfSome result (λ c. cpu_number c ≡ n) }
    {
        if n < MAX_CPUS {
            Some(Cpu { number: n })
        } else {
            None
        }
    }

    /// The processor's number.
    pub fn number(self) -> u8
        ensures value { result ≡ cpu_number self }
        ensures below { result < MAX_CPUS }
    {
        self.number
    }
}
