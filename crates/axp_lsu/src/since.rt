use axp_base::Bank;

/// What a processor did since its last step: each of these it may do once.
#[derive(Clone, Copy, Debug, Default, PartialEq, Eq)]
pub struct Since {
    /// A fill.
    pub filled: bool,
    /// A drop from bank `d0`.
    pub dropped_even: bool,
    /// A drop from bank `d1`.
    pub dropped_odd: bool,
    /// A drop from the code bank.
    pub dropped_code: bool,
    /// A poll.
    pub polled: bool,
    /// A tick.
    pub ticked: bool,
}

impl Since {
    ghost use Rattle.std.specs.Prelude.{◌≡◌};
    ghost use Rattle.axp_lsu.specs.Keeping.{has_dropped};

    /// Whether there was a drop from this bank.
    pub(crate) fn has_dropped(self, bank: Bank) -> bool
        ensures { result ≡ has_dropped bank self }
    {
        match bank {
            Bank::Even => self.dropped_even,
            Bank::Odd => self.dropped_odd,
            Bank::Code => self.dropped_code,
        }
    }
}
