ghost use Rattle.std.specs.Prelude.{◌≡◌, [], ◌∷◌, ◌++◌, OnOk, OnErr};
ghost use Rattle.axp_io.specs.Asks.{asks_in};

use axp_base::NoMemory;
use std::alloc::Global;
use std::marker::Model;

/// One ask that came to a desk.
#[derive(Debug, Drop)]
pub struct Asked {
    /// The name that was asked for.
    pub name: String,
    /// The greatest number of bytes that the caller would take.
    pub most: u64,
}

/// The asks that came to a desk, in order.
#[derive(Debug, Drop)]
pub(crate) struct Asks {
    kept: Vec<Asked>,
}

impl Model for Asks {
    ghost use Rattle.std.specs.Prelude.{List};
    ghost use Rattle.axp_io.specs.Causes.{Ask};
    ghost use Rattle.axp_io.specs.Asks.{asks_in};

    ghost Value = { List Ask };

    ghost view = { λ a. asks_in a.kept.items };
}

impl Asks {
    /// No asks.
    pub(crate) fn empty(alloc: Global) -> Asks
        ensures { result ≡ [] }
    {
        Asks {
            kept: Vec::new(alloc),
        }
    }

    /// Keeps an ask after the others; after want of memory the asks are as before.
    pub(crate) fn keep(&mut self, alloc: Global, name: &str, most: u64) -> Result<(), NoMemory>
        ensures ok { OnOk result (self.new ≡ self.old ++ (name.now, most) ∷ []) }
        ensures err { OnErr result (self.new ≡ self.old) }
    {
        let name = String::from_str(alloc, name)?;
        match self.kept.push(Asked { name, most }) {
            Ok(()) => Ok(()),
            Err(_) => Err(NoMemory),
        }
    }

    /// The asks.
    pub(crate) fn as_slice(&self) -> &[Asked]
        ensures { asks_in result.now ≡ self.now }
    {
        self.kept.as_slice()
    }
}
