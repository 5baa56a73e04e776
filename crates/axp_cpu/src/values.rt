ghost use Rattle.std.specs.Prelude.{◌≡◌, ◌+◌, ◌<◌, ◌≤◌, ◌++◌, ◌∷◌, [], length, take};
ghost use Rattle.axp_pal.specs.declared.plans.TheConstants.{MOST_ASKS};

use axp_pal::MOST_ASKS;

/// The values that the accesses of a PAL call gave so far, in order.
#[derive(Clone, Copy, Debug)]
pub struct Values {
    places: [u64; MOST_ASKS],
    len: usize,
    ghost whole: { length places ≡ MOST_ASKS },
    ghost fits: { len ≤ MOST_ASKS },
}

impl Values {
    /// No value yet.
    pub fn none() -> Values
        ensures values { take result.len result.places ≡ [] }
        ensures len { result.len ≡ 0 }
    {
        Values {
            places: [0; MOST_ASKS],
            len: 0,
        }
    }

    /// How many they are.
    pub fn len(&self) -> usize
        ensures value { result ≡ length (take self.now.len self.now.places) }
        ensures len { result ≡ self.now.len }
    {
        self.len
    }

    /// Them with one more, behind them; there must be room.
    pub fn with(&self, value: u64) -> Values
        requires { self.now.len < MOST_ASKS }
        ensures values { take result.len result.places ≡ take self.now.len self.now.places ++ value ∷ [] }
        ensures len { result.len ≡ self.now.len + 1 }
    {
        let mut places = self.places;
        places[self.len] = value;
        Values {
            places,
            len: self.len + 1,
        }
    }

    /// They as a slice.
    pub fn as_slice(&self) -> &[u64]
        ensures { result.now ≡ take self.now.len self.now.places }
    {
        &self.places[..self.len]
    }
}
