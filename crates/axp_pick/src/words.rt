ghost use Rattle.std.specs.Prelude.{◌≡◌};
ghost use Rattle.axp_pick.specs.Words.{first_words, next_word, words_behind};

use rand_core::utils::NextWord;
use rand_pcg::Lcg128Xsl64;
use std::marker::Model;

/// The words of a stream of a seed: the same on every machine.
#[derive(Debug, Drop)]
pub struct Words {
    generator: Lcg128Xsl64,
}

impl Model for Words {
    ghost use Rattle.rand_pcg.specs.Lcg.{Lcg};

    ghost Value = { Lcg };

    ghost view = { λ w. w.generator };
}

impl Words {
    /// The words of this stream of this seed. Of one seed each stream has words of its own.
    #[tactic(auto, unfolding(crate::specs::Words::first_words))]
    pub fn new(seed: u64, stream: u64) -> Words
        ensures { result ≡ first_words seed stream }
    {
        Words {
            generator: Lcg128Xsl64::new(u128::from(seed), u128::from(stream)),
        }
    }

    /// The next word.
    #[tactic(auto, unfolding(crate::specs::Words::next_word, crate::specs::Words::words_behind))]
    pub fn next(&mut self) -> u64
        ensures word { result ≡ next_word self.old }
        ensures behind { self.new ≡ words_behind self.old }
    {
        self.generator.next_word()
    }
}
