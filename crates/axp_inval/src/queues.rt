ghost use Rattle.std.specs.Prelude.{◌≡◌, ◌↔◌, ◌<◌, [], ◌∷◌, ◌++◌, IfOk, IsTrue, length};
ghost use Rattle.axp_base.specs.Lines.{line_number};
ghost use Rattle.axp_base.specs.LatePairs.{AreBefore, has_later, is_later, others};
ghost use Rattle.axp_inval.specs.Queues.{IsInOrder, oldest, queue};

use axp_base::{Line, NoMemory};
use std::alloc::Global;
use std::collections::VecDeque;
use std::marker::Model;

/// The invalidations that are to come late: pairs of a line and the turn that wrote it, oldest
/// first, each turn greater than those before it. All room is taken when the queue is made.
#[derive(Debug, Drop)]
pub struct LateQueue {
    pairs: VecDeque<(Line, u64)>,
}

impl Model for LateQueue {
    ghost use Rattle.axp_inval.specs.Queues.{Queue};

    ghost Value = { Queue };

    ghost use Rattle.axp_inval.specs.QueueParts.{queue_of, AreInOrder};

    ghost view = { queue_of };

    ghost invariant = { AreInOrder };
}

impl LateQueue {
    /// An empty queue, with room for this many pairs; [`NoMemory`] where memory was not found for
    /// it.
    pub fn with_room(alloc: Global, room: u32) -> Result<LateQueue, NoMemory>
        ensures { IfOk result (λ q. q ≡ queue [] room) }
    {
        let pairs = VecDeque::with_capacity(alloc, room as usize)?;
        Ok(LateQueue { pairs })
    }

    /// Puts a pair last. Its turn is greater than that of every pair that is kept.
    #[tactic(auto, using(axp_base::proofs::LatePairLemmas::ascending_push))]
    pub fn add(&mut self, line: Line, turn: u64)
        requires room { length self.old.pairs < self.old.room }
        requires newest { AreBefore turn self.old.pairs }
        ensures { self.new ≡ queue (self.old.pairs ++ (line, turn) ∷ []) self.old.room }
    {
        let Ok(()) = self.pairs.push_back((line, turn)) else {
            unreachable!()
        };
    }

    /// Removes the oldest pair and gives it. `None`: the queue is empty.
    pub fn take(&mut self) -> Option<(Line, u64)>
        ensures value { result ≡ oldest self.old.pairs }
        ensures rest { self.new ≡ queue (others self.old.pairs) self.old.room }
    {
        self.pairs.pop_front()
    }

    /// The oldest pair, which stays. `None`: the queue is empty.
    pub fn oldest(&self) -> Option<(Line, u64)>
        ensures { result ≡ oldest self.now.pairs }
    {
        self.pairs.front().copied()
    }

    /// Whether no pair is kept.
    pub fn is_empty(&self) -> bool
        ensures value { IsTrue result ↔ (self.now.pairs ≡ []) }
        ensures sound { IsInOrder self.now }
    {
        self.pairs.is_empty()
    }

    /// Whether a pair of this line is kept whose turn is greater than the stamp.
    pub fn later(&self, line: Line, stamp: u64) -> bool
        ensures { result ≡ has_later (line_number line) stamp self.now.pairs }
    {
        self.pairs.iter().any(|pair| is_later(pair, line, stamp))
    }

    /// Drops every pair.
    pub fn clear(&mut self)
        ensures { self.new ≡ queue [] self.old.room }
    {
        self.pairs.clear();
    }
}

/// Whether a pair is of this line and has a turn greater than the stamp.
fn is_later(pair: &(Line, u64), line: Line, stamp: u64) -> bool
    ensures { result ≡ is_later (line_number line) stamp pair.now }
{
    pair.0 == line && stamp < pair.1
}
