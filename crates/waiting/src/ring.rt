// A ring of numbers, to which they come at the end and from which they go at the front.
ghost use Rattle.std.specs.Prelude.{◌≡◌, ◌<◌, [], ◌∷◌, ◌++◌, length};
ghost use Rattle.waiting.specs.Waiting.{max_capacity};
ghost use Rattle.waiting.specs.Turns.{TurnTaken};

use crate::list::MAX_CAPACITY;
use std::marker::Model;

// A ring: as many of its slots as its length are in use, from the first on; after the last slot comes slot 0. Slots and a length, and no
// `VecDeque`, since the engine allocates nothing.
#[derive(Drop)]
pub(crate) struct Ring {
    slots: [u16; MAX_CAPACITY],
    first: usize,
    len: usize,
}

// It is seen as the list of its numbers, from the front to the end.
impl Model for Ring {
    ghost use Rattle.std.specs.Prelude.{List, ℕ};

    ghost Value = { List ℕ };

    ghost use Rattle.waiting.specs.Rings.{order, Steady};

    ghost view = { order };

    ghost invariant = { Steady };
}

impl Ring {
    // The ring with no number.
    pub(crate) fn new() -> Ring
        ensures { result ≡ [] }
    {
        Ring {
            slots: [0; MAX_CAPACITY],
            first: 0,
            len: 0,
        }
    }

    // Takes out all numbers. The slots stay as they are, since none is in use.
    #[tactic(auto, using(crate::proofs::Ringing::none_in_turn))]
    pub(crate) fn clear(&mut self)
        ensures { self.new ≡ [] }
    {
        self.len = 0;
    }

    // Adds a number at the end.
    pub(crate) fn push(&mut self, number: u16)
        requires { length self.old < max_capacity }
        ensures { self.new ≡ self.old ++ number ∷ [] }
    {
        let last = (self.first + self.len) % MAX_CAPACITY;
        self.slots[last] = number;
        self.len += 1;
    }

    // Takes the number at the front.
    pub(crate) fn pop(&mut self) -> Option<u16>
        ensures { TurnTaken self.old self.new result }
    {
        if self.len == 0 {
            return None;
        }
        let number = self.slots[self.first];
        self.first = (self.first + 1) % MAX_CAPACITY;
        self.len -= 1;
        Some(number)
    }
}
