// The waiting list that takes the number that has waited longest.
ghost use Rattle.std.specs.Prelude.{◌≡◌, ℕ, true, false, [], ◌∷◌, slice_index_or};
ghost use Rattle.rows.specs.Refusals.{Answer, first};
ghost use Rattle.waiting.specs.ListRefusals.{list_says};
ghost use Rattle.waiting.specs.Waiting.{may_have, no_capacity, Empty, PutAnswer, TakeAnswer};
ghost use Rattle.waiting.specs.Turns.{among, apart, below, TurnPut, TurnTaken, MadeEmpty};
ghost use Rattle.waiting.specs.Oldest.{lawful_oldest};

use crate::list::{MAX_CAPACITY, WaitingList};
use crate::refusal::{ListError, PutError};
use crate::ring::Ring;

// The numbers that wait, oldest first, and for each number whether it is among them. Flags and no `NumberSet`: a put or a take writes one flag
// and reads no word, which is about twice as fast.
#[derive(Drop)]
pub struct OldestFirst {
    capacity: usize,
    waiting: [bool; MAX_CAPACITY],
    ring: Ring,
    ghost size: { may_have capacity ≡ true },
    ghost once: { apart ring ≡ true },
    ghost within: { below capacity ring ≡ true },
    ghost known: { (k : ℕ) → slice_index_or waiting k false ≡ among ring k },
}

impl OldestFirst {
    // Refuses a capacity outside 1 to 512.
    pub fn check(capacity: usize) -> Result<(), ListError>
        ensures { Answer list_says (first (no_capacity capacity ∷ [])) (Unit {0}) (λ _. Unit {0}) result }
    {
        if capacity == 0 || capacity > MAX_CAPACITY {
            return Err(ListError::Capacity);
        }
        Ok(())
    }

    // The empty list of a capacity, or, where the check refuses, of capacity 1. A making cannot refuse, by the rules of the
    // engine.
    pub fn make(capacity: usize) -> OldestFirst
        ensures { MadeEmpty capacity result.capacity result.ring }
    {
        let capacity = if Self::check(capacity).is_ok() {
            capacity
        } else {
            1
        };
        OldestFirst {
            capacity,
            waiting: [false; MAX_CAPACITY],
            ring: Ring::new(),
        }
    }
}

impl WaitingList for OldestFirst {
    ghost room = { λ l. l.capacity };

    ghost waits = { λ l. among l.ring };

    ghost lawful = { λ l. lawful_oldest l.capacity l.ring l.size l.within };

    fn capacity(&self) -> usize
        ensures { result ≡ self.now.capacity }
    {
        self.capacity
    }

    fn clear(&mut self)
        ensures order { self.new.ring ≡ [] }
        ensures numbers { (self.new.capacity ≡ self.old.capacity) × (Empty (among self.new.ring)) }
    {
        self.waiting = [false; MAX_CAPACITY];
        self.ring.clear();
    }

    // Lets a number wait, behind all that do. One that does already keeps its turn.
    fn put(&mut self, number: usize) -> Result<(), PutError>
        ensures turn { TurnPut self.old.capacity self.old.ring number self.new.ring result }
        ensures numbers { (self.new.capacity ≡ self.old.capacity) × (PutAnswer self.old.capacity (among self.old.ring) number (among self.new.ring) result) }
    {
        if number >= self.capacity {
            return Err(PutError::Number);
        }
        if !self.waiting[number] {
            self.waiting[number] = true;
            self.ring.push(number as u16);
        }
        Ok(())
    }

    // Takes the number that has waited longest, if any waits.
    fn take(&mut self) -> Option<usize>
        ensures turn { TurnTaken self.old.ring self.new.ring result }
        ensures numbers { (self.new.capacity ≡ self.old.capacity) × (TakeAnswer (among self.old.ring) (among self.new.ring) result) }
    {
        let number = self.ring.pop()? as usize;
        self.waiting[number] = false;
        Some(number)
    }
}
