// The trait of every waiting list.
ghost use Rattle.std.specs.Prelude.{◌≡◌, ℕ, Bool};
ghost use Rattle.waiting.specs.Waiting.{Lawful, Empty, PutAnswer, TakeAnswer};

use crate::refusal::PutError;

// The largest capacity of a waiting list.
pub const MAX_CAPACITY: usize = 512;

// A waiting list means a capacity and a set of numbers below it, those that wait. No call changes the capacity, and which of the numbers
// that wait is taken is left to the kind of list.
pub trait WaitingList {
    // The numbers below this one can wait.
    ghost room: { Self → ℕ };

    // Whether a number waits.
    ghost waits: { Self → ℕ → Bool };

    ghost lawful: { (l : Self) → Lawful (room l) (waits l) };

    // The capacity.
    fn capacity(&self) -> usize
        ensures { result ≡ room self.now };

    // Lets no number wait.
    fn clear(&mut self)
        ensures { (room self.new ≡ room self.old) × (Empty (waits self.new)) };

    // Lets a number wait, also where it does already.
    fn put(&mut self, number: usize) -> Result<(), PutError>
        ensures { (room self.new ≡ room self.old) × (PutAnswer (room self.old) (waits self.old) number (waits self.new) result) };

    // Takes a number that waits, if any does.
    fn take(&mut self) -> Option<usize>
        ensures { (room self.new ≡ room self.old) × (TakeAnswer (waits self.old) (waits self.new) result) };
}
