// A walk over the choices of a mask, and what is done once at each of them.
ghost use Rattle.std.specs.Prelude.{◌≡◌, ℕ, Decides};
ghost use Rattle.rows.specs.Choices.{Askable, Kept, KeptBy, Walks};
ghost use Rattle.std.specs.Iterator.{at_most};

use crate::mask;

// The choices of a mask, lowest first.
#[derive(Drop)]
pub struct Walk {
    rest: u64,
}

impl Walk {
    // The walk over all choices of a mask.
    pub fn over(mask: u64) -> Walk
        ensures { result.rest ≡ mask }
    {
        Walk { rest: mask }
    }
}

impl Iterator for Walk {
    type Item = u8;

    ghost next_gives = { λ s r t. Walks s.rest r t.rest };

    ghost remaining = { λ s. at_most s.rest };

    fn next(&mut self) -> Option<u8> {
        if self.rest == 0 {
            return None;
        }
        // Cast, since a mask that is not 0 has fewer than 64 zeros below its lowest choice.
        let lowest = self.rest.trailing_zeros() as u8;
        self.rest = mask::without(self.rest, usize::from(lowest));
        Some(lowest)
    }
}

// A test of choices.
pub trait Test {
    // Which choices pass.
    ghost passes: { Self → ℕ → Type 0 };

    fn passes_at(&self, choice: u8) -> bool
        ensures { Decides result (passes self.now choice) };
}

// The choices of a mask that pass a test. It asks nothing of its caller, since a test answers at every choice, and exactly.
pub fn keep<T: Test>(mask: u64, test: &T) -> u64
    ensures { Kept (T.passes test.now) mask result }
{
    keep_by(mask, |choice| test.passes_at(choice))
}

// The choices of a mask that a closure keeps. The closure is asked once at each of them, so it has to be one that may be asked there; one
// that may be asked at any choice always is.
pub fn keep_by<F: Fn(u8) -> bool>(mask: u64, test: F) -> u64
    requires { Askable (F.pre test) mask }
    ensures { KeptBy (F.post test) mask result }
{
    let mut passing = mask;
    for choice in Walk::over(mask) {
        if !test(choice) {
            passing = mask::without(passing, usize::from(choice));
        }
    }
    passing
}
