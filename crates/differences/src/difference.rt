// Difference rules.
ghost use Rattle.rows.specs.Refusals.{Answer};
ghost use Rattle.differences.specs.Checks.{fault, fault_says, in_bounds, modulus_fits};
ghost use Rattle.std.specs.Prelude.{◌≡◌, [], ◌∷◌};

use crate::refusal::DifferenceFault;
use banks::limits::may_name;
use rows::mask::CHOICES;

// How the choice y of the second row relates to the choice x of the first, at an offset c.
#[derive(Clone, Copy, PartialEq, Eq, Debug)]
pub enum Relation {
    // y = x + c
    Equal,
    // y ≠ x + c
    Unequal,
    // x + c ≤ y
    AtMost,
    // x + c - y is a multiple of the modulus
    Congruent { modulus: u32 },
}

impl Relation {
    // Whether the modulus, if there is one, is in its bounds.
    fn modulus_fits(self) -> bool
        ensures { result ≡ modulus_fits self }
    {
        match self {
            // Cast, since no conversion makes a usize of any u32.
            Relation::Congruent { modulus } => (1..=CHOICES).contains(&(modulus as usize)),
            _ => true,
        }
    }
}

// A difference rule: its two rows, and how their choices relate.
#[derive(Clone, Copy, PartialEq, Eq, Debug)]
pub struct Difference {
    pub x: usize,
    pub y: usize,
    pub offset: i32,
    pub relation: Relation,
}

impl Difference {
    // The difference of two rows, an offset and a relation.
    pub fn new(x: usize, y: usize, offset: i32, relation: Relation) -> Difference
        ensures { result ≡ record { x = x; y = y; offset = offset; relation = relation } }
    {
        Difference {
            x,
            y,
            offset,
            relation,
        }
    }

    // Its two rows, by place.
    pub(crate) fn rows(&self) -> [usize; 2]
        ensures { result ≡ self.now.x ∷ self.now.y ∷ [] }
    {
        [self.x, self.y]
    }

    // Whether the offset and the modulus are in their bounds.
    fn in_bounds(&self) -> bool
        ensures { result ≡ in_bounds self.now }
    {
        (self.offset.unsigned_abs() as usize) < CHOICES && self.relation.modulus_fits()
    }

    // Refuses a difference that a bank of a width may not hold.
    pub(crate) fn check(&self, width: usize) -> Result<(), DifferenceFault>
        ensures { Answer fault_says (fault width self.now) (Unit {0}) (λ _. Unit {0}) result }
    {
        if !may_name(width, &self.rows()) {
            return Err(DifferenceFault::Rows);
        }
        if !self.in_bounds() {
            return Err(DifferenceFault::Bounds);
        }
        Ok(())
    }
}
