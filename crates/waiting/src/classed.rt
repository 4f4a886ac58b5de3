// The waiting list that takes the lowest class, and of a class the lowest number.
ghost use Rattle.std.specs.Prelude.{◌≡◌, ℕ, true, length};
ghost use Rattle.rows.specs.Refusals.{Answer};
ghost use Rattle.waiting.specs.ListRefusals.{list_says};
ghost use Rattle.waiting.specs.Waiting.{may_have, Empty, PutAnswer, TakeAnswer};
ghost use Rattle.waiting.specs.Classes.{all_classes, classes_refusal, FirstAnswer, ClassTaken, MadeClassed, held_at, waits_in};
ghost use Rattle.waiting.specs.Owed.{OwnClass, lawful_classed};

use crate::list::{MAX_CAPACITY, WaitingList};
use crate::numbers::NumberSet;
use crate::refusal::{ListError, PutError};
use std::array;

// How many classes there are: they are the numbers from 1 to this one.
pub const CLASSES: usize = 7;

// The classes of the numbers, over the memory that holds them, and for each class the set of its numbers that wait.
#[derive(Drop)]
pub struct Classed<'a> {
    classes: &'a [u8],
    sets: [NumberSet; CLASSES],
    ghost size: { may_have (length classes.now) ≡ true },
    ghost fine: { all_classes classes.now ≡ true },
    ghost own: { OwnClass classes.now sets },
}

// For each class a set with no number.
fn no_numbers() -> [NumberSet; CLASSES]
    ensures { (place : ℕ) → Empty (held_at result place) }
{
    array::from_fn(|_place| NumberSet::new())
}

// The lowest number of the first set that has any.
fn lowest_of_first(sets: &[NumberSet]) -> Option<usize>
    ensures { FirstAnswer sets.now result }
{
    sets.iter().find_map(NumberSet::lowest)
}

impl<'a> Classed<'a> {
    // Refuses other than 1 to 512 classes, and then a class outside 1 to 7.
    pub fn check(classes: &[u8]) -> Result<(), ListError>
        ensures { Answer list_says (classes_refusal classes.now) (Unit {0}) (λ _. Unit {0}) result }
    {
        if classes.is_empty() || classes.len() > MAX_CAPACITY {
            return Err(ListError::Capacity);
        }
        let fine = classes
            .iter()
            .all(|class| 1 <= *class && *class as usize <= CLASSES);
        if !fine {
            return Err(ListError::Class);
        }
        Ok(())
    }

    // The empty list of these classes, or, where the check refuses, of one number of class 1. A making cannot refuse, by the
    // rules of the engine.
    pub fn make(classes: &'a [u8]) -> Classed<'a>
        ensures { MadeClassed classes.now result.classes.now (waits_in result.classes.now result.sets) }
    {
        let classes = if Self::check(classes).is_ok() {
            classes
        } else {
            &[1]
        };
        Classed {
            classes,
            sets: no_numbers(),
        }
    }
}

// That the classes stay is said by each call that may change the list, since no type can.
impl WaitingList for Classed<'_> {
    ghost room = { λ l. length l.classes.now };

    ghost waits = { λ l. waits_in l.classes.now l.sets };

    ghost lawful = { λ l. lawful_classed l.classes.now l.sets l.size l.own };

    fn capacity(&self) -> usize
        ensures { result ≡ length self.now.classes.now }
    {
        self.classes.len()
    }

    fn clear(&mut self)
        ensures memory { self.new.classes.now ≡ self.old.classes.now }
        ensures numbers { (length self.new.classes.now ≡ length self.old.classes.now) × (Empty (waits_in self.new.classes.now self.new.sets)) }
    {
        self.sets = no_numbers();
    }

    fn put(&mut self, number: usize) -> Result<(), PutError>
        ensures memory { self.new.classes.now ≡ self.old.classes.now }
        ensures numbers { (length self.new.classes.now ≡ length self.old.classes.now) × (PutAnswer (length self.old.classes.now) (waits_in self.old.classes.now self.old.sets) number (waits_in self.new.classes.now self.new.sets) result) }
    {
        // By a test as in every list, and not by `get`: the capacity is what refuses, and the class is read after it.
        if number >= self.classes.len() {
            return Err(PutError::Number);
        }
        let place = self.classes[number] as usize - 1;
        let sets = &mut self.sets;
        sets[place].put(number);
        Ok(())
    }

    // Takes the lowest number of the lowest class of which a number waits, if any waits.
    fn take(&mut self) -> Option<usize>
        ensures memory { self.new.classes.now ≡ self.old.classes.now }
        ensures next { ClassTaken self.old.classes.now (waits_in self.old.classes.now self.old.sets) (waits_in self.new.classes.now self.new.sets) result }
        ensures numbers { (length self.new.classes.now ≡ length self.old.classes.now) × (TakeAnswer (waits_in self.old.classes.now self.old.sets) (waits_in self.new.classes.now self.new.sets) result) }
    {
        let number = lowest_of_first(&self.sets)?;
        let place = self.classes[number] as usize - 1;
        let sets = &mut self.sets;
        sets[place].remove(number);
        Some(number)
    }
}
