// Sets of numbers below 512, from which the lowest is taken.
ghost use Rattle.std.specs.Prelude.{◌≡◌, ◌<◌};
ghost use Rattle.waiting.specs.Waiting.{max_capacity, Empty, With, But};
ghost use Rattle.rows.specs.Words.{holds};
ghost use Rattle.waiting.specs.Sets.{LowestAnswer};

use rows::mask::{CHOICES, with, without};
use std::marker::Model;

// How many words have a bit for each number.
const WORDS: usize = 8;

// A set of numbers below 512: a bit for each number, in words of 64, and one for each word that is not 0; so many words
// that nothing is allocated. Each call asks for a number below
// 512 by a clause, since its callers count in `usize`, and a type of such numbers would be made and unmade at each call. The crate `diagrams` has a set of
// its own, for the reason that stands at its `NodeSet`.
#[derive(Drop)]
pub(crate) struct NumberSet {
    words: [u64; WORDS],
    filled: u64,
}

// It is seen as the list of its words.
impl Model for NumberSet {
    ghost use Rattle.std.specs.Prelude.{List, ℕ};

    ghost Value = { List ℕ };

    ghost use Rattle.waiting.specs.Sets.{Marked};

    ghost view = { λ s. s.words };

    ghost invariant = { Marked };
}

impl NumberSet {
    // The set with no number.
    pub(crate) fn new() -> NumberSet
        ensures { Empty (holds result) }
    {
        NumberSet {
            words: [0; WORDS],
            filled: 0,
        }
    }

    // Adds a number.
    pub(crate) fn put(&mut self, number: usize)
        requires { number < max_capacity }
        ensures { With number (holds self.old) (holds self.new) }
    {
        let word = number / CHOICES;
        let more = with(self.words[word], number % CHOICES);
        self.words[word] = more;
        self.filled = with(self.filled, word);
    }

    // The lowest number, if there is any.
    pub(crate) fn lowest(&self) -> Option<usize>
        ensures { LowestAnswer (holds self.now) result }
    {
        if self.filled == 0 {
            return None;
        }
        let word = self.filled.trailing_zeros() as usize;
        let bit = self.words[word].trailing_zeros() as usize;
        Some(word * CHOICES + bit)
    }

    // Takes out a number, whether or not it is in the set.
    pub(crate) fn remove(&mut self, number: usize)
        requires { number < max_capacity }
        ensures { But number (holds self.old) (holds self.new) }
    {
        let word = number / CHOICES;
        let rest = without(self.words[word], number % CHOICES);
        self.words[word] = rest;
        if rest == 0 {
            self.filled = without(self.filled, word);
        }
    }
}
