// How the programs write what the library answers.
#![tactic(auto)]

ghost use Rattle.std.specs.Prelude.{◌≡◌, Some};
ghost use Rattle.texts.specs.Texts.{set_text, sets_text, answer_text, number_text, word_text};

use rows::refusal::Numbered;
use rows::walk::Walk;
use std::fmt;

// The choices of a mask, written as {9,10}.
#[derive(Clone, Copy)]
pub struct Set(pub u64);

impl fmt::Display for Set {
    ghost output = { λ s. Some (set_text s.0) };

    fn fmt<W: fmt::Write>(&self, f: &mut fmt::Formatter<W>) -> fmt::Result {
        let mut choices = Walk::over(self.0);
        write!(f, "{{")?;
        if let Some(first) = choices.next() {
            write!(f, "{first}")?;
        }
        for choice in choices {
            write!(f, ",{choice}")?;
        }
        write!(f, "}}")
    }
}

// Some masks, each written as its set after a space.
#[derive(Clone, Copy)]
pub struct Sets<'a>(pub &'a [u64]);

impl fmt::Display for Sets<'_> {
    ghost output = { λ s. Some (sets_text s.0.now) };

    fn fmt<W: fmt::Write>(&self, f: &mut fmt::Formatter<W>) -> fmt::Result {
        for mask in self.0 {
            write!(f, " {}", Set(*mask))?;
        }
        Ok(())
    }
}

// An answer that gives nothing to write: accepted, or its refusal.
#[derive(Drop)]
pub struct Answer<'a, T, E>(pub &'a Result<T, E>);

impl<T, E: Numbered> fmt::Display for Answer<'_, T, E> {
    ghost output = { λ a. Some (answer_text E.Numbered.says a.0.now) };

    fn fmt<W: fmt::Write>(&self, f: &mut fmt::Formatter<W>) -> fmt::Result {
        match self.0 {
            Ok(_) => write!(f, "accepted"),
            Err(why) => write!(f, "{}", why.refused()),
        }
    }
}

// An answer that gives a number: that number, or its refusal.
#[derive(Drop)]
pub struct NumberOr<'a, E>(pub &'a Result<usize, E>);

impl<E: Numbered> fmt::Display for NumberOr<'_, E> {
    ghost output = { λ a. Some (number_text E.Numbered.says a.0.now) };

    fn fmt<W: fmt::Write>(&self, f: &mut fmt::Formatter<W>) -> fmt::Result {
        match self.0 {
            Ok(number) => write!(f, "{number}"),
            Err(why) => write!(f, "{}", why.refused()),
        }
    }
}

// Yes or no. A function and no `Display`, since a bool has one of its own.
pub fn word(answer: bool) -> &'static str
    ensures { result.now ≡ word_text answer }
{
    if answer { "yes" } else { "no" }
}
