// How the program prints numbers and the marks in hand.
use sheet::mark::Mark;
use std::fmt;

// Some numbers, each after a space.
#[derive(Clone, Copy)]
pub(crate) struct Numbers<'a>(pub &'a [usize]);

impl fmt::Display for Numbers<'_> {
    fn fmt<W: fmt::Write>(&self, f: &mut fmt::Formatter<W>) -> fmt::Result {
        for number in self.0 {
            write!(f, " {number}")?;
        }
        Ok(())
    }
}

// The serials of the marks in a hand, each after a space. Beside `Numbers`, since there is no list of these numbers.
#[derive(Clone, Copy)]
pub(crate) struct Hand<'a>(pub &'a [Mark]);

impl fmt::Display for Hand<'_> {
    fn fmt<W: fmt::Write>(&self, f: &mut fmt::Formatter<W>) -> fmt::Result {
        for mark in self.0 {
            write!(f, " {}", mark.serial())?;
        }
        Ok(())
    }
}
