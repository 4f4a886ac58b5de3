// How a settle ends.

// Settled, with the number of choices struck, or wiped out, with the number of a rule that cannot be met. A type of its own and no Result,
// since a wipe-out is an accepted answer with a number of its own: it leaves no number waiting, where a refusal changes nothing.
#[derive(Clone, Copy, PartialEq, Eq, Debug)]
pub enum Outcome {
    Settled(usize),
    Wiped(usize),
}
