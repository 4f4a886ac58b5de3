// What can be wrong with a difference.
ghost use Rattle.differences.specs.Checks.{fault_says};

use banks::refusal::Fault;

// The fault of a difference.
#[derive(Clone, Copy, PartialEq, Eq, Debug)]
pub enum DifferenceFault {
    // It names one row twice, or a row that is not below the width.
    Rows,
    // Its offset or its modulus is outside the bounds.
    Bounds,
}

impl Fault for DifferenceFault {
    ghost says = { fault_says };

    fn number(&self) -> u32 {
        match self {
            DifferenceFault::Rows => 12,
            DifferenceFault::Bounds => 13,
        }
    }

    fn spot(&self) -> usize {
        0
    }
}
