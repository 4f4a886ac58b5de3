// What can be wrong with a diagram.
ghost use Rattle.diagrams.specs.Checks.{fault_says};

use banks::refusal::Fault;

// The fault of a diagram.
#[derive(Clone, Copy, PartialEq, Eq, Debug)]
pub enum DiagramFault {
    // It names no row, more than 16, a row twice, or a row that is not below the width.
    Rows,
    // Its nodes or its arcs are too few or too many, or pass their pool.
    Counts,
    // The place of a node breaks the rule for places; the spot is the node's index in the pool.
    BadNode { spot: usize },
    // An arc breaks the rule for arcs; the spot is its index in the pool.
    BadArc { spot: usize },
}

impl Fault for DiagramFault {
    ghost says = { fault_says };

    fn number(&self) -> u32 {
        match self {
            DiagramFault::Rows => 12,
            DiagramFault::Counts => 16,
            DiagramFault::BadNode { .. } => 17,
            DiagramFault::BadArc { .. } => 18,
        }
    }

    fn spot(&self) -> usize {
        match self {
            DiagramFault::Rows | DiagramFault::Counts => 0,
            DiagramFault::BadNode { spot } | DiagramFault::BadArc { spot } => *spot,
        }
    }
}
