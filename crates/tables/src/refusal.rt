// What can be wrong with a table.
ghost use Rattle.tables.specs.Checks.{fault_says};

use banks::refusal::Fault;

// The fault of a table.
#[derive(Clone, Copy, PartialEq, Eq, Debug)]
pub enum TableFault {
    // It does not name 1 to 16 different rows below the width.
    Rows,
    // It has too many lines, or they pass the pool's end.
    Lines,
    // A byte is neither a choice nor the star: the first, by its index in the pool.
    Byte { spot: usize },
}

impl Fault for TableFault {
    ghost says = { fault_says };

    fn number(&self) -> u32 {
        match self {
            TableFault::Rows => 12,
            TableFault::Lines => 14,
            TableFault::Byte { .. } => 15,
        }
    }

    fn spot(&self) -> usize {
        match self {
            TableFault::Byte { spot } => *spot,
            _ => 0,
        }
    }
}
