// Table rules.
ghost use Rattle.std.specs.Prelude.{◌≡◌, true, false, not, position, Some, None, MatchOption};
ghost use Rattle.rows.specs.Refusals.{Answer};
ghost use Rattle.tables.specs.Checks.{fault, fault_says, in_pool, table_byte};
ghost use Rattle.tables.specs.Tables.{bytes_of};

use crate::refusal::TableFault;
use banks::limits::may_name;
use rows::mask::CHOICES;

// The byte that any choice matches.
pub const STAR: u8 = 255;

// The most lines of a table.
pub const MAX_LINES: usize = 65535;

// A table rule: the rows that it names, and its lines of one byte a place, which stand one after another in a pool from a start byte on. By the
// rules of the engine the tables of a bank have one pool in common, so a table says where its bytes begin and how many lines they make.
#[derive(Clone, Copy)]
pub struct Table<'a> {
    pub rows: &'a [usize],
    pub start: usize,
    pub lines: usize,
}

// Whether a table may have a byte.
fn is_table_byte(byte: u8) -> bool
    ensures { result ≡ table_byte byte }
{
    (byte as usize) < CHOICES || byte == STAR
}

// The index of the first byte that no table may have.
fn first_bad(bytes: &[u8]) -> Option<usize>
    ensures { result ≡ position (λ b. not (table_byte b)) bytes.now }
{
    bytes.iter().position(|byte| !is_table_byte(*byte))
}

impl Table<'_> {
    // The bytes of the table in a pool, if the lines are not too many and lie in it.
    pub(crate) fn bytes<'p>(&self, pool: &'p [u8]) -> Option<&'p [u8]>
        ensures { MatchOption result (in_pool pool.now self.now ≡ false) (λ bytes. (in_pool pool.now self.now ≡ true) × (bytes.now ≡ bytes_of pool.now self.now)) }
    {
        if self.lines > MAX_LINES {
            return None;
        }
        let size = self.lines.checked_mul(self.rows.len())?;
        pool.get(self.start..)?.get(..size)
    }

    // Refuses a table that a bank of a width may not hold over a pool.
    #[tactic(auto, using(crate::proofs::Checking::bad_found, crate::proofs::Checking::none_bad))]
    pub(crate) fn check(&self, width: usize, pool: &[u8]) -> Result<(), TableFault>
        ensures { Answer fault_says (fault width pool.now self.now) (Unit {0}) (λ _. Unit {0}) result }
    {
        if !may_name(width, self.rows) {
            return Err(TableFault::Rows);
        }
        let bytes = self.bytes(pool).ok_or(TableFault::Lines)?;
        match first_bad(bytes) {
            Some(index) => Err(TableFault::Byte {
                spot: self.start + index,
            }),
            None => Ok(()),
        }
    }
}
