// The bank of table rules.
ghost use Rattle.std.specs.Prelude.{◌≡◌, ◌≤◌, false, [], ◌∷◌, length, is_some};
ghost use Rattle.rows.specs.Refusals.{Answer, first};
ghost use Rattle.banks.specs.Calls.{call_says, no_such_rule, Shows};
ghost use Rattle.banks.specs.Faults.{bank_says};
ghost use Rattle.tables.specs.Checks.{refusal, fault_says, Made};
ghost use Rattle.tables.specs.Owed.{lawful_bank, Fine, TableOf};
ghost use Rattle.tables.specs.Tables.{meaning, places, rules_of};

use crate::refusal::TableFault;
use crate::support::find;
use crate::table::Table;
use banks::bank::Bank;
use banks::checking::check_rules;
use banks::picking::masks_of;
use banks::questions::admit;
use banks::refusal::{BankError, CallError};

// A bank of table rules, over the memory that holds them and the pool of their lines. No bank that can exist has a fault.
#[derive(Clone, Copy)]
pub struct TableBank<'a> {
    width: usize,
    tables: &'a [Table<'a>],
    pool: &'a [u8],
    ghost sound: { is_some (refusal width tables.now pool.now) ≡ false },
}

impl<'a> TableBank<'a> {
    // Refuses a width, tables and a pool of which no bank can be made.
    pub fn check(width: usize, tables: &[Table], pool: &[u8]) -> Result<(), BankError<TableFault>>
        ensures { Answer (bank_says fault_says) (refusal width tables.now pool.now) (Unit {0}) (λ _. Unit {0}) result }
    {
        check_rules(width, tables, |table| table.check(width, pool))
    }

    // The bank of a width and tables over a pool, or, where the check refuses, one of width 1 and no rules. A making
    // cannot refuse, by the rules of the engine.
    pub fn make(width: usize, tables: &'a [Table<'a>], pool: &'a [u8]) -> TableBank<'a>
        ensures { Made width tables.now pool.now result.width (rules_of result.pool.now result.tables.now) }
    {
        if Self::check(width, tables, pool).is_ok() {
            TableBank {
                width,
                tables,
                pool,
            }
        } else {
            TableBank {
                width: 1,
                tables: &[],
                pool: &[],
            }
        }
    }

    // The table of a rule's number. As in the banks of the other kinds, each over its own type.
    fn table(&self, rule: usize) -> Result<Table<'a>, CallError>
        ensures { Answer call_says (first (no_such_rule (rules_of self.now.pool.now self.now.tables.now) rule ∷ [])) (Unit {0}) (TableOf self.now.width self.now.tables.now self.now.pool.now rule) result }
    {
        self.tables.get(rule).copied().ok_or(CallError::NoSuchRule)
    }

    // Shows the support of a table of the bank on rows. It has no fault, so its lines lie in the pool.
    fn show(&self, table: Table, rows: &[u64], masks: &mut [u64])
        requires fine { Fine self.now.width self.now.pool.now table }
        requires room { places table ≤ length masks.old }
        ensures { Shows rows.now (meaning self.now.pool.now table.entry) masks.old masks.new }
    {
        let arity = table.rows.len();
        let bytes = table.bytes(self.pool).unwrap();
        let standing = masks_of(table.rows, rows);
        find(bytes, &standing[..arity], &mut masks[..arity]);
    }
}

impl Bank for TableBank<'_> {
    ghost wide = { λ b. b.width };

    ghost rules = { λ b. rules_of b.pool.now b.tables.now };

    ghost lawful = { λ b. lawful_bank b.width b.tables.now b.pool.now b.sound };

    fn width(&self) -> usize {
        self.width
    }

    fn rule_count(&self) -> usize {
        self.tables.len()
    }

    fn arity(&self, rule: usize) -> Result<usize, CallError> {
        Ok(self.table(rule)?.rows.len())
    }

    fn row_at(&self, rule: usize, place: usize) -> Result<usize, CallError> {
        let table = self.table(rule)?;
        table.rows.get(place).copied().ok_or(CallError::NoSuchPlace)
    }

    fn support(&self, rule: usize, rows: &[u64], masks: &mut [u64]) -> Result<(), CallError> {
        let table = self.table(rule)?;
        admit(self.width, table.rows.len(), rows, masks)?;
        self.show(table, rows, masks);
        Ok(())
    }
}
