// Settling the rows of a trail: every rule is revised, and again after each change of a row that it names, until none waits.
ghost use Rattle.std.specs.Prelude.{◌≡◌, ◌<◌, ◌≤◌, length, bit_and};
ghost use Rattle.banks.specs.Calls.{rule_at};
ghost use Rattle.banks.specs.Names.{among};
ghost use Rattle.banks.specs.Rules.{row as row_of};
ghost use Rattle.trail.specs.Readings.{rows_of};
ghost use Rattle.settling.specs.Propagation.{TrailAnswer, Alike, SettlesOn, Accepted};

use crate::outcome::Outcome;
use crate::refusal::SettleError;
use banks::bank::Bank;
use banks::limits::MAX_ARITY;
use trail::trail::Trail;
use waiting::list::WaitingList;

// The number of a rule that has no live tuple.
struct DeadRule(usize);

// What settling works on: the rows of a trail, the rules of a bank, and a list for those that wait. The lifetimes are those of the three
// references, and of the rows and the record behind the first: as in a call, each has its own. That the rules fit is what six methods
// require, by one clause, and no ghost field: where a struct has one over two lifetimes behind a reference, the borrow checker does not
// cover a function that makes it and lends it.
#[derive(Drop)]
struct Settling<'t, 'r, 's, 'k, 'l, B: Bank, L: WaitingList> {
    trail: &'t mut Trail<'r, 's>,
    bank: &'k B,
    list: &'l mut L,
}

impl<B: Bank, L: WaitingList> Settling<'_, '_, '_, '_, '_, B, L> {
    ghost use Rattle.settling.specs.States.{state_of, rules_of, Fits, Keeps};
    ghost use Rattle.settling.specs.Loop.{Filled, Woken, Brought, ReviseAnswer, LoopAnswer, GivesUp, Ends};

    // Whether a rule names a row.
    fn names(&self, rule: usize, row: usize) -> bool
        ensures { result ≡ among row (rule_at (rules_of B.rules self.now) rule).names }
    {
        let arity = self.bank.arity(rule).unwrap_or(0);
        (0..arity).any(|place| self.bank.row_at(rule, place) == Ok(row))
    }

    // Lets every rule but one wait that names a row. What always stays is said here and in each method below by one clause, since through a
    // `&mut` all of it might change.
    fn wake(&mut self, but: usize, row: usize)
        requires fits { Fits B.wide B.rules L.room self.old }
        ensures keeps { Keeps L.room self.old self.new }
        ensures trail { self.new.trail.now ≡ self.old.trail.now }
        ensures woken { Woken (rules_of B.rules self.old) but row (state_of L.waits self.old).waits (state_of L.waits self.new).waits }
    {
        for rule in 0..self.bank.rule_count() {
            if rule != but && self.names(rule, row) {
                self.list.put(rule).unwrap();
            }
        }
    }

    // Lets exactly the rules wait.
    fn fill(&mut self)
        requires fits { Fits B.wide B.rules L.room self.old }
        ensures keeps { Keeps L.room self.old self.new }
        ensures trail { self.new.trail.now ≡ self.old.trail.now }
        ensures filled { Filled (length (rules_of B.rules self.old)) (state_of L.waits self.new).waits }
    {
        self.list.clear();
        for rule in 0..self.bank.rule_count() {
            self.list.put(rule).unwrap();
        }
    }

    // Brings a row to a mask of which some choice stands in it: narrows it, if it differs, and lets the rules wait that name it, but the
    // one that is revised.
    fn bring(&mut self, revised: usize, row: usize, mask: u64)
        requires fits { Fits B.wide B.rules L.room self.old }
        requires inside { row < length (state_of L.waits self.old).rows }
        requires some { 0 < bit_and (row_of (state_of L.waits self.old).rows row) mask }
        ensures keeps { Keeps L.room self.old self.new }
        ensures brought { Brought (rules_of B.rules self.old) revised row mask (state_of L.waits self.old) (state_of L.waits self.new) }
    {
        if self.trail.mask(row) == mask {
            return;
        }
        self.trail.narrow(row, mask).unwrap();
        self.wake(revised, row);
    }

    // Revises a rule: brings each row that it names to the choices with support there. Refuses a rule that has no live tuple; refused,
    // it changes nothing.
    fn revise(&mut self, rule: usize) -> Result<(), DeadRule>
        requires fits { Fits B.wide B.rules L.room self.old }
        requires inside { rule < length (rules_of B.rules self.old) }
        ensures keeps { Keeps L.room self.old self.new }
        ensures answer { ReviseAnswer (rules_of B.rules self.old) rule (state_of L.waits self.old) (state_of L.waits self.new) result }
    {
        let mut masks = [0u64; MAX_ARITY];
        self.trail.support(self.bank, rule, &mut masks).unwrap();
        if masks[0] == 0 {
            return Err(DeadRule(rule));
        }
        let arity = self.bank.arity(rule).unwrap();
        for (place, mask) in masks[..arity].iter().enumerate() {
            let row = self.bank.row_at(rule, place).unwrap();
            self.bring(rule, row, *mask);
        }
        Ok(())
    }

    // Revises the rules that wait, and those that come to wait, until none does, or one has no live tuple.
    fn revise_waiting(&mut self) -> Result<(), DeadRule>
        requires fits { Fits B.wide B.rules L.room self.old }
        requires filled { Filled (length (rules_of B.rules self.old)) (state_of L.waits self.old).waits }
        ensures keeps { Keeps L.room self.old self.new }
        ensures answer { LoopAnswer (rules_of B.rules self.old) (state_of L.waits self.old) (state_of L.waits self.new) result }
    {
        while let Some(rule) = self.list.take() {
            self.revise(rule)?;
        }
        Ok(())
    }

    // Gives up: puts back every struck choice from an index of the record on, and lets no rule wait.
    fn give_up(&mut self, height: usize)
        ensures keeps { Keeps L.room self.old self.new }
        ensures undone { GivesUp height (state_of L.waits self.old) (state_of L.waits self.new) }
    {
        self.trail.undo_to(height);
        self.list.clear();
    }

    // Settles the rows: revises every rule until each supports them. On a wipe-out, puts back all that was struck.
    fn settle(&mut self) -> Outcome
        requires fits { Fits B.wide B.rules L.room self.old }
        ensures keeps { Keeps L.room self.old self.new }
        ensures ends { Ends (rules_of B.rules self.old) (state_of L.waits self.old) (state_of L.waits self.new) result }
    {
        let height = self.trail.height();
        let before = self.trail.standing();
        self.fill();
        match self.revise_waiting() {
            Ok(()) => Outcome::Settled(before - self.trail.standing()),
            Err(DeadRule(rule)) => {
                self.give_up(height);
                Outcome::Wiped(rule)
            }
        }
    }
}

// Settles a trail by a rule bank, with a list for the rules that wait. Refuses fewer rows than the bank's width, and then a list of a
// capacity below the number of rules; refused, it changes nothing. Afterwards no number waits. Settled, the rows are the largest
// supported sheet under those that were, and the choices that were struck are recorded; wiped out, rows and record are as before.
pub fn propagate<B: Bank, L: WaitingList>(
    trail: &mut Trail,
    bank: &B,
    list: &mut L,
) -> Result<Outcome, SettleError>
    ensures room { L.room list.new ≡ L.room list.old }
    ensures answer { TrailAnswer (B.wide bank.now) (B.rules bank.now) (L.room list.old) trail.old (L.waits list.old) trail.new (L.waits list.new) result }
    ensures alike { Accepted (Alike (B.rules bank.now) (rows_of trail.old) (rows_of trail.new)) result }
    ensures largest { Accepted (SettlesOn (B.rules bank.now) (rows_of trail.old) (rows_of trail.new)) result }
{
    if trail.row_count() < bank.width() {
        return Err(SettleError::TooFewRows);
    }
    if list.capacity() < bank.rule_count() {
        return Err(SettleError::ShortList);
    }
    Ok(Settling { trail, bank, list }.settle())
}
