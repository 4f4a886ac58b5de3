// What is asked of a bank of any kind.
ghost use Rattle.std.specs.Prelude.{◌≡◌, ℕ, ◌<◌, Bool, [], ◌∷◌, length, Decides, slice_index};
ghost use Rattle.rows.specs.Refusals.{Answer, first};
ghost use Rattle.banks.specs.Rules.{NoRowEmpty, OfChoices};
ghost use Rattle.rows.specs.Choices.{Only};
ghost use Rattle.banks.specs.Calls.{call_says, too_few_rows, too_few_masks, ShownAnswer, SupportedByAnswer, SupportedAnswer, LiveAnswer, MeetsAnswer, NarrowedAnswer, ChoicesAnswer};

use crate::bank::Bank;
use crate::limits::{MAX_ARITY, MAX_WIDTH};
use crate::refusal::CallError;
use rows::mask::{CHOICES, only};

// Refuses fewer rows than a bank's width, and then fewer masks than a rule's arity.
pub fn admit(width: usize, arity: usize, rows: &[u64], masks: &[u64]) -> Result<(), CallError>
    ensures { Answer call_says (first (too_few_rows width rows.now ∷ too_few_masks arity masks.now ∷ [])) (Unit {0}) (λ _. Unit {0}) result }
{
    if rows.len() < width {
        return Err(CallError::TooFewRows);
    }
    if masks.len() < arity {
        return Err(CallError::TooFewMasks);
    }
    Ok(())
}

// Whether no row is empty.
fn no_row_empty(rows: &[u64]) -> bool
    ensures { Decides result (NoRowEmpty rows.now) }
{
    rows.iter().all(|row| *row != 0)
}

// The masks of the choices that have support at each place of a rule; beyond its arity no choice has. Bank, rule and rows are handed on one
// by one here and below, as `Bank::support` takes them.
fn shown<B: Bank>(bank: &B, rule: usize, rows: &[u64]) -> Result<[u64; MAX_ARITY], CallError>
    ensures { ShownAnswer (B.wide bank.now) (B.rules bank.now) rule rows.now result }
{
    let mut masks = [0u64; MAX_ARITY];
    bank.support(rule, rows, &mut masks)?;
    Ok(masks)
}

// Whether every choice of the rows has support in a rule.
fn supported_by<B: Bank>(bank: &B, rule: usize, rows: &[u64]) -> Result<bool, CallError>
    ensures { SupportedByAnswer (B.wide bank.now) (B.rules bank.now) rule rows.now result }
{
    let masks = shown(bank, rule, rows)?;
    for (place, mask) in masks[..bank.arity(rule)?].iter().enumerate() {
        if *mask != rows[bank.row_at(rule, place)?] {
            return Ok(false);
        }
    }
    Ok(true)
}

// Whether a sheet, given by the masks of its rows, is supported for the rules of a bank.
pub fn supported<B: Bank>(bank: &B, rows: &[u64]) -> Result<bool, CallError>
    ensures { SupportedAnswer (B.wide bank.now) (B.rules bank.now) rows.now result }
{
    if rows.len() < bank.width() {
        return Err(CallError::TooFewRows);
    }
    if !no_row_empty(rows) {
        return Ok(false);
    }
    for rule in 0..bank.rule_count() {
        if !supported_by(bank, rule, rows)? {
            return Ok(false);
        }
    }
    Ok(true)
}

// The choices of a mask that have support in a rule, as choices of a row.
fn narrowed<B: Bank>(
    bank: &B,
    rule: usize,
    rows: &[u64],
    row: usize,
    mask: u64,
) -> Result<u64, CallError>
    ensures { NarrowedAnswer (B.wide bank.now) (B.rules bank.now) rule rows.now row mask result }
{
    let masks = shown(bank, rule, rows)?;
    let mut passing = mask;
    for (place, shown) in masks[..bank.arity(rule)?].iter().enumerate() {
        if bank.row_at(rule, place)? == row {
            passing &= *shown;
        }
    }
    Ok(passing)
}

// The choices of a row that have support in every rule of a bank. In a row that is not there no choice stands.
pub fn supported_choices<B: Bank>(bank: &B, rows: &[u64], row: usize) -> Result<u64, CallError>
    ensures { ChoicesAnswer (B.wide bank.now) (B.rules bank.now) rows.now row result }
{
    if rows.len() < bank.width() {
        return Err(CallError::TooFewRows);
    }
    let Some(mask) = rows.get(row) else {
        return Ok(0);
    };
    let mut passing = *mask;
    for rule in 0..bank.rule_count() {
        passing = narrowed(bank, rule, rows, row, passing)?;
    }
    Ok(passing)
}

// Whether a rule has a live tuple on the rows.
fn has_live_tuple<B: Bank>(bank: &B, rule: usize, rows: &[u64]) -> Result<bool, CallError>
    ensures { LiveAnswer (B.wide bank.now) (B.rules bank.now) rule rows.now result }
{
    let masks = shown(bank, rule, rows)?;
    Ok(masks[0] != 0)
}

// Whether each number of a plan is a choice.
fn of_choices(plan: &[u8]) -> bool
    ensures { Decides result (OfChoices plan.now) }
{
    plan.iter().all(|choice| usize::from(*choice) < CHOICES)
}

// Rows in each of which only the choice of a plan stands.
fn rows_of(plan: &[u8]) -> [u64; MAX_WIDTH]
    ensures { (k : ℕ) → k < length plan.now → k < 256 → Only (slice_index plan.now k) (slice_index result k) }
{
    let mut rows = [0u64; MAX_WIDTH];
    // Indexed, since after writes through `iter_mut().zip(plan)` a proof knows nothing of the rows.
    for (row, choice) in plan[..plan.len().min(MAX_WIDTH)].iter().enumerate() {
        rows[row] = only(usize::from(*choice));
    }
    rows
}

// Whether a plan, one choice for each row, meets every rule of a bank.
pub fn meets<B: Bank>(bank: &B, plan: &[u8]) -> Result<bool, CallError>
    ensures { MeetsAnswer (B.wide bank.now) (B.rules bank.now) plan.now result }
{
    if plan.len() < bank.width() {
        return Err(CallError::TooFewRows);
    }
    if !of_choices(plan) {
        return Ok(false);
    }
    let rows = rows_of(plan);
    for rule in 0..bank.rule_count() {
        if !has_live_tuple(bank, rule, &rows)? {
            return Ok(false);
        }
    }
    Ok(true)
}
