// What a bank may hold, and which rows a rule may name.
ghost use Rattle.std.specs.Prelude.{◌≡◌};
ghost use Rattle.banks.specs.Lawful.{may_hold};
ghost use Rattle.banks.specs.Names.{may_name};

// The largest width of a bank.
pub const MAX_WIDTH: usize = 256;

// The most rules of a bank.
pub const MAX_RULES: usize = 512;

// The most rows that a rule names.
pub const MAX_ARITY: usize = 16;

// Whether a bank may have a width and a number of rules.
pub fn may_hold(width: usize, count: usize) -> bool
    ensures { result ≡ may_hold width count }
{
    1 <= width && width <= MAX_WIDTH && count <= MAX_RULES
}

// Whether a rule may name these rows in a bank of a width.
pub fn may_name(width: usize, rows: &[usize]) -> bool
    ensures { result ≡ may_name width rows.now }
{
    if rows.is_empty() || rows.len() > MAX_ARITY {
        return false;
    }
    // By place, since each row is looked for among those that come after it.
    for (place, row) in rows.iter().enumerate() {
        if *row >= width || rows[place + 1..].contains(row) {
            return false;
        }
    }
    true
}
