// Worked cases of calls on a sheet, proved as one table.
#![tactic(auto)]

ghost use Rattle.std.specs.Prelude.{◌≡◌, length};
ghost use Rattle.history_cases.specs.Runs.{table, CasesHold};

// Every worked case of the table holds.
fn table_holds()
    ensures { CasesHold }
{}

// How many worked cases the table has, each of which is proved to hold. Beside the function of the table of supports, since each carries the
// theorem of its own table in its contract.
pub fn proved_cases() -> usize
    ensures count { result ≡ length table }
    ensures hold { CasesHold }
{
    table_holds();
    5
}
