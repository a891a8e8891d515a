// The periods and budgets that C2, C3 and C8 are judged with.
ghost use Rattle.std.specs.Prelude.{◌≡◌, ◌≤◌};
ghost use Rattle.model.specs.Limits.{most_partitions};
ghost use Rattle.model.specs.Columns.{periods_of, budgets_of};

use model::columns;
use model::records::Sheet;

// Kept: two arrays beside the sheet's records: `verdict`, `Ready` and the theorems of specs/Meaning take periods and budgets as lists.
#[derive(Clone, Copy)]
pub struct Times {
    pub periods: [u32; Sheet::PARTITIONS],
    pub budgets: [u32; Sheet::PARTITIONS],
}

impl Times {
    // Those of a sheet.
    // Kept: a clause on the count of partitions, as in model/src/columns.rt.
    pub fn of(s: &Sheet) -> Times
        requires { s.now.head.partitions ≤ most_partitions }
        ensures periods { result.periods ≡ periods_of s.now }
        ensures budgets { result.budgets ≡ budgets_of s.now }
    {
        Times {
            periods: columns::periods(s),
            budgets: columns::budgets(s),
        }
    }
}
