// The calls on bytes: a sheet's and a plan's bytes to verdicts, plans and tables. Every byte string of every length gets its number
// (document 01, "Numbers returned"). The crate `ghozrembu_c` exports them to C.
#![tactic(auto)]

mod building;
mod judging;
mod looks;
mod searching;
mod values;

pub use building::build;
pub use judging::{check_sheet, judge};
pub use looks::{Counts, budget_of, counts_of, slot_at, table_at};
pub use searching::search;
