// What the programs show of files that stand: the counts of a sheet, the head and the slots of a table, the budget of a search.
// Kept: zeros and no `Option` where there is nothing to show, as `counts_of`, `table_at`, `slot_at` and `budget_of` of specs/Looks have them.
ghost use Rattle.std.specs.Prelude.{◌≡◌};
ghost use Rattle.ghozrembu.specs.Looks.{counts_of, table_at, slot_at, budget_of};

use table::records::{Slot, Table};

// How many modules and partitions a sheet has.
#[derive(Clone, Copy)]
pub struct Counts {
    pub modules: usize,
    pub partitions: usize,
}

// M and N of a sheet; zeros where it is refused.
#[tactic(auto, using(numbers::proofs::Refused::number_some, reader::proofs::Fits::head_fits, reader::proofs::Fits::head_zero_holds), unfolding(crate::specs::Looks::counts_of))]
pub fn counts_of(sheet: &[u8]) -> Counts
    ensures { result ≡ counts_of sheet.now }
{
    match reader::check(sheet) {
        Ok(()) => {
            let head = layout::values::head_of(sheet);
            Counts {
                modules: head.modules,
                partitions: head.partitions,
            }
        }
        Err(_) => Counts {
            modules: 0,
            partitions: 0,
        },
    }
}

// The head of a table; zeros where the bytes end before it.
#[tactic(auto, unfolding(crate::specs::Looks::table_at))]
pub fn table_at(table: &[u8]) -> Table
    ensures { result ≡ table_at table.now }
{
    if Table::HEAD_BYTES <= table.len() {
        table::layout::table_of(table)
    } else {
        Table { frame: 0, slots: 0 }
    }
}

// Slot i of a table; zeros where the bytes end before its end.
#[tactic(auto, unfolding(crate::specs::Looks::slot_at))]
pub fn slot_at(table: &[u8], i: u32) -> Slot
    ensures { result ≡ slot_at table.now i }
{
    let end = Table::HEAD_BYTES + Table::SLOT_BYTES * (i as usize + 1);
    if i < Table::SLOTS && end <= table.len() {
        return table::layout::slot_of(table, i);
    }
    Slot {
        start: 0,
        length: 0,
        partition: 0,
    }
}

// A budget's 32 bits, most significant first; any other length means 0.
#[tactic(auto, using(crate::proofs::LookLaws::budget_of_four), unfolding(crate::specs::Looks::budget_of))]
pub fn budget_of(bytes: &[u8]) -> u32
    ensures { result ≡ budget_of bytes.now }
{
    match <[u8; 4]>::try_from(bytes) {
        Ok(four) => u32::from_be_bytes(four),
        Err(_) => 0,
    }
}
