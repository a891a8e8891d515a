// The C library: the calls as include/ghozrembu.h has them. Each makes what C reads of the library's answer.
// Kept: numbers and structs of numbers in place of `Result`, since C reads them.
#![tactic(auto)]

ghost use Rattle.std.specs.Prelude.{◌≡◌, length};
ghost use Rattle.reader.specs.Number.{sheet_number};
ghost use Rattle.table.specs.Sound.{table_number};
ghost use Rattle.table.specs.Step.{stepped};
ghost use Rattle.ghozrembu.specs.Judged.{judged_bytes};
ghost use Rattle.ghozrembu.specs.BuiltBytes.{built_bytes, buffer_built};
ghost use Rattle.ghozrembu.specs.FoundBytes.{found_bytes, buffer_found};

use builder::Built;
use judge::Answer;
use numbers::number_of;
use search::Found;
use table::{Position, Stepped};

#[unsafe(no_mangle)]
pub extern "C" fn ghozrembu_sheet_number(sheet: &[u8]) -> u8
    ensures { result ≡ sheet_number sheet.now }
{
    number_of(ghozrembu::check_sheet(sheet))
}

#[unsafe(no_mangle)]
pub extern "C" fn ghozrembu_judge(sheet: &[u8], plan: &[u8]) -> Answer
    ensures { result ≡ judged_bytes sheet.now plan.now }
{
    Answer::from(ghozrembu::judge(sheet, plan))
}

#[unsafe(no_mangle)]
pub extern "C" fn ghozrembu_table_number(table: &[u8]) -> u8
    ensures { result ≡ table_number table.now }
{
    number_of(table::check_table(table))
}

#[unsafe(no_mangle)]
pub extern "C" fn ghozrembu_build(sheet: &[u8], plan: &[u8], m: usize, buffer: &mut [u8]) -> Built
    ensures { (result ≡ built_bytes sheet.now plan.now m buffer.old)
        × (buffer.new ≡ buffer_built sheet.now plan.now m buffer.old) }
{
    Built::from(ghozrembu::build(sheet, plan, m, buffer))
}

#[unsafe(no_mangle)]
pub extern "C" fn ghozrembu_search(sheet: &[u8], budget: u32, buffer: &mut [u8]) -> Found
    ensures { (result ≡ found_bytes sheet.now budget (length buffer.old))
        × (buffer.new ≡ buffer_found sheet.now budget buffer.old) }
{
    Found::from(ghozrembu::search(sheet, budget, buffer))
}

// One step of a table: the call itself updates the lent position, and leaves it as it is on a refusal.
#[unsafe(no_mangle)]
pub extern "C" fn ghozrembu_step(table: &[u8], position: &mut Position) -> Stepped
    ensures { (result.number ≡ (stepped table.now position.old).number)
        × (result.partition ≡ (stepped table.now position.old).partition)
        × (position.new ≡ (stepped table.now position.old).position) }
{
    table::ghozrembu_step(table, position)
}
