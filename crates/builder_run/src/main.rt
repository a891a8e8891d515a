// Runs of the builder and the dispatcher, which are not worked out as theorems: periods 2 and 4,096 on one module build to 22; and a table of
// 1,024 slots, whose frame is near the largest, is built, stepped over several frames and compared with the covering partition at each tick.
#![tactic(auto)]

use builder::Built;
use judge::Failure;
use model::records::{Head, Module, Partition, Plan, Sheet};
use std::io;
use table::records::{Position, Table};

// How many ticks the long run has: three frames and some.
const TICKS: u64 = 50_331_000;

// A partition without memory.
fn partition(period: u32, budget: u32) -> Partition {
    Partition {
        period,
        budget,
        ..Partition::NONE
    }
}

// A sheet of one module and these partitions.
fn sheet(partitions: &[Partition]) -> Sheet {
    let mut sheet = Sheet::none();
    sheet.head = Head {
        version: Head::VERSION,
        modules: 1,
        partitions: partitions.len(),
        ..Head::NONE
    };
    sheet.modules[0] = Module {
        most: 3,
        ..Module::NONE
    };
    for (place, partition) in sheet.partitions.iter_mut().zip(partitions) {
        *place = *partition;
    }
    sheet
}

// All on module 0, with these starts.
fn plan(starts: &[u32]) -> Plan {
    let mut plan = Plan::none();
    for (place, start) in plan.starts.iter_mut().zip(starts) {
        *place = *start;
    }
    plan
}

// The partition whose execution covers tick n in the long run, or IDLE.
fn covering(n: u64) -> u8 {
    match (n % 65_280, n % 32_896) {
        (0..30, _) => 0,
        (30..60, _) => 1,
        (_, 60..100) => 2,
        _ => Table::IDLE,
    }
}

// How many steps of the long run, from the fresh position, are refused or answer something else.
fn misses(table: &[u8]) -> u64 {
    let mut wrong = 0;
    let mut position = Position::fresh();
    for n in 0..TICKS {
        let Ok(step) = table::step_from(table, position) else {
            wrong += 1;
            continue;
        };
        if step.partition != covering(n) {
            wrong += 1;
        }
        position = step.position;
    }
    wrong
}

// A line with the number and the length of a table, or 0 where it is refused.
fn print_built(rt: &impl Print, built: Result<usize, Failure>) -> io::Result<()> {
    let built = Built::from(built);
    println!(rt; "{} {}", built.number, built.length)
}

fn main(rt: HostRuntime) -> io::Result<()> {
    let delays = [[0u16; Sheet::MODULES]; Sheet::MODULES];
    let mut buffer = [0u8; 8_192];
    let many = sheet(&[partition(2, 1), partition(4_096, 1)]);
    let full = builder::build(many, delays, plan(&[0, 1]), 0, &mut buffer);
    print_built(&rt, full)?;
    let long = sheet(&[
        partition(65_280, 30),
        partition(65_280, 30),
        partition(32_896, 40),
    ]);
    let built = builder::build(long, delays, plan(&[0, 30, 60]), 0, &mut buffer);
    print_built(&rt, built)?;
    let table = built.ok().and_then(|length| buffer.get(..length));
    let wrong = table.map_or(TICKS, misses);
    println!(rt; "{wrong}")
}
