// One search, from the test of what is handed in to the plan that is written.
ghost use Rattle.std.specs.Prelude.{◌≡◌, length};
ghost use Rattle.numbers.specs.Refusals.{number_of};
ghost use Rattle.search.specs.Answer.{refusal_of, ended_as, found_of, buffer_after};
ghost use Rattle.search.specs.Standing.{nothing_placed};

use crate::attempts::{Course, End, over};
use model::decoded::check_sheet;
use model::records::Sheet;
use numbers::{Refusal, refuse_if};
use reader::plan::{length_of, write_plan};
use sound::desk::Desk;
use std::ops::ControlFlow;

// What a call is refused for that searches nothing: its sheet, or a buffer of too few bytes.
#[tactic(auto, unfolding(crate::specs::Answer::refusal_of, numbers::specs::First::met))]
fn check(s: &Sheet, d: &[[u16; Sheet::MODULES]; Sheet::MODULES], room: usize) -> Result<(), Refusal>
    ensures { number_of result ≡ refusal_of s.now d.now room }
{
    check_sheet(s, d)?;
    refuse_if(room < length_of(s.head.partitions), Refusal::BufferTooShort)
}

// The search from the empty partial plan. Where one is found it is written; all else leaves the buffer alone.
pub fn run(
    s: &Sheet,
    d: &[[u16; Sheet::MODULES]; Sheet::MODULES],
    budget: u32,
    course: &mut Course,
    buffer: &mut [u8],
) -> Result<(), Refusal>
    requires { course.old ≡ nothing_placed }
    ensures value { ended_as result course.new.tries ≡ found_of s.now d.now budget (length buffer.old) }
    ensures buffer_after { buffer.new ≡ buffer_after s.now d.now budget buffer.old }
{
    check(s, d, buffer.len())?;
    match over(&Desk::of(s, d), budget, course, 0) {
        ControlFlow::Break(End::Found) => {
            write_plan(&course.plan, s.head.partitions, buffer);
            Ok(())
        }
        ControlFlow::Break(End::Stopped) => Err(Refusal::Stopped),
        ControlFlow::Continue(()) => Err(Refusal::NoPlan),
    }
}
