// Going over one partition's placements, and trying one placement. They call each other: the next partition is taken up only from inside a try,
// and partitions left fall, so calls nest at most 64 partitions deep. Desk, partial plan and number of tries are lent, so nothing is copied in a
// try. Which partitions are on a module, and whether it admits one more, is worked out once for all starts on it.
ghost use Rattle.std.specs.Prelude.{◌≡◌, ◌<◌};
ghost use Rattle.sound.specs.Asked.{Ready};
ghost use Rattle.search.specs.Standing.{nothing_placed, under_way, standing, TakenUp, Searched, Tried};

use model::records::Plan;
use sound::desk::Desk;
use sound::fits::beside;
use std::ops::ControlFlow;

// Where a search ends before all placements are tried: with a plan, or with the budget spent.
#[derive(Clone, Copy)]
pub enum End {
    Found,
    Stopped,
}

// The partial plan, and the tries made.
#[derive(Clone, Copy)]
pub struct Course {
    pub plan: Plan,
    pub tries: u32,
}

impl Course {
    // The empty partial plan.
    pub fn empty() -> Course
        ensures { result ≡ nothing_placed }
    {
        Course {
            plan: Plan::none(),
            tries: 0,
        }
    }
}

// A module that is taken up for partition j, and what is asked of it once for all starts: the partitions before j that are on it, and whether it
// admits j.
#[derive(Clone, Copy)]
struct Host {
    module: u32,
    held: u64,
    admitted: bool,
}

impl Host {
    // Module m taken up for partition j.
    fn of(desk: &Desk, plan: &Plan, m: u32, j: usize) -> Host
        requires on { m < desk.now.sheet.head.modules }
        requires ready { Ready desk.now plan.now.modules j }
        ensures module { result.module ≡ m }
        ensures taken_up { TakenUp desk.now plan.now.modules j result }
    {
        let held = beside(plan, m, j);
        Host {
            module: m,
            held,
            admitted: desk.admits(plan, m, held, j),
        }
    }
}

// Every placement of partition j in turn: by module, then start, ascending.
#[cycle(attempt_over)]
#[tactic(auto, using(crate::proofs::Steps::begins, crate::proofs::Steps::enters, crate::proofs::Steps::ends, crate::proofs::Steps::still_taken_up, crate::proofs::Steps::still_ready, crate::proofs::Steps::breaks))]
pub fn over(desk: &Desk, limit: u32, course: &mut Course, j: usize) -> ControlFlow<End>
    requires { Ready desk.now course.old.plan.modules j }
    ensures { Searched desk.now limit j (under_way course.old) (standing result course.new) }
{
    let starts = desk.times.periods[j] - desk.times.budgets[j] + 1;
    for m in 0..desk.sheet.head.modules as u32 {
        let host = Host::of(desk, &course.plan, m, j);
        for t in 0..starts {
            attempt(desk, limit, course, j, &host, t)?;
        }
    }
    ControlFlow::Continue(())
}

// One try: partition j on the module of `host` with start t, and where that fits the partitions left.
// Kept: six parameters, which are six things: what stands for the whole search, its budget, how far it got, and the partition, module and start of the try.
#[cycle(attempt_over)]
#[tactic(auto, using(tries::proofs::Tried::stops, crate::proofs::Steps::held_there, crate::proofs::Steps::fails, crate::proofs::Steps::finds, crate::proofs::Steps::goes))]
fn attempt(
    desk: &Desk,
    limit: u32,
    course: &mut Course,
    j: usize,
    host: &Host,
    t: u32,
) -> ControlFlow<End>
    requires host { TakenUp desk.now course.old.plan.modules j host.now }
    requires ready { Ready desk.now course.old.plan.modules j }
    ensures { Tried desk.now limit j host.now.module t (under_way course.old) (standing result course.new) }
{
    if limit <= course.tries {
        return ControlFlow::Break(End::Stopped);
    }
    course.tries += 1;
    course.plan.modules[j] = host.module;
    course.plan.starts[j] = t;
    if !desk.fits(&course.plan, host.held, host.admitted, j) {
        return ControlFlow::Continue(());
    }
    if j + 1 == desk.sheet.head.partitions {
        return ControlFlow::Break(End::Found);
    }
    over(desk, limit, course, j + 1)
}
