// The partitions that a plan has on one module.
ghost use Rattle.builder.specs.Asked.{Timed};

use judge::times::Times;
use model::records::Plan;

// The set of them, with the times and the plan that hold their periods, budgets and starts.
#[derive(Clone, Copy)]
pub struct Hosted<'a> {
    pub set: u64,
    pub times: &'a Times,
    pub plan: &'a Plan,
    pub ghost timed: { Timed times.now.periods set },
}
