// The test of one try: whether the placement of partition j fits those of the partitions before it. Only what speaks of j is tested. C4 to C7 are
// asked once for all starts on a module (`beside`, `admits`), C2 of each try, and C8, which a start does not change either, of a try that C2 lets
// through: its sum reads the module that the try writes.
ghost use Rattle.std.specs.Prelude.{◌≡◌, ◌≤◌, ◌<◌, ◌^◌};
ghost use Rattle.model.specs.Limits.{most_modules, most_partitions};
ghost use Rattle.judge.specs.Constraints.{at};
ghost use Rattle.judge.specs.Asked.{Placed};
ghost use Rattle.sound.specs.Desk.{held_on, room_in, farther, admits_on, clear_with, kept_at, fits_where};
ghost use Rattle.sound.specs.Asked.{Divisible, ChainPlaced, Askable, Testable};

use crate::desk::Desk;
use crate::set_of::set_of;
use judge::chains::delay_over;
use model::records::Plan;

// The set of those of the partitions before j that are on module m.
pub fn beside(plan: &Plan, m: u32, j: usize) -> u64
    requires { j < most_partitions }
    ensures { result ≡ held_on plan.now.modules m j }
{
    set_of(j, |i| plan.modules[i] == m)
}

impl Desk {
    // C5 and C4 of module m, on which the partitions of a set are: their number and their memory.
    #[tactic(auto, unfolding(crate::specs::Desk::room_in))]
    fn has_room(&self, m: usize, set: u64) -> bool
        requires { m < most_modules }
        ensures { result ≡ room_in self.now m set }
    {
        sets::size(set) <= u32::from(self.sheet.modules[m].most)
            && sets::sum(&self.memories, set) <= u64::from(self.sheet.modules[m].memory)
    }

    // C7 of partition i and one on module m.
    #[tactic(auto, unfolding(crate::specs::Desk::farther))]
    fn is_far(&self, plan: &Plan, m: u32, i: usize) -> bool
        requires { (m < most_modules) × Placed plan.now.modules i }
        ensures { result ≡ farther self.now plan.now.modules m i }
    {
        self.sheet.modules[plan.modules[i] as usize].cabinet
            != self.sheet.modules[m as usize].cabinet
    }

    // Whether module m admits partition j, whatever its start: C4 to C7. `held` are the partitions before j on it.
    #[tactic(auto, unfolding(crate::specs::Desk::admits_on))]
    pub fn admits(&self, plan: &Plan, m: u32, held: u64, j: usize) -> bool
        requires askable { Askable self.now plan.now.modules m j }
        requires held_value { held ≡ held_on plan.now.modules m j }
        ensures { result ≡ admits_on self.now plan.now.modules m j }
    {
        self.has_room(m as usize, sets::with(held, j))
            && sets::apart(self.apart[j], held)
            && sets::all(self.far[j], |i| self.is_far(plan, m, i))
    }

    // C2 of partitions i and j, which share a module, by the divisor of the pair.
    fn is_clear(&self, plan: &Plan, j: usize, i: usize) -> bool
        requires { (j < most_partitions) × Divisible self.now j × (i < j) }
        ensures { result ≡ clear_with self.now plan.now.starts j i }
    {
        overlap::clear(
            self.divisors[i][j],
            plan.starts[i],
            self.times.budgets[i],
            plan.starts[j],
            self.times.budgets[j],
        )
    }

    // C8 of chain c.
    #[tactic(auto, unfolding(crate::specs::Desk::kept_at))]
    fn is_kept(&self, plan: &Plan, c: usize) -> bool
        requires { ChainPlaced self.now.sheet plan.now.modules c }
        ensures { result ≡ kept_at self.now plan.now.modules c }
    {
        let chain = &self.sheet.chains[c];
        delay_over(chain, &self.times, &plan.modules, &self.delays) <= u64::from(chain.limit)
    }

    // The placement of partition j fits those of the partitions before it. `held` are those of them that are on its module, and `admitted` says
    // whether the module admits it.
    // Kept: the two are worked out once for a module's starts and handed to each try: a struct of them would be the search's `Host` again.
    #[tactic(auto, using(crate::proofs::Laid::held_before), unfolding(crate::specs::Desk::fits_where))]
    pub fn fits(&self, plan: &Plan, held: u64, admitted: bool, j: usize) -> bool
        requires testable { Testable self.now plan.now.modules j }
        requires held_value { held ≡ held_on plan.now.modules (at plan.now.modules j) j }
        ensures { result ≡ fits_where self.now admitted plan.now.modules plan.now.starts j }
    {
        admitted
            && sets::all(held, |i| self.is_clear(plan, j, i))
            && sets::all(self.endings[j], |c| self.is_kept(plan, c))
    }
}
