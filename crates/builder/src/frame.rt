// The frame of a module's partitions, and how many slots it has.
ghost use Rattle.std.specs.Prelude.{◌≡◌, List, ℕ, ◌/◌, ◌≤◌};
ghost use Rattle.table.specs.Layout.{most_frame};
ghost use Rattle.frames.specs.Frame.{Part, total};
ghost use Rattle.builder.specs.Parts.{parts_of};
ghost use Rattle.builder.specs.Asked.{FrameFound};

use crate::parts::Hosted;
use table::records::Table;

impl<'a> Hosted<'a> {
    // The least common multiple of the periods, or 1 where there is no partition. It stops as soon as it outgrows a table's field.
    // Kept: a number above `Table::FRAME` and no `Option`: `FrameFound` (specs/Asked) speaks of it, and `room` refuses it by the same test.
    #[tactic(auto, using(sets::proofs::Walks::turn_below, sets::proofs::Walks::of_over, euclid::proofs::Laws::lcm_pos, crate::proofs::Found::timed_positive, crate::proofs::Found::found_early, crate::proofs::Found::found_whole), unfolding(frames::specs::Frame::frame_from))]
    pub fn frame(&self) -> u64
        ensures { (B ts : List ℕ) → FrameFound (parts_of self.now.times.now.periods B ts self.now.set) result }
    {
        let mut f: u64 = 1;
        for i in sets::members(self.set) {
            if f > u64::from(Table::FRAME) {
                return f;
            }
            f = euclid::lcm(f, u64::from(self.times.periods[i]));
        }
        f
    }

    // How many slots a frame has: of each partition, one a period.
    #[tactic(auto, using(sets::proofs::Walks::turn_below, sets::proofs::Walks::of_over, sets::proofs::Walks::list_small), unfolding(frames::specs::Frame::total))]
    pub fn slot_count(&self, frame: u64) -> u64
        requires { frame ≤ most_frame }
        ensures { (B ts : List ℕ) → result ≡ total (λ (p : Part). frame / p.period) (parts_of self.now.times.now.periods B ts self.now.set) }
    {
        let mut count: u64 = 0;
        for i in sets::members(self.set) {
            count += frame / u64::from(self.times.periods[i]);
        }
        count
    }
}
