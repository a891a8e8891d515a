// The slots of a module's partitions, one after the other, written into a table.
ghost use Rattle.std.specs.Prelude.{◌≡◌, ◌++◌, ◌+◌, ◌*◌, ◌≤◌, length, take, drop};
ghost use Rattle.table.specs.Layout.{most_frame, head_size, slot_size, slots_bytes, table_bytes};
ghost use Rattle.frames.specs.Frame.{slots_of};
ghost use Rattle.frames.specs.Next.{soonest, beyond};
ghost use Rattle.builder.specs.Parts.{nearer};
ghost use Rattle.builder.specs.OnModule.{parts, ReadyFor};

use crate::parts::Hosted;
use table::records::{Slot, Table};

// The earlier of the best so far and an execution that starts at `start`.
fn nearer(best: Slot, start: u32, length: u32, partition: u8) -> Slot
    ensures { result ≡ nearer best start length partition }
{
    if start < best.start {
        Slot {
            start,
            length,
            partition,
        }
    } else {
        best
    }
}

impl<'a> Hosted<'a> {
    // The soonest execution from tick n on; its start is the frame where none begins before that.
    // Kept: the frame as its start and no `Option`, as `soonest` and `beyond` of frames' specs have it, which document 01's builder goes by.
    #[tactic(auto, using(sets::proofs::Walks::turn_below, sets::proofs::Walks::of_over), unfolding(frames::specs::Next::soonest))]
    pub fn soonest(&self, n: u32, frame: u32) -> Slot
        requires { n ≤ most_frame }
        ensures { result ≡ soonest n (beyond frame) (parts self.now) }
    {
        let mut best = Slot {
            start: frame,
            length: 0,
            partition: 0,
        };
        for i in sets::members(self.set) {
            let start = n + overlap::gap(self.times.periods[i], n, self.plan.starts[i]);
            best = nearer(best, start, self.times.budgets[i], i as u8);
        }
        best
    }

    // Writes the slots, one after the other, behind the bytes of the head.
    fn write_slots(&self, t: Table, buffer: &mut [u8])
        requires ready { ReadyFor self.now t }
        requires slots_in_bounds { head_size + slot_size * t.slots ≤ length buffer.old }
        ensures { buffer.new ≡ take head_size buffer.old ++ slots_bytes (slots_of (parts self.now)) ++ drop (head_size + slot_size * t.slots) buffer.old }
    {
        let mut n: u32 = 0;
        for i in 0..t.slots as usize {
            let x = self.soonest(n, t.frame);
            table::write_slot(buffer, i, x);
            n = x.start + x.length;
        }
    }

    // Writes the table: its head, and then its slots.
    pub fn write_table(&self, t: Table, buffer: &mut [u8])
        requires ready { ReadyFor self.now t }
        requires slots_in_bounds { head_size + slot_size * t.slots ≤ length buffer.old }
        ensures { buffer.new ≡ table_bytes t.frame (slots_of (parts self.now)) ++ drop (head_size + slot_size * t.slots) buffer.old }
    {
        table::write_head(buffer, t);
        self.write_slots(t, buffer);
    }
}
