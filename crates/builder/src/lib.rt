// The builder: the frame table of one module of an accepted plan, written into a lent buffer. It knows decoded values and nothing of bits:
// slots are handed to the writer of `table`. It goes from slot to slot and never tick by tick.
#![tactic(auto)]

ghost use Rattle.std.specs.Prelude.{◌≡◌, ◌≢◌};
ghost use Rattle.judge.specs.Answers.{answer_of};
ghost use Rattle.judge.specs.Verdict.{judged};
ghost use Rattle.builder.specs.Built.{built_as, built_of, buffer_of};

pub mod frame;
pub mod parts;
pub mod room;
pub mod slots;

use crate::parts::Hosted;
use judge::times::Times;
use judge::{Answer, Failure, judge, rooms};
use model::records::{Plan, Sheet};
use numbers::{FINE, Refusal, refuse_if};

// The number, and how many bytes the table has where that is 0.
// Kept: a number with a length beside it and no `Result`, since C reads both.
#[repr(C)]
#[derive(Clone, Copy)]
pub struct Built {
    pub number: u8,
    pub length: usize,
}

impl From<Result<usize, Failure>> for Built {
    ghost from_gives = { λ outcome built. built ≡ built_as outcome };

    fn from(outcome: Result<usize, Failure>) -> Built {
        match outcome {
            Ok(length) => Built {
                number: FINE,
                length,
            },
            Err(failure) => Built {
                number: Answer::from(failure).number,
                length: 0,
            },
        }
    }
}

// The table of one module of a plan, written at the front of the buffer: its length. The judge's failure comes first, then 20, 21, 22 and 23.
// Kept: sheet, delays and plan by value, as document 01's form for the delays has it beside the sheet's record; inside all is lent.
#[tactic(auto, using(numbers::proofs::Refused::number_some, crate::proofs::Returned::failure_some, crate::proofs::Returned::returned_refused, crate::proofs::Returned::left_refused, crate::proofs::Returned::number_judged, crate::proofs::Returned::number_module))]
pub fn build(
    s: Sheet,
    d: [[u16; Sheet::MODULES]; Sheet::MODULES],
    p: Plan,
    m: usize,
    buffer: &mut [u8],
) -> Result<usize, Failure>
    ensures built { (built_as result ≡ built_of s d p m buffer.old) × (buffer.new ≡ buffer_of s d p m buffer.old) }
    ensures judged { (judged s d p).number ≢ 0 → answer_of result ≡ judged s d p }
{
    judge(s, d, p)?;
    refuse_if(m >= s.head.modules, Refusal::NoSuchModule)?;
    let sets = rooms::hosted(s.head.partitions, &p.modules);
    let hosted = Hosted {
        set: sets[m],
        times: &Times::of(&s),
        plan: &p,
    };
    Ok(hosted.build(buffer)?)
}
