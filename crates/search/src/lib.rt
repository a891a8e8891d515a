// The search: the first accepted plan within a budget of tries, or that there is none, or that the budget is spent (document 01, "The search
// and its tries"). It knows decoded values and nothing of bits.
#![tactic(auto)]

ghost use Rattle.std.specs.Prelude.{◌≡◌, length};
ghost use Rattle.search.specs.Answer.{found_as, found_of, buffer_after};

pub mod attempts;
mod run;

use crate::attempts::Course;
use crate::run::run;
use model::records::Sheet;
use numbers::{Refusal, number_of};

// Whether a plan was found, or why not, and the tries made.
#[derive(Clone, Copy, Debug, PartialEq, Eq)]
pub struct Searched {
    pub outcome: Result<(), Refusal>,
    pub tries: u32,
}

// The same in two numbers: 0 found, 26 no plan, 27 stopped, or that of another refusal, and the tries made.
// Kept: a number beside the tries and no `Result`, since C reads both.
#[repr(C)]
#[derive(Clone, Copy)]
pub struct Found {
    pub number: u8,
    pub tries: u32,
}

impl From<Searched> for Found {
    ghost from_gives = { λ searched found. found ≡ found_as searched };

    fn from(searched: Searched) -> Found {
        Found {
            number: number_of(searched.outcome),
            tries: searched.tries,
        }
    }
}

// The search on decoded values. Found writes the plan at the front of the buffer; all else leaves the buffer alone.
// Kept: sheet and delays by value, as document 01's form for the delays has it beside the sheet's record; inside both are lent.
pub fn search(
    s: Sheet,
    d: [[u16; Sheet::MODULES]; Sheet::MODULES],
    budget: u32,
    buffer: &mut [u8],
) -> Searched
    ensures value { found_as result ≡ found_of s d budget (length buffer.old) }
    ensures buffer_after { buffer.new ≡ buffer_after s d budget buffer.old }
{
    let mut course = Course::empty();
    let outcome = run(&s, &d, budget, &mut course, buffer);
    Searched {
        outcome,
        tries: course.tries,
    }
}
