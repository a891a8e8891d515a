// The first of some places at which a test fails, and what is broken there.
// Kept: what is asked of a closure and said of its answers is written out in each function that takes one: a name would hide `F.pre` and `F.post`.
ghost use Rattle.std.specs.Prelude.{◌≡◌, ℕ, ◌-◌, ◌≤◌, ◌<◌, ◌^◌, Bool, IfSome};
ghost use Rattle.judge.specs.Answers.{broken_as, verdict_of};
ghost use Rattle.judge.specs.Places.{fails_from, first_fail, found};
ghost use Rattle.judge.specs.Verdict.{broken_there, broken_at};

use crate::Broken;

// Of the places from `start` to n - 1, the first at which `keeps` is false.
pub fn first_fail_from<F: Fn(usize) -> bool>(start: usize, n: usize, keeps: F) -> Option<usize>
    requires { (i : ℕ) → start ≤ i → i < n → F.pre keeps i }
    ensures inside { IfSome result (λ i. (start ≤ i) × (i < n)) }
    ensures value { (p : ℕ → Bool) → ((i : ℕ) (b : _) → start ≤ i → i < n → F.post keeps i b → b ≡ p i) → result ≡ found n (fails_from p (n - start) start) }
{
    for i in start..n {
        if !keeps(i) {
            return Some(i);
        }
    }
    None
}

// Of the places from 0 to n - 1, the first at which `keeps` is false.
pub fn first_fail<F: Fn(usize) -> bool>(n: usize, keeps: F) -> Option<usize>
    requires { (i : ℕ) → i < n → F.pre keeps i }
    ensures inside { IfSome result (λ i. i < n) }
    ensures value { (p : ℕ → Bool) → ((i : ℕ) (b : _) → i < n → F.post keeps i b → b ≡ p i) → result ≡ found n (first_fail p n) }
{
    first_fail_from(0, n, keeps)
}

// One constraint of n places: what is broken at the first at which `keeps` is false.
pub fn check_each<F: Fn(usize) -> bool, G: Fn(u32) -> Broken>(
    n: usize,
    keeps: F,
    broken: G,
) -> Result<(), Broken>
    requires few { n < 2 ^ 32 }
    requires asked { (i : ℕ) → i < n → F.pre keeps i }
    requires named { (i : ℕ) → i < n → G.pre broken i }
    ensures { (number : ℕ) (p : ℕ → Bool) → ((i : ℕ) (b : _) → i < n → F.post keeps i b → b ≡ p i) → ((i : ℕ) (b : _) → i < n → G.post broken i b → broken_as b ≡ broken_there number i) → verdict_of result ≡ broken_at number (first_fail p n) n }
{
    if let Some(i) = first_fail(n, keeps) {
        return Err(broken(i as u32));
    }
    Ok(())
}
