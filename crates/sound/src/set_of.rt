// Sets of those that a test keeps.
ghost use Rattle.std.specs.Prelude.{◌≡◌, ℕ, ◌≤◌, ◌<◌, Bool};
ghost use Rattle.sets.specs.Members.{places, set_of};

// The set of those of the first n that are kept.
// Kept: what is asked of the closure and said of its answers is written out, since a name would hide `F.pre` and `F.post`.
pub fn set_of<F: Fn(usize) -> bool>(n: usize, keeps: F) -> u64
    requires room { n ≤ places }
    requires callable { (i : ℕ) → i < n → F.pre keeps i }
    ensures { (f : ℕ → Bool) → ((i : ℕ) (b : _) → i < n → F.post keeps i b → b ≡ f i) → result ≡ set_of f n }
{
    let mut set: u64 = 0;
    for i in 0..n {
        if keeps(i) {
            set = sets::with(set, i);
        }
    }
    set
}
