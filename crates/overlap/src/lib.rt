// Whether two strictly periodic partitions ever run at one tick: Korst's condition.
#![tactic(auto)]

ghost use Rattle.std.specs.Prelude.{◌≡◌, ◌≤◌};
ghost use Rattle.overlap.specs.Overlap.{gap_of, clear_by};

// The remainder, 0 to g - 1, of (u minus t) by g.
pub fn gap(g: u32, t: u32, u: u32) -> u32
    requires { 1 ≤ g }
    ensures { result ≡ gap_of g t u }
{
    if t <= u {
        (u - t) % g
    } else {
        let x = (t - u) % g;
        if x == 0 { 0 } else { g - x }
    }
}

// Korst's condition on a partition with start t and budget b and one with start u and budget c; g is the greatest common divisor of their periods.
pub fn clear(g: u32, t: u32, b: u32, u: u32, c: u32) -> bool
    requires { 1 ≤ g }
    ensures { result ≡ clear_by g t b u c }
{
    let d = gap(g, t, u);
    b <= d && c <= g - d
}
