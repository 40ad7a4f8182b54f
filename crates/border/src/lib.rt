// Inner: the border of a line, in code.
#![tactic(auto)]

ghost use Rattle.std.specs.Prelude.{◌≡◌, ◌≤◌, ◌<◌, ◌^◌, pos, ◌-ℤ◌};
ghost use Rattle.border.specs.Border.{reflect};

// The place that index i of a line of n means.
pub fn reflected(n: usize, i: usize) -> usize
    requires { (1 ≤ n) × (n ≤ 2 ^ 62) }
    ensures { (result ≡ reflect n (pos i)) × (result < n) }
{
    if i < n {
        return i;
    }
    if n == 1 {
        return 0;
    }
    let period = 2 * (n - 1);
    let m = i % period;
    if m < n { m } else { period - m }
}

// The place that the index `back` places before i means: the reflection is even, so only the distance counts.
pub fn reflected_before(n: usize, i: usize, back: usize) -> usize
    requires { (1 ≤ n) × (n ≤ 2 ^ 62) }
    ensures { (result ≡ reflect n (pos i -ℤ pos back)) × (result < n) }
{
    reflected(n, i.abs_diff(back))
}
