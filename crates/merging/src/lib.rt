// Inner: the second level's joined parts merged into the first level's, along lines, and a line settled. A joined sum of the second level does
// not fit 32 bits: it is carried as whole parts by 1,024 and rests. No loop over a line reflects or branches, so that each is a loop over vectors.
// A list comes with a place in it, and is no part cut from it (docs/DECISIONS.md, "Lent lists").
#![tactic(auto)]

ghost use Rattle.std.specs.Prelude.{◌≡◌, ◌+◌, ◌*◌, ◌≤◌, ◌<◌, ℤ, nat_abs, ◌+ℤ◌, ◌-ℤ◌, length};
ghost use Rattle.integers.specs.Lists.{overwrite};
ghost use Rattle.planes.specs.Lists.{value};
ghost use Rattle.filters.specs.Bank.{Small, low_split, low_join, along};
ghost use Rattle.lines.specs.Lines.{Run, Runs, spaced, three, five, padded};
ghost use Rattle.details.specs.Details.{Triple, from_place, Crossing};
ghost use Rattle.merging.specs.Merging.{crossed_of, low_away, low_added, settled_place};

// The low split filter along a padded line of n, with taps d places apart: band 1, from a line that is low along the columns.
pub fn band_line(line: &[i32], d: usize, n: usize, out: &mut [i32], at: usize)
    requires { Triple 134217728 line.now d n × (at + n ≤ length out.old) }
    ensures { out.new ≡ overwrite out.old at n (three low_split line.now 0 d (2 * d)) }
{
    for k in 0..n {
        out[at + k] = filters::low_split(line[k], line[d + k], line[2 * d + k]);
    }
}

// Five rows of n, of each value its part, through the high join filter: from place 2 of `out` on. One part at a time, as a loop over two results would need
// too many checks of overlap to become vectors.
pub fn cross<F: Fn(i32) -> i32>(
    x: &[i32],
    y: &[i32],
    starts: lines::Five,
    n: usize,
    out: &mut [i32],
    part: F,
)
    requires crossing { Crossing 805306368 x.now y.now starts n × (2 + n ≤ length out.old) }
    requires takes { (z : ℤ) → nat_abs z ≤ 805306368 → F.pre part z }
    requires small { (z r : ℤ) → nat_abs z ≤ 805306368 → F.post part z r → Small r }
    ensures { (f : ℤ → ℤ) → ((z r : ℤ) → nat_abs z ≤ 805306368 → F.post part z r → r ≡ f z) → out.new ≡ overwrite out.old 2 n (crossed_of f x.now y.now starts) }
{
    for k in 0..n {
        out[2 + k] = filters::high_join(
            part(x[starts.a + k]),
            part(y[starts.b + k]),
            part(x[starts.c + k]),
            part(y[starts.d + k]),
            part(x[starts.e + k]),
        );
    }
}

// The low join filter at place k along a padded line of n.
fn low_at(line: &[i32], n: usize, k: usize) -> i32
    requires { Runs 67108864 line.now (spaced 1) n × (k < n) }
    ensures { result ≡ five low_join line.now (spaced 1) k }
{
    filters::low_join(line[k], line[1 + k], line[2 + k], line[3 + k], line[4 + k])
}

// The low join filter along a padded line of n, taken away from a row of `apart1` and added to one of `together1`. Lent lists go one by
// one (docs/DECISIONS.md, "Lent lists").
fn add_low(
    line: &[i32],
    apart1: &[i32],
    together1: &[i32],
    from: usize,
    n: usize,
    apart: &mut [i32],
    together: &mut [i32],
    at: usize,
)
    requires runs { Runs 67108864 line.now (spaced 1) n × Run 1073741824 apart1.now from n × Run 1073741824 together1.now from n }
    requires n_in_bounds { (at + n ≤ length apart.old) × (at + n ≤ length together.old) }
    ensures apart_after { apart.new ≡ overwrite apart.old at n (low_away apart1.now from line.now) }
    ensures together_after { together.new ≡ overwrite together.old at n (low_added together1.now from line.now) }
{
    for k in 0..n {
        let low = low_at(line, n, k);
        apart[at + k] = apart1[from + k] - low;
        together[at + k] = together1[from + k] + low;
    }
}

// Lines of n, from place 2 of `whole` and of `rest` on, through the low join filter along them: of the whole parts merged into a row of the first
// level's joined parts, of the rests into `out`. The places beside the two lines are scratch. Lent lists go one by one (docs/DECISIONS.md, "Lent lists").
pub fn merge_along(
    whole: &mut [i32],
    rest: &mut [i32],
    apart1: &[i32],
    together1: &[i32],
    from: usize,
    n: usize,
    apart: &mut [i32],
    together: &mut [i32],
    out: &mut [i32],
    at: usize,
)
    requires le_n { (1 ≤ n) × (n ≤ 2048) × (2 + n + 2 ≤ length whole.old) × (2 + n + 2 ≤ length rest.old) × Run 67108864 whole.old 2 n × Run 67108864 rest.old 2 n }
    requires run { Run 1073741824 apart1.now from n × Run 1073741824 together1.now from n × (at + n ≤ length apart.old) × (at + n ≤ length together.old) × (at + n ≤ length out.old) }
    ensures whole_after { (whole.new ≡ padded n 2 whole.old) × (rest.new ≡ padded n 2 rest.old) }
    ensures apart_after { apart.new ≡ overwrite apart.old at n (λ k. value apart1.now (from + k) -ℤ along low_join 1 n (from_place 2 whole.old) k) }
    ensures together_after { together.new ≡ overwrite together.old at n (λ k. value together1.now (from + k) +ℤ along low_join 1 n (from_place 2 whole.old) k) }
    ensures out_after { out.new ≡ overwrite out.old at n (along low_join 1 n (from_place 2 rest.old)) }
{
    lines::pad_line(whole, n, 2);
    lines::pad_line(rest, n, 2);
    add_low(whole, apart1, together1, from, n, apart, together, at);
    lines::join_low(rest, lines::Five::spaced(1), n, out, at);
}

// A line of n, from `at` on, settled from five rows of the merged parts and one of the rests. The ends go one by one, as in
// `nested_floor::settle`. Lent lists go one by one (docs/DECISIONS.md, "Lent lists").
pub fn settle_line(
    own: &mut [i32],
    at: usize,
    apart: &[i32],
    together: &[i32],
    starts: lines::Five,
    small: &[i32],
    n: usize,
    least: i32,
    most: i32,
)
    requires { Run 131070 own.old at n × Crossing 163577856 apart.now together.now starts n × Run 2097152 small.now 0 n }
    ensures { own.new ≡ overwrite own.old at n (settled_place least most own.old at apart.now together.now starts small.now) }
{
    for k in 0..n {
        let sum = details::crossed_at(apart, together, starts, n, k);
        own[at + k] = nested_floor::settle(least, most, own[at + k], sum, small[k]);
    }
}
