// Inner: the sums of the projection, along lines, with taps d places apart. No loop over a line reflects or branches, so that each is a loop
// over vectors, with d as a plain number at run time too.
// A list comes with a place in it, and is no part cut from it (docs/DECISIONS.md, "Lent lists").
#![tactic(auto)]

ghost use Rattle.std.specs.Prelude.{◌≡◌, ◌+◌, ◌*◌, ◌≤◌, ◌<◌, nat_abs, pos, ◌+ℤ◌, ◌-ℤ◌, length};
ghost use Rattle.integers.specs.Lists.{overwrite};
ghost use Rattle.planes.specs.Lists.{InRow, value};
ghost use Rattle.filters.specs.Bank.{Distance, low_split, high_split, high_join, along};
ghost use Rattle.lines.specs.Lines.{Run, spaced, padded};
ghost use Rattle.projection.specs.Fast.{excess as outside, outer_part, crossed_along};
ghost use Rattle.details.specs.Details.{difference_line, Triple, outer, outer_minus, outer_plus, from_place, crossed, Crossing, joined_apart, joined_together, settled};

// A value less the guide's sample.
fn difference(x: i32, guide: u16) -> i32
    requires { nat_abs x ≤ 1073741824 }
    ensures { result ≡ x -ℤ pos guide }
{
    x - i32::from(guide)
}

// A line of n, from `at` on, less the guide's samples, which stand `step` apart: into `out`, from `to` on. Lent lists go one by
// one (docs/DECISIONS.md, "Lent lists").
pub fn difference_line(
    own: &[i32],
    at: usize,
    guide: &[u16],
    from: usize,
    step: usize,
    n: usize,
    out: &mut [i32],
    to: usize,
)
    requires { Run 1073741824 own.now at n × InRow guide.now from n step × (to + n ≤ length out.old) }
    ensures { out.new ≡ overwrite out.old to n (difference_line own.now at guide.now from step) }
{
    for k in 0..n {
        out[to + k] = difference(own[at + k], guide[from + k * step]);
    }
}

// The part of z outside −limit..limit. A sum of two takes fewer operations on vectors than a choice of three.
fn excess(limit: i32, z: i32) -> i32
    requires { Distance limit × (nat_abs z ≤ 536870912) }
    ensures { result ≡ outside limit z }
{
    (z - limit).max(0) + (z + limit).min(0)
}

// Along a padded line of n that is low along the columns, what of band 2 lies outside the limit.
pub fn outer_line(line: &[i32], limit: i32, d: usize, n: usize, out: &mut [i32], at: usize)
    requires { Distance limit × Triple 134217728 line.now d n × (at + n ≤ length out.old) }
    ensures { out.new ≡ overwrite out.old at n (outer high_split limit d line.now) }
{
    for k in 0..n {
        let high = filters::high_split(line[k], line[d + k], line[2 * d + k]);
        out[at + k] = excess(limit, high);
    }
}

// Along a padded line of n that is high along the columns, what of bands 3 and 4 lies outside: their difference and their sum.
pub fn outer_lines(
    line: &[i32],
    limit: i32,
    d: usize,
    n: usize,
    minus: &mut [i32],
    plus: &mut [i32],
    at: usize,
)
    requires { Distance limit × Triple 134217728 line.now d n × (at + n ≤ length minus.old) × (at + n ≤ length plus.old) }
    ensures minus_after { minus.new ≡ overwrite minus.old at n (outer_minus limit d line.now) }
    ensures plus_after { plus.new ≡ overwrite plus.old at n (outer_plus limit d line.now) }
{
    for k in 0..n {
        let x = line[k];
        let y = line[d + k];
        let z = line[2 * d + k];
        let q = excess(limit, filters::high_split(x, y, z));
        let p = excess(limit, filters::low_split(x, y, z));
        minus[at + k] = q - p;
        plus[at + k] = q + p;
    }
}

// Lines of n, from place d of `low` and of `high` on, which are low and high along the columns: what of the details along them lies outside
// the limit, from place 2·d on. The places beside the two lines are scratch. Inlined, so that each sweep has d as a constant.
// Lent lists go one by one (docs/DECISIONS.md, "Lent lists").
#[inline(always)]
pub fn outer_along(
    low: &mut [i32],
    high: &mut [i32],
    limit: i32,
    d: usize,
    n: usize,
    parts: &mut [i32],
    minus: &mut [i32],
    plus: &mut [i32],
)
    requires le_n { (1 ≤ n) × (n ≤ 2048) × (d ≤ 2) × (d + n + d ≤ length low.old) × (d + n + d ≤ length high.old) × Run 134217728 low.old d n × Run 134217728 high.old d n }
    requires distance { Distance limit × (2 * d + n ≤ length parts.old) × (2 * d + n ≤ length minus.old) × (2 * d + n ≤ length plus.old) }
    ensures low_after { (low.new ≡ padded n d low.old) × (high.new ≡ padded n d high.old) }
    ensures parts_after { parts.new ≡ overwrite parts.old (2 * d) n (outer_part high_split limit d n (from_place d low.old)) }
    ensures minus_after { minus.new ≡ overwrite minus.old (2 * d) n (λ k. outer_part high_split limit d n (from_place d high.old) k -ℤ outer_part low_split limit d n (from_place d high.old) k) }
    ensures plus_after { plus.new ≡ overwrite plus.old (2 * d) n (λ k. outer_part high_split limit d n (from_place d high.old) k +ℤ outer_part low_split limit d n (from_place d high.old) k) }
{
    lines::pad_line(low, n, d);
    outer_line(low, limit, d, n, parts, 2 * d);
    lines::pad_line(high, n, d);
    outer_lines(high, limit, d, n, minus, plus, 2 * d);
}

// Five values, of x and of y in turn, through the high join filter.
pub fn crossed_at(x: &[i32], y: &[i32], starts: lines::Five, n: usize, k: usize) -> i32
    requires { Crossing 178956970 x.now y.now starts n × (k < n) }
    ensures { result ≡ crossed x.now y.now starts k }
{
    filters::high_join(
        x[starts.a + k],
        y[starts.b + k],
        x[starts.c + k],
        y[starts.d + k],
        x[starts.e + k],
    )
}

// The joined parts of a row, along three padded lines of parts: their difference and their sum, from `at` on. Lent lists go one by one (docs/DECISIONS.md, "Lent lists").
pub fn join_parts(
    parts: &[i32],
    minus: &[i32],
    plus: &[i32],
    d: usize,
    n: usize,
    apart: &mut [i32],
    together: &mut [i32],
    at: usize,
)
    requires crossing { Crossing 67108864 parts.now parts.now (spaced d) n × Crossing 67108864 minus.now plus.now (spaced d) n }
    requires d_bound { (d ≤ 2) × (at + n ≤ length apart.old) × (at + n ≤ length together.old) }
    ensures apart_after { apart.new ≡ overwrite apart.old at n (joined_apart d parts.now minus.now plus.now) }
    ensures together_after { together.new ≡ overwrite together.old at n (joined_together d parts.now minus.now plus.now) }
{
    let starts = lines::Five::spaced(d);
    for k in 0..n {
        let p = crossed_at(parts, parts, starts, n, k);
        let q = crossed_at(minus, plus, starts, n, k);
        apart[at + k] = q - p;
        together[at + k] = q + p;
    }
}

// Lines of n, from place 2·d of `parts`, `minus` and `plus` on, joined along them: the difference and the sum of what the two give, from `at`
// on. The places beside the three lines are scratch. Inlined, as `outer_along`. Lent lists go one by one (docs/DECISIONS.md, "Lent lists").
#[inline(always)]
pub fn join_along(
    parts: &mut [i32],
    minus: &mut [i32],
    plus: &mut [i32],
    d: usize,
    n: usize,
    apart: &mut [i32],
    together: &mut [i32],
    at: usize,
)
    requires le_n { (1 ≤ n) × (n ≤ 2048) × (d ≤ 2) × (2 * d + n + 2 * d ≤ length parts.old) × (2 * d + n + 2 * d ≤ length minus.old) × (2 * d + n + 2 * d ≤ length plus.old) }
    requires run { Run 67108864 parts.old (2 * d) n × Run 67108864 minus.old (2 * d) n × Run 67108864 plus.old (2 * d) n × (at + n ≤ length apart.old) × (at + n ≤ length together.old) }
    ensures parts_after { (parts.new ≡ padded n (2 * d) parts.old) × (minus.new ≡ padded n (2 * d) minus.old) × (plus.new ≡ padded n (2 * d) plus.old) }
    ensures apart_after { apart.new ≡ overwrite apart.old at n (λ k. crossed_along d n (from_place (2 * d) minus.old) (from_place (2 * d) plus.old) k -ℤ along high_join d n (from_place (2 * d) parts.old) k) }
    ensures together_after { together.new ≡ overwrite together.old at n (λ k. crossed_along d n (from_place (2 * d) minus.old) (from_place (2 * d) plus.old) k +ℤ along high_join d n (from_place (2 * d) parts.old) k) }
{
    let pad = 2 * d;
    lines::pad_line(parts, n, pad);
    lines::pad_line(minus, n, pad);
    lines::pad_line(plus, n, pad);
    join_parts(parts, minus, plus, d, n, apart, together, at);
}

// A line of n, from `at` on, less what is joined from five rows of the joined parts along the columns. Lent lists go one by one (docs/DECISIONS.md, "Lent lists").
pub fn settle_line(
    own: &mut [i32],
    at: usize,
    apart: &[i32],
    together: &[i32],
    starts: lines::Five,
    n: usize,
    range: filters::Range,
)
    requires { Run 131070 own.old at n × Crossing 134217728 apart.now together.now starts n }
    ensures { own.new ≡ overwrite own.old at n (λ k. settled range.least range.most (value own.old (at + k)) (crossed apart.now together.now starts k)) }
{
    for k in 0..n {
        let sum = crossed_at(apart, together, starts, n, k);
        own[at + k] = filters::rescale_less(own[at + k], sum, range);
    }
}
