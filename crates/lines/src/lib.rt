// Inner: the bank's filters along lines. No loop over a line reflects, so that each is a loop over vectors: the border stands in
// padded lines. A list comes with the place where a line begins in it, and is no part cut from it (docs/DECISIONS.md, "Lent lists").
#![tactic(auto)]

ghost use Rattle.std.specs.Prelude.{◌≡◌, ℕ, ◌+◌, ◌≤◌, ◌<◌, length, ◌+ℤ◌};
ghost use Rattle.integers.specs.Lists.{overwrite};
ghost use Rattle.planes.specs.Lists.{value};
ghost use Rattle.filters.specs.Bank.{low_split, high_split, low_join, high_join, along};
ghost use Rattle.lines.specs.Lines.{Run, Runs, spaced, three, five, joined, meant, padded};

// Three lines of n, from a, b and c on, through both split filters: into `low` and `high`, from `at` on.
// Lent lists go one by one (docs/DECISIONS.md, "Lent lists").
pub fn split_line(
    source: &[i32],
    a: usize,
    b: usize,
    c: usize,
    n: usize,
    low: &mut [i32],
    high: &mut [i32],
    at: usize,
)
    requires run { Run 134217728 source.now a n × Run 134217728 source.now b n × Run 134217728 source.now c n }
    requires n_in_bounds { (at + n ≤ length low.old) × (at + n ≤ length high.old) }
    ensures low_after { low.new ≡ overwrite low.old at n (three low_split source.now a b c) }
    ensures high_after { high.new ≡ overwrite high.old at n (three high_split source.now a b c) }
{
    for i in 0..n {
        let x = source[a + i];
        let y = source[b + i];
        let z = source[c + i];
        low[at + i] = filters::low_split(x, y, z);
        high[at + i] = filters::high_split(x, y, z);
    }
}

// Where five lines begin.
#[derive(Clone, Copy)]
pub struct Five {
    pub a: usize,
    pub b: usize,
    pub c: usize,
    pub d: usize,
    pub e: usize,
}

impl Five {
    // Five places, each so many after the one before it.
    pub fn spaced(spacing: usize) -> Five
        requires { spacing ≤ 2 }
        ensures { result ≡ spaced spacing }
    {
        Five {
            a: 0,
            b: spacing,
            c: 2 * spacing,
            d: 3 * spacing,
            e: 4 * spacing,
        }
    }
}

// Five lines of n through the low join filter: into `out`, from `at` on.
pub fn join_low(source: &[i32], starts: Five, n: usize, out: &mut [i32], at: usize)
    requires runs { Runs 67108864 source.now starts n }
    requires n_in_bounds { at + n ≤ length out.old }
    ensures { out.new ≡ overwrite out.old at n (five low_join source.now starts) }
{
    for i in 0..n {
        out[at + i] = filters::low_join(
            source[starts.a + i],
            source[starts.b + i],
            source[starts.c + i],
            source[starts.d + i],
            source[starts.e + i],
        );
    }
}

// Five lines of n through the high join filter: added to `out`, from `at` on.
fn add_high(source: &[i32], starts: Five, n: usize, out: &mut [i32], at: usize)
    requires runs { Runs 67108864 source.now starts n }
    requires run { Run 805306368 out.old at n }
    ensures { out.new ≡ overwrite out.old at n (λ k. value out.old (at + k) +ℤ five high_join source.now starts k) }
{
    for i in 0..n {
        let high = filters::high_join(
            source[starts.a + i],
            source[starts.b + i],
            source[starts.c + i],
            source[starts.d + i],
            source[starts.e + i],
        );
        out[at + i] += high;
    }
}

// Five lines of n of `low` through the low join filter, and of `high` through the high one, summed: into `out`, from `at` on.
// Two loops, as one over eleven streams would not become vectors.
pub fn join_lines(low: &[i32], high: &[i32], starts: Five, n: usize, out: &mut [i32], at: usize)
    requires runs { Runs 67108864 low.now starts n × Runs 67108864 high.now starts n }
    requires n_in_bounds { at + n ≤ length out.old }
    ensures { out.new ≡ overwrite out.old at n (joined low.now high.now starts) }
{
    join_low(low, starts, n, out, at);
    add_high(high, starts, n, out, at);
}

// The `pad` places from `from` on of a padded line of n: each takes the value of the place that it means. They lie outside the
// middle, where the values are read.
fn pad_side(line: &mut [i32], n: usize, pad: usize, from: usize)
    requires le_n { (1 ≤ n) × (n ≤ 2048) × (pad ≤ 4) × (pad + n ≤ length line.old) × (from + pad ≤ length line.old) }
    requires by_index { (i : ℕ) → i < n → (from ≤ pad + i) → from + pad ≤ pad + i }
    ensures { line.new ≡ overwrite line.old from pad (λ k. value line.old (meant n pad (from + k))) }
{
    for k in 0..pad {
        let place = pad + border::reflected_before(n, from + k, pad);
        line[from + k] = line[place];
    }
}

// Both sides of a padded line.
pub fn pad_line(line: &mut [i32], n: usize, pad: usize)
    requires { (1 ≤ n) × (n ≤ 2048) × (pad ≤ 4) × (pad + n + pad ≤ length line.old) }
    ensures { line.new ≡ padded n pad line.old }
{
    pad_side(line, n, pad, 0);
    pad_side(line, n, pad, pad + n);
}

// A line of n, from place 1 of `line` on, through both split filters. The places beside it are scratch.
pub fn split_along(line: &mut [i32], n: usize, low: &mut [i32], high: &mut [i32], at: usize)
    requires le_n { (1 ≤ n) × (n ≤ 2048) × (n + 2 ≤ length line.old) × Run 134217728 line.old 1 n }
    requires n_in_bounds { (at + n ≤ length low.old) × (at + n ≤ length high.old) }
    ensures line_after { line.new ≡ padded n 1 line.old }
    ensures low_after { low.new ≡ overwrite low.old at n (along low_split 1 n (λ k. value line.old (1 + k))) }
    ensures high_after { high.new ≡ overwrite high.old at n (along high_split 1 n (λ k. value line.old (1 + k))) }
{
    pad_line(line, n, 1);
    split_line(line, 0, 1, 2, n, low, high, at);
}

// Lines of n, from place 2 of `low` and of `high` on, through the matching join filters, summed. The places beside are scratch.
pub fn join_along(low: &mut [i32], high: &mut [i32], n: usize, out: &mut [i32], at: usize)
    requires le_n { (1 ≤ n) × (n ≤ 2048) × (n + 4 ≤ length low.old) × Run 67108864 low.old 2 n × (n + 4 ≤ length high.old) × Run 67108864 high.old 2 n }
    requires n_in_bounds { at + n ≤ length out.old }
    ensures low_after { (low.new ≡ padded n 2 low.old) × (high.new ≡ padded n 2 high.old) }
    ensures out_after { out.new ≡ overwrite out.old at n (λ k. along low_join 1 n (λ j. value low.old (2 + j)) k +ℤ along high_join 1 n (λ j. value high.old (2 + j)) k) }
{
    pad_line(low, n, 2);
    pad_line(high, n, 2);
    join_lines(low, high, Five::spaced(1), n, out, at);
}
