// Inner: the filters of document 01's bank, one number at a time. LLVM inlines each, so that the loops over them are uniform.
// Bounds stay in contracts: a bounded number as a type would be taken out of it in every loop.
#![tactic(auto)]

ghost use Rattle.std.specs.Prelude.{◌≡◌, ◌≤◌, pos, nat_abs, ◌-ℤ◌, ◌*ℤ◌};
ghost use Rattle.integers.specs.Numbers.{clamp};
ghost use Rattle.filters.specs.Bank.{Small, Ends, low_split, high_split, low_join, high_join, weighted, rescaled};

// The two ends of a clip, as near to 0 as those of a working plane of 16-bit samples.
#[derive(Clone, Copy)]
pub struct Range {
    pub least: i32,
    pub most: i32,
    pub ghost near: { Ends least most },
}

// 1 2 1
pub fn low_split(a: i32, b: i32, c: i32) -> i32
    requires { Small a × Small b × Small c }
    ensures { result ≡ weighted low_split (pos 0) a b c (pos 0) }
{
    a + 2 * b + c
}

// 1 −2 1
pub fn high_split(a: i32, b: i32, c: i32) -> i32
    requires { Small a × Small b × Small c }
    ensures { result ≡ weighted high_split (pos 0) a b c (pos 0) }
{
    a - 2 * b + c
}

// −1 2 6 2 −1
pub fn low_join(a: i32, b: i32, c: i32, d: i32, e: i32) -> i32
    requires { Small a × Small b × Small c × Small d × Small e }
    ensures { result ≡ weighted low_join a b c d e }
{
    2 * (b + 3 * c + d) - (a + e)
}

// 1 2 −6 2 1
pub fn high_join(a: i32, b: i32, c: i32, d: i32, e: i32) -> i32
    requires { Small a × Small b × Small c × Small d × Small e }
    ensures { result ≡ weighted high_join a b c d e }
{
    2 * (b - 3 * c + d) + (a + e)
}

// z, held within least..most. `i32::clamp` asks that least is at most most: this contract asks its callers for nothing.
pub fn clipped(z: i32, least: i32, most: i32) -> i32
    ensures { result ≡ clamp least most z }
{
    if z < least {
        return least;
    }
    if most < z {
        return most;
    }
    z
}

// 1,024 times x, less a sum, brought back to the range: (that + 512) whole-divided by 1,024, by a signed shift, and clipped. x is added after the
// shift, and `least` taken off before it, so that the clip starts at 0, which vectors of 128 bits do in half the instructions.
pub fn rescale_less(x: i32, sum: i32, range: Range) -> i32
    requires { (nat_abs x ≤ 131070) × (nat_abs sum ≤ 1610612736) }
    ensures { result ≡ rescaled 1024 range.least range.most (pos 1024 *ℤ x -ℤ sum) }
{
    let Range { least, most } = range;
    let above = x + ((512 - 1024 * least - sum) >> 10);
    clipped(above, 0, most - least) + least
}
