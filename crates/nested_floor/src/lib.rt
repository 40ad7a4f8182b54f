// Inner: numbers taken apart by 1,024, and a sum of two levels brought back in 32 bits. A joined sum of the second level does not fit 32 bits, so it
// is kept as its whole part by 1,024 and the rest: the filters are linear, so what they make of a number is 1,024 times what they make of the whole
// part, and what they make of the rest.
#![tactic(auto)]

ghost use Rattle.std.specs.Prelude.{◌≡◌, ◌≤◌, nat_abs};
ghost use Rattle.nested_floor.specs.NestedFloor.{whole, rest, settled_two};

// The whole part of z by 1,024: the fraction is dropped downward.
pub fn whole_part(z: i32) -> i32
    ensures { result ≡ whole z }
{
    z >> 10
}

// The rest, 0..1,023.
pub fn rest_part(z: i32) -> i32
    requires { nat_abs z ≤ 805306368 }
    ensures { result ≡ rest z }
{
    z - 1024 * whole_part(z)
}

// 2^20 times x, less 1,024 times a joined sum, less what that leaves, brought back to least..most: all in 32 bits. Only the last of the two
// quotients by 1,024 is rounded, the carried part is dropped downward. The ends are no
// `filters::Range`: nothing is asked of them here, nor by `second_level::settled_stage`, whose callers may not be asked more.
pub fn settle(least: i32, most: i32, x: i32, sum: i32, small: i32) -> i32
    requires { (nat_abs x ≤ 131070) × (nat_abs sum ≤ 1962934272) × (nat_abs small ≤ 2097152) }
    ensures { result ≡ settled_two least most x sum small }
{
    let carried = whole_part(0 - small);
    let brought = whole_part(1024 * x - sum + carried + 512);
    filters::clipped(brought, least, most)
}
