// The spot read from frames of 40 by 36, one after another, printed. What this program writes is held against the file stdout, which the reference
// program in checks/ makes from documents 01 and 02 alone.
#![tactic(auto)]

mod frames;
mod print;

use spot::Kept;
use std::io;

// Unlit frames, lit ones with the same sums and with others, and refused calls between them.
fn flat_frames(rt: &impl Print, k: &mut Kept) -> io::Result<()> {
    frames::flat(rt, [7, 8, 0], 3, 5, k)?;
    frames::flat(rt, [7, 8, 9], 5, 0, k)?;
    frames::flat(rt, [7, 8, 9], 4, 8, k)?;
    frames::flat(rt, [7, 8, 9], 0, 0, k)?;
    frames::flat(rt, [1, 2, 0], 0, 0, k)?;
    frames::flat(rt, [7, 8, 9], 0, 9, k)?;
    frames::flat(rt, [7, 8, 9], 1, 1, k)?;
    frames::flat(rt, [u16::MAX, 0, 10], 0, 0, k)?;
    frames::flat(rt, [u16::MAX; 3], 4, 8, k)
}

// Windows whose rows and columns differ, and then calls that are refused.
fn main(rt: HostRuntime) -> io::Result<()> {
    let mut k = Kept::start();
    flat_frames(&rt, &mut k)?;
    frames::ramp(&rt, 2, 3, &mut k)?;
    frames::ramp(&rt, 3, 2, &mut k)?;
    frames::misfit(&rt, 40, 1439, &mut k)?;
    frames::misfit(&rt, 41, 1440, &mut k)?;
    frames::flat(&rt, [7, 8, 9], usize::MAX, 0, &mut k)?;
    frames::flat(&rt, [7, 8, 9], 0, usize::MAX - 31, &mut k)?;
    frames::ramp(&rt, 4, 8, &mut k)
}
