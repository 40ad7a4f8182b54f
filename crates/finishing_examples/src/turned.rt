// Frames that are finished, as given and after a list of turns.
use crate::frames;
use crate::frames::{Example, Lengths};
use crate::running::show;
use std::io;

fn by_each(rt: &impl Print, e: Example) -> io::Result<()> {
    for turn in 0..=7 {
        show(rt, &[turn], e)?;
    }
    Ok(())
}

// Each turn alone.
pub(crate) fn single_turns(rt: &impl Print) -> io::Result<()> {
    by_each(rt, frames::of(2, 2, 0, 1, 0))?;
    by_each(rt, frames::of(3, 2, 1, 2, 20))?;
    by_each(rt, frames::of(3, 3, 3, 64, 20))?;
    by_each(rt, frames::of(4, 3, 2, 3, 0))?;
    by_each(rt, frames::of(4, 3, 5, 2, 20))
}

// No turn; then lists of which none, two, three and seven turns are accepted.
fn by_lists(rt: &impl Print, e: Example) -> io::Result<()> {
    show(rt, &[], e)?;
    show(rt, &[8, 255], e)?;
    show(rt, &[255, 2, 8, 7], e)?;
    show(rt, &[6, 8, 3, 255, 5], e)?;
    show(rt, &[1, 4, 1, 4, 6, 3, 5], e)
}

// The other layouts of each size, with one level and with two.
pub(crate) fn lists(rt: &impl Print) -> io::Result<()> {
    by_lists(rt, frames::of(2, 2, 1, 0, 20))?;
    by_lists(rt, frames::of(2, 2, 2, 3, 4095))?;
    by_lists(rt, frames::of(2, 2, 3, 64, 0))?;
    by_lists(rt, frames::of(3, 2, 0, 1, 4095))?;
    by_lists(rt, frames::of(3, 2, 2, 0, 0))?;
    by_lists(rt, frames::of(3, 2, 3, 3, 20))?;
    by_lists(rt, frames::of(3, 3, 0, 2, 4095))?;
    by_lists(rt, frames::of(3, 3, 1, 0, 4095))?;
    by_lists(rt, frames::of(3, 3, 2, 1, 0))?;
    by_lists(rt, frames::of(4, 3, 0, 64, 4095))?;
    by_lists(rt, frames::of(4, 3, 1, 2, 0))?;
    by_lists(rt, frames::of(4, 3, 3, 1, 20))?;
    by_lists(rt, frames::of(2, 2, 6, 64, 0))?;
    by_lists(rt, frames::of(3, 3, 7, 3, 0))?;
    by_lists(rt, frames::of(4, 3, 4, 1, 4095))
}

// A second mosaic and work buffers of these lengths.
fn with_lengths(
    rt: &impl Print,
    second: usize,
    work: usize,
    wide: usize,
    frame: Example,
) -> io::Result<()> {
    let lengths = Lengths {
        second,
        work,
        wide,
        ..frame.lengths
    };
    show(rt, &[1, 4, 7], frame.with(lengths))
}

// Second mosaics that are too short or too long, where every turning call is refused; then work buffers with one number more than
// is needed, which stays. One level takes a wide work buffer of any length, and leaves it.
pub(crate) fn other_lengths(rt: &impl Print) -> io::Result<()> {
    with_lengths(rt, 3, 32, 0, frames::of(2, 2, 0, 2, 0))?;
    with_lengths(rt, 5, 32, 31, frames::of(2, 2, 1, 3, 20))?;
    with_lengths(rt, 0, 48, 1, frames::of(3, 2, 2, 1, 0))?;
    with_lengths(rt, 7, 48, 97, frames::of(3, 2, 3, 2, 20))?;
    with_lengths(rt, 11, 96, 0, frames::of(4, 3, 0, 1, 0))?;
    with_lengths(rt, 4, 33, 8, frames::of(2, 2, 2, 1, 20))?;
    with_lengths(rt, 6, 49, 47, frames::of(3, 2, 0, 0, 0))?;
    with_lengths(rt, 12, 97, 96, frames::of(4, 3, 1, 3, 4095))?;
    with_lengths(rt, 4, 32, 33, frames::of(2, 2, 4, 0, 20))?;
    with_lengths(rt, 6, 49, 48, frames::of(3, 2, 7, 2, 20))
}
