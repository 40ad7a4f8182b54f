// Frames that are refused, by each question alone and by several at once.
use crate::frames::{Example, Lengths};
use crate::{frames, running};
use questions::{Settings, Shape};
use std::io;

fn show(rt: &impl Print, e: Example) -> io::Result<()> {
    running::show(rt, &[1, 8, 4, 3], e)
}

// Twelve samples, said to be a frame of this width and height.
fn twelve_samples(rt: &impl Print, width: usize, height: usize) -> io::Result<()> {
    let e = frames::of(4, 3, 0, 2, 20);
    let shape = Shape {
        width,
        height,
        layout: 0,
    };
    show(rt, Example { shape, ..e })
}

// Questions 1 to 5. Buffers for a width or a height of 2049 would be too long: there more questions are answered no.
pub(crate) fn settings(rt: &impl Print) -> io::Result<()> {
    show(rt, frames::of(1, 2, 0, 2, 20))?;
    twelve_samples(rt, 2049, 2)?;
    show(rt, frames::of(2, 1, 0, 2, 20))?;
    twelve_samples(rt, 2, 2049)?;
    show(rt, frames::of(2, 2, 8, 2, 20))?;
    show(rt, frames::of(2, 2, 0, 65, 20))?;
    show(rt, frames::of(2, 2, 0, 2, 4096))
}

// Questions 6, 7 of each plane, 8 and 18: one number less than is needed, and one more where that is too many.
pub(crate) fn lengths(rt: &impl Print) -> io::Result<()> {
    let e = frames::of(3, 2, 1, 2, 20);
    let n = e.lengths;
    show(rt, e.with(Lengths { first: 5, ..n }))?;
    show(rt, e.with(Lengths { first: 7, ..n }))?;
    show(rt, e.with(Lengths { red: 5, ..n }))?;
    show(rt, e.with(Lengths { red: 7, ..n }))?;
    show(rt, e.with(Lengths { green: 5, ..n }))?;
    show(rt, e.with(Lengths { green: 7, ..n }))?;
    show(rt, e.with(Lengths { blue: 5, ..n }))?;
    show(rt, e.with(Lengths { blue: 7, ..n }))?;
    show(rt, e.with(Lengths { work: 47, ..n }))?;
    let two_levels = frames::of(3, 2, 5, 2, 20);
    show(rt, two_levels.with(Lengths { wide: 47, ..n }))
}

// All that an example may have wrong: questions 1 to 9 and 18 are answered no.
fn all_wrong() -> Example {
    Example {
        shape: Shape {
            width: 1,
            height: 1,
            layout: 8,
        },
        settings: Settings {
            rounds: 65,
            threshold: 4096,
        },
        sample: 4096,
        lengths: Lengths {
            first: 5,
            second: 6,
            red: 5,
            green: 5,
            blue: 5,
            work: 7,
            wide: 7,
        },
    }
}

// From there one question after another answered yes, until 9 alone is answered no, and at last none.
pub(crate) fn in_order(rt: &impl Print) -> io::Result<()> {
    let mut e = all_wrong();
    show(rt, e)?;
    e.shape.width = 3;
    show(rt, e)?;
    e.shape.height = 2;
    show(rt, e)?;
    e.shape.layout = 7;
    show(rt, e)?;
    e.settings.rounds = 64;
    show(rt, e)?;
    e.settings.threshold = 4095;
    show(rt, e)?;
    e.lengths.first = 6;
    show(rt, e)?;
    e.lengths.red = 6;
    show(rt, e)?;
    e.lengths.green = 6;
    show(rt, e)?;
    e.lengths.blue = 6;
    show(rt, e)?;
    e.lengths.work = 48;
    show(rt, e)?;
    e.lengths.wide = 48;
    show(rt, e)?;
    e.sample = 4095;
    show(rt, e)
}
