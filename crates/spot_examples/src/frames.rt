// Frames of 40 by 36. Each function prints the answer to one call, and what is kept after it.
ghost use Rattle.std.specs.Prelude.{◌≤◌};

use crate::print;
use spot::Kept;
use std::{array, io};

const WIDTH: usize = 40;

const HEIGHT: usize = 36;

const SAMPLES: usize = WIDTH * HEIGHT;

// Red, green and blue the same all over.
pub(crate) fn flat(
    rt: &impl Print,
    colours: [u16; 3],
    row: usize,
    column: usize,
    kept: &mut Kept,
) -> io::Result<()> {
    let [red, green, blue] = colours;
    let r = [red; SAMPLES];
    let g = [green; SAMPLES];
    let b = [blue; SAMPLES];
    print::answer(
        rt,
        spot::read_spot(WIDTH, HEIGHT, &r, &g, &b, row, column, kept),
        kept,
    )
}

// Red 7, green 8 and blue 9, asked at the first place: of a width that is said, and with the first samples of green alone.
pub(crate) fn misfit(
    rt: &impl Print,
    width: usize,
    greens: usize,
    kept: &mut Kept,
) -> io::Result<()>
    requires { greens ≤ SAMPLES }
{
    let r = [7; SAMPLES];
    let g = [8; SAMPLES];
    let b = [9; SAMPLES];
    print::answer(
        rt,
        spot::read_spot(width, HEIGHT, &r, &g[..greens], &b, 0, 0, kept),
        kept,
    )
}

// At row r and column c: red 100 · r + c, green 3 · r, blue c. All fit, as is proved: `u16::try_from(..).unwrap()` would be no plainer.
pub(crate) fn ramp(rt: &impl Print, row: usize, column: usize, kept: &mut Kept) -> io::Result<()> {
    let r: [u16; SAMPLES] = array::from_fn(|k| (100 * (k / WIDTH) + k % WIDTH) as u16);
    let g: [u16; SAMPLES] = array::from_fn(|k| (3 * (k / WIDTH)) as u16);
    let b: [u16; SAMPLES] = array::from_fn(|k| (k % WIDTH) as u16);
    print::answer(
        rt,
        spot::read_spot(WIDTH, HEIGHT, &r, &g, &b, row, column, kept),
        kept,
    )
}
