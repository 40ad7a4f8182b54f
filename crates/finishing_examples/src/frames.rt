// The frames that the examples start from, and how long the buffers are that they are run with.
ghost use Rattle.std.specs.Prelude.{◌*◌, ◌≤◌};

use questions::{Settings, Shape};

// The lengths of both mosaics, and of the buffers that each finishing is lent. None is longer than the arrays of an example: 12, and 97 of work.
#[derive(Clone, Copy)]
pub(crate) struct Lengths {
    pub(crate) first: usize,
    pub(crate) second: usize,
    pub(crate) red: usize,
    pub(crate) green: usize,
    pub(crate) blue: usize,
    pub(crate) work: usize,
    pub(crate) wide: usize,
}

// A frame's shape and settings, one of its samples, and the lengths it is run with.
#[derive(Clone, Copy)]
pub(crate) struct Example {
    pub(crate) shape: Shape,
    pub(crate) settings: Settings,
    pub(crate) sample: u16,
    pub(crate) lengths: Lengths,
}

// The samples, of which a frame takes the first ones. One is given.
pub(crate) fn samples(given: u16) -> [u16; 12] {
    [100, given, 0, 20, 3000, 7, 700, 1200, 64, 2500, 2048, 9]
}

impl Lengths {
    // Buffers that suffice for so many samples.
    fn of(samples: usize) -> Lengths
        requires { samples ≤ 12 }
    {
        Lengths {
            first: samples,
            second: samples,
            red: samples,
            green: samples,
            blue: samples,
            work: 8 * samples,
            wide: 8 * samples,
        }
    }
}

impl Example {
    pub(crate) fn with(self, lengths: Lengths) -> Example {
        Example { lengths, ..self }
    }
}

// A frame, of any layout, as `Shape` has it, with buffers that suffice.
pub(crate) fn of(width: usize, height: usize, layout: u8, rounds: u8, threshold: u16) -> Example
    requires { width * height ≤ 12 }
{
    Example {
        shape: Shape {
            width,
            height,
            layout,
        },
        settings: Settings { rounds, threshold },
        sample: 4095,
        lengths: Lengths::of(width * height),
    }
}
