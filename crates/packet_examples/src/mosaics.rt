// The reader into a mosaic: mosaics of three sizes, and a sample above 4095.
ghost use Rattle.std.specs.Prelude.{◌≤◌};

use crate::stores::TWO_BY_TWO;
use crate::{print, stores};
use std::io;

// A line of the answer and a line of the whole mosaic after it.
fn show(rt: &impl Print, store: &[u8], mosaic: &mut [u16]) -> io::Result<()> {
    print::read(rt, packet::read_mosaic(store, mosaic))?;
    print::line(rt, mosaic)
}

// Into a mosaic of so many samples.
fn example(rt: &impl Print, store: &[u8], room: usize) -> io::Result<()>
    requires { room ≤ 5 }
{
    let mut mosaic = [9u16; 5];
    show(rt, store, &mut mosaic[..room])
}

// Where the mosaic's size and a sample are both wrong, the size is refused.
pub(crate) fn mosaics(rt: &impl Print) -> io::Result<()> {
    let too_large = stores::with(1, 16);
    example(rt, &TWO_BY_TWO, 3)?;
    example(rt, &TWO_BY_TWO, 4)?;
    example(rt, &TWO_BY_TWO, 5)?;
    example(rt, &too_large, 3)?;
    example(rt, &too_large, 4)
}
