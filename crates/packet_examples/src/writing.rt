// The writer: buffers of three lengths, and every refusal.
ghost use Rattle.std.specs.Prelude.{◌≤◌};

use crate::print;
use packet::Fields;
use questions::{Settings, Shape};
use std::io;

// A line of the answer and a line of the whole buffer after it.
fn show(rt: &impl Print, f: Fields, samples: &[u16], out: &mut [u8]) -> io::Result<()> {
    print::written(rt, packet::write_packet(f, samples, out))?;
    print::line(rt, out)
}

// Six samples, of which the last is given, into a buffer of so many bytes.
fn example(rt: &impl Print, f: Fields, last: u16, room: usize) -> io::Result<()>
    requires { room ≤ 26 }
{
    let samples = [0, 1, 255, 256, 4094, last];
    let mut out = [255u8; 26];
    show(rt, f, &samples, &mut out[..room])
}

// Of any layout, as `Shape` has it.
fn fields(width: usize, height: usize, layout: u8, rounds: u8, threshold: u16) -> Fields {
    Fields {
        shape: Shape {
            width,
            height,
            layout,
        },
        settings: Settings { rounds, threshold },
    }
}

// Room for one byte less than the packet, for the packet, and for two bytes more, which stay; and for a packet with two levels.
pub(crate) fn lengths(rt: &impl Print) -> io::Result<()> {
    let sound = fields(3, 2, 1, 64, 4095);
    example(rt, sound, 4095, 23)?;
    example(rt, sound, 4095, 24)?;
    example(rt, sound, 4095, 26)?;
    example(rt, fields(3, 2, 7, 64, 4095), 4095, 24)
}

// Questions 1 to 6 and 9 answered no, and last 9 and 14 both.
pub(crate) fn refusals(rt: &impl Print) -> io::Result<()> {
    example(rt, fields(1, 2, 1, 64, 4095), 4095, 26)?;
    example(rt, fields(2049, 2, 1, 64, 4095), 4095, 26)?;
    example(rt, fields(3, 1, 1, 64, 4095), 4095, 26)?;
    example(rt, fields(3, 2049, 1, 64, 4095), 4095, 26)?;
    example(rt, fields(3, 2, 8, 64, 4095), 4095, 26)?;
    example(rt, fields(3, 2, 1, 65, 4095), 4095, 26)?;
    example(rt, fields(3, 2, 1, 64, 4096), 4095, 26)?;
    example(rt, fields(2, 2, 1, 64, 4095), 4095, 26)?;
    example(rt, fields(3, 2, 1, 64, 4095), 4096, 26)?;
    example(rt, fields(3, 2, 1, 64, 4095), 4096, 23)
}
