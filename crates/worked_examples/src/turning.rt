// Turns: every pair of them, every refusal, and small frames by every turn in every layout.
ghost use Rattle.std.specs.Prelude.{◌≤◌};

use crate::print;
use questions::Shape;
use std::io;
use turns::Turn;

// Each turn of 0 to 8, then each other.
pub(crate) fn compositions(rt: &impl Print) -> io::Result<()> {
    for first in 0..=8 {
        print!(rt; "turn {first} then 0 to 8:")?;
        for second in 0..=8 {
            let turn = Turn { number: first };
            print!(rt; " ")?;
            print::composed(rt, turn.then_another(Turn { number: second }))?;
        }
        println!(rt)?;
    }
    Ok(())
}

// The turn's own operations.
fn operations(rt: &impl Print, turn: Turn, shape: Shape) -> io::Result<()> {
    print::number(rt, turn.turned_width(shape))?;
    print!(rt; " by ")?;
    print::number(rt, turn.turned_height(shape))?;
    print!(rt; " layout ")?;
    print::number(rt, turn.turned_layout(shape))
}

// Of any layout, as `Shape` has it.
fn shape(width: usize, height: usize, layout: u8) -> Shape {
    Shape {
        width,
        height,
        layout,
    }
}

// A line: what is given, what the turn's operations answer, what the turning call answers, and the second buffer after it.
fn example(
    rt: &impl Print,
    number: u8,
    shape: Shape,
    samples: &[u16],
    out: &mut [u16],
) -> io::Result<()> {
    let turn = Turn { number };
    print!(rt; "turn {number} of ")?;
    print::shape(rt, shape)?;
    print!(rt; ": ")?;
    operations(rt, turn, shape)?;
    print!(rt; "; ")?;
    print::frame(rt, turns::turn_samples(turn, shape, samples, out))?;
    print!(rt; ";")?;
    print::samples(rt, out)?;
    println!(rt)
}

// Questions 16, 1, 2 and 3 answered no, at both ends of their ranges.
fn refused_shapes(rt: &impl Print) -> io::Result<()> {
    let four = [0u16, 1, 2, 3];
    let mut room = [7u16; 4];
    example(rt, 8, shape(2, 2, 0), &four, &mut room)?;
    example(rt, 0, shape(0, 2, 0), &four, &mut room)?;
    example(rt, 2, shape(2049, 2, 0), &four, &mut room)?;
    example(rt, 4, shape(2, 1, 0), &four, &mut room)?;
    example(rt, 6, shape(2, usize::from(u16::MAX), 0), &four, &mut room)?;
    example(rt, 0, shape(2, 2, 255), &four, &mut room)
}

// First among several; 3 samples where more are wanted, and room for 3.
fn refused_first(rt: &impl Print) -> io::Result<()> {
    let three = [0u16, 1, 2];
    let mut room = [7u16; 3];
    example(rt, 255, shape(0, 0, 8), &three, &mut room)?;
    example(rt, 3, shape(usize::MAX, usize::MAX, 255), &three, &mut room)?;
    example(rt, 1, shape(1, 2049, 8), &three, &mut room)?;
    example(rt, 5, shape(2, 2049, 8), &three, &mut room)?;
    example(rt, 7, shape(2, 2, 8), &three, &mut room)?;
    example(rt, 2, shape(2, 2, 2), &three, &mut room)
}

// Questions 6 and 7 answered no: one sample less, one more, and the largest frame.
fn refused_buffers(rt: &impl Print) -> io::Result<()> {
    let four = [0u16, 1, 2, 3];
    let mut room = [7u16; 4];
    let mut less = [7u16; 3];
    let mut more = [7u16; 5];
    example(rt, 1, shape(2, 2, 3), &[0u16, 1, 2], &mut room)?;
    example(rt, 5, shape(2, 2, 0), &[0u16, 1, 2, 3, 4], &mut room)?;
    example(rt, 4, shape(2048, 2048, 0), &four, &mut room)?;
    example(rt, 3, shape(2, 2, 1), &four, &mut less)?;
    example(rt, 6, shape(2, 2, 0), &four, &mut more)
}

pub(crate) fn refusals(rt: &impl Print) -> io::Result<()> {
    refused_shapes(rt)?;
    refused_first(rt)?;
    refused_buffers(rt)
}

// A frame of N samples, each of which is the number of its place. It fits, as is proved: `u16::try_from(..).unwrap()` would be no plainer.
fn by_each_turn<const N: usize>(rt: &impl Print, width: usize, height: usize) -> io::Result<()>
    requires { N ≤ 20 }
{
    let samples: [u16; N] = std::array::from_fn(|k| k as u16);
    let mut out = [7u16; N];
    for turn in 0..=7 {
        for layout in 0..=7 {
            example(rt, turn, shape(width, height, layout), &samples, &mut out)?;
        }
    }
    Ok(())
}

pub(crate) fn frames(rt: &impl Print) -> io::Result<()> {
    by_each_turn::<4>(rt, 2, 2)?;
    by_each_turn::<6>(rt, 3, 2)?;
    by_each_turn::<6>(rt, 2, 3)?;
    by_each_turn::<20>(rt, 5, 4)
}
