// Answers on standard output. A write that fails ends the program with its error.
use questions::{Refusal, Shape};
use std::fmt::Display;
use std::io;
use turns::Turn;

// A number that was answered, or a refusal.
pub(crate) fn number<T: Display + Drop>(
    rt: &impl Print,
    answer: Result<T, Refusal>,
) -> io::Result<()> {
    match answer {
        Ok(n) => rt.print(n),
        Err(why) => print!(rt; "{why}"),
    }
}

pub(crate) fn composed(rt: &impl Print, answer: Result<Turn, Refusal>) -> io::Result<()> {
    number(rt, answer.map(|turn| turn.number))
}

pub(crate) fn shape(rt: &impl Print, s: Shape) -> io::Result<()> {
    print!(rt; "{} by {} layout {}", s.width, s.height, s.layout)
}

pub(crate) fn frame(rt: &impl Print, answer: Result<Shape, Refusal>) -> io::Result<()> {
    match answer {
        Ok(s) => shape(rt, s),
        Err(why) => print!(rt; "{why}"),
    }
}

// Each after a space.
pub(crate) fn samples(rt: &impl Print, values: &[u16]) -> io::Result<()> {
    for value in values {
        print!(rt; " {value}")?;
    }
    Ok(())
}
