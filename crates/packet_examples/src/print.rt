// Answers on standard output. A write that fails ends the program with its error.
use packet::Fields;
use questions::Refusal;
use std::fmt::Display;
use std::io;

fn fields(rt: &impl Print, f: Fields) -> io::Result<()> {
    let Fields { shape, settings } = f;
    print!(rt;
        "{} {} {} {} {}",
        shape.width, shape.height, shape.layout, settings.rounds, settings.threshold
    )
}

// A line of what a trailer says, or of a refusal.
pub(crate) fn read(rt: &impl Print, answer: Result<Fields, Refusal>) -> io::Result<()> {
    match answer {
        Ok(f) => fields(rt, f)?,
        Err(why) => print!(rt; "{why}")?,
    }
    println!(rt)
}

// A line of how many bytes were written, or of a refusal.
pub(crate) fn written(rt: &impl Print, answer: Result<usize, Refusal>) -> io::Result<()> {
    match answer {
        Ok(n) => print!(rt; "wrote {n}")?,
        Err(why) => print!(rt; "{why}")?,
    }
    println!(rt)
}

pub(crate) fn repeats(rt: &impl Print, answer: Result<bool, Refusal>) -> io::Result<()> {
    match answer {
        Ok(true) => print!(rt; "yes"),
        Ok(false) => print!(rt; "no"),
        Err(why) => print!(rt; "{why}"),
    }
}

// A line of all numbers, parted by spaces. The other program of examples has the same function; a crate for it alone would be more to read.
pub(crate) fn line<T: Display>(rt: &impl Print, numbers: &[T]) -> io::Result<()> {
    for (k, number) in numbers.iter().enumerate() {
        if k != 0 {
            print!(rt; " ")?;
        }
        rt.print(number)?;
    }
    println!(rt)
}
