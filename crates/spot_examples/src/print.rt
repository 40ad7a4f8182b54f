// Answers on standard output. A write that fails ends the program with its error.
use questions::Refusal;
use spot::{Kept, Reading, Spot};
use std::io;

// A float's bits, so that nothing is rounded. A NaN has none of its own, and 0 stands for it.
fn bits(x: f64) -> u64 {
    if x.is_nan() { 0 } else { x.to_bits() }
}

// Each colour after a space.
fn spot(rt: &impl Print, s: Spot) -> io::Result<()> {
    let red = bits(s.red);
    let green = bits(s.green);
    let blue = bits(s.blue);
    print!(rt; " {red:016x} {green:016x} {blue:016x}")
}

fn reading(rt: &impl Print, r: Reading) -> io::Result<()> {
    match r {
        Reading::Starting => print!(rt; "starting"),
        Reading::Dark => print!(rt; "dark"),
        Reading::Steady(s) => {
            print!(rt; "steady")?;
            spot(rt, s)
        }
    }
}

fn kept(rt: &impl Print, k: &Kept) -> io::Result<()> {
    print!(rt; "; kept")?;
    spot(rt, k.spot)?;
    println!(rt; ", {}", if k.lit { "lit" } else { "not lit" })
}

// A line of an answer, and of what is kept then.
pub(crate) fn answer(
    rt: &impl Print,
    answer: Result<Reading, Refusal>,
    k: &Kept,
) -> io::Result<()> {
    match answer {
        Ok(r) => reading(rt, r)?,
        Err(why) => print!(rt; "{why}")?,
    }
    kept(rt, k)
}
