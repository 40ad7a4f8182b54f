// An example, run and printed.
use crate::frames::{Example, Lengths};
use crate::{frames, print};
use std::io;

// What a finishing is lent. A buffer that is left as it was shows what it was filled with.
#[derive(Drop)]
struct Lent {
    red: [u16; 12],
    green: [u16; 12],
    blue: [u16; 12],
    work: [i32; 97],
    wide: [i64; 97],
}

fn count<T: Copy + PartialEq>(value: T, numbers: &[T]) -> usize {
    numbers.iter().filter(|x| **x == value).count()
}

impl Lent {
    fn filled(sample: u16) -> Lent {
        Lent {
            red: [sample; 12],
            green: [sample; 12],
            blue: [sample; 12],
            work: [5; 97],
            wide: [5; 97],
        }
    }

    // A line of each plane, and a line of how many zeros and how many fives the work buffer holds, and the wide one.
    fn print(&self, rt: &impl Print, n: Lengths) -> io::Result<()> {
        let work = &self.work[..n.work.min(97)];
        let wide = &self.wide[..n.wide.min(97)];
        print::line(rt, &self.red[..n.red.min(12)])?;
        print::line(rt, &self.green[..n.green.min(12)])?;
        print::line(rt, &self.blue[..n.blue.min(12)])?;
        println!(rt;
            "{} {} {} {}",
            count(0, work),
            count(5, work),
            count(0, wide),
            count(5, wide)
        )
    }
}

// The example with these turns: a line of the turns, a line of both numbers, a line of each mosaic, and what each finishing left. `min` changes
// no length of an example: it shows that each lies within its array. A ghost field of `Lengths` would show it too, but a struct that has one takes no
// `..base`, by which the examples differ from one another.
pub(crate) fn show(rt: &impl Print, turns: &[u8], e: Example) -> io::Result<()> {
    let n = e.lengths;
    let mut samples = frames::samples(e.sample);
    let mut second_samples = [3u16; 12];
    let mut given = Lent::filled(7);
    let mut turned = Lent::filled(9);
    let first = &mut samples[..n.first.min(12)];
    let second = &mut second_samples[..n.second.min(12)];
    let answers = demand_3::finish_turned(
        turns,
        e.shape,
        e.settings,
        first,
        second,
        &mut given.red[..n.red.min(12)],
        &mut given.green[..n.green.min(12)],
        &mut given.blue[..n.blue.min(12)],
        &mut given.work[..n.work.min(97)],
        &mut given.wide[..n.wide.min(97)],
        &mut turned.red[..n.red.min(12)],
        &mut turned.green[..n.green.min(12)],
        &mut turned.blue[..n.blue.min(12)],
        &mut turned.work[..n.work.min(97)],
        &mut turned.wide[..n.wide.min(97)],
    );
    let given_number = questions::number(answers.given);
    let turned_number = questions::number(answers.turned);
    print::line(rt, turns)?;
    println!(rt; "{given_number} {turned_number}")?;
    print::line(rt, first)?;
    print::line(rt, second)?;
    given.print(rt, n)?;
    turned.print(rt, n)
}
