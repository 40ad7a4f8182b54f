// The worked examples, printed. What this program writes is held against the file stdout, which the reference program in
// checks/ makes from document 01 alone.
#![tactic(auto)]

mod print;
mod reflecting;
mod turning;

use std::io;

fn main(rt: HostRuntime) -> io::Result<()> {
    reflecting::lines(&rt)?;
    turning::compositions(&rt)?;
    turning::refusals(&rt)?;
    turning::frames(&rt)
}
