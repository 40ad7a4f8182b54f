// Demand 3 on small frames, printed. What this program writes is held against the file stdout, which the reference program in
// checks/ makes from document 01 alone.
#![tactic(auto)]

mod frames;
mod print;
mod refused;
mod running;
mod turned;

use std::io;

fn main(rt: HostRuntime) -> io::Result<()> {
    turned::single_turns(&rt)?;
    turned::lists(&rt)?;
    turned::other_lengths(&rt)?;
    refused::settings(&rt)?;
    refused::lengths(&rt)?;
    refused::in_order(&rt)
}
