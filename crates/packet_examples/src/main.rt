// The packet's calls on small stores, printed. What this program writes is held against the file stdout, which the reference
// program in checks/ makes from document 01 alone.
#![tactic(auto)]

mod mosaics;
mod print;
mod reading;
mod repeating;
mod stores;
mod writing;

use std::io;

fn main(rt: HostRuntime) -> io::Result<()> {
    reading::packets(&rt)?;
    reading::last_bytes(&rt)?;
    reading::replaced_bytes(&rt)?;
    writing::lengths(&rt)?;
    writing::refusals(&rt)?;
    mosaics::mosaics(&rt)?;
    repeating::replaced_bytes(&rt)?;
    repeating::sound_pairs(&rt)?;
    repeating::refused_pairs(&rt)
}
