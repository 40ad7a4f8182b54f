// The border: the places that the indices −9 to 9 mean, in lines of 1 to 6.
use std::io;

pub(crate) fn lines(rt: &impl Print) -> io::Result<()> {
    for n in 1..=6 {
        print!(rt; "line of {n}, from -9 to 9:")?;
        for i in 0..=18 {
            print!(rt; " {}", border::reflected_before(n, i, 9))?;
        }
        println!(rt)?;
    }
    Ok(())
}
