// Lines of numbers on standard output. A write that fails ends the program with its error.
use std::fmt::Display;
use std::io;

// All numbers, parted by spaces. The other program of examples has the same function; a crate for it alone would be more to read.
pub(crate) fn line<T: Display>(rt: &impl Print, numbers: &[T]) -> io::Result<()> {
    for (k, number) in numbers.iter().enumerate() {
        if k != 0 {
            print!(rt; " ")?;
        }
        rt.print(number)?;
    }
    println!(rt)
}
