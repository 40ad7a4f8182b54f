// Inner: the text that the program prints, into a lent buffer.
#![tactic(auto)]

ghost use Rattle.std.specs.Prelude.{◌≡◌, [], ◌∷◌, ◌+◌, ◌*◌, ◌≤◌, ◌<◌, length};
ghost use Rattle.std.proofs.lemmas.List.Edits.{sets};
ghost use Rattle.planes.specs.Planes.{planes};
ghost use Rattle.printing.specs.Text.{digits, digit_count, decimal, separator, rows, frame_text, refusal, Put, Written};

// ---- numbers

// How many digits a number below 100,000 has. By cases, as its definition has them: `checked_ilog10` would leave 0 a case
// of its own.
#[tactic(auto, unfolding(crate::specs::Text::digit_count))]
fn digit_count(n: usize) -> usize
    ensures count { result ≡ digit_count n }
    ensures few { result ≤ 5 }
{
    match n {
        0..=9 => 1,
        10..=99 => 2,
        100..=999 => 3,
        1000..=9999 => 4,
        _ => 5,
    }
}

// The last digits of n, as many as `out` has. The last one comes first; a digit fits a byte, as is proved.
fn put_digits(out: &mut [u8], n: usize)
    ensures { out.new ≡ digits (length out.old) n }
{
    let mut rest = n;
    for k in (0..out.len()).rev() {
        out[k] = b'0' + (rest % 10) as u8;
        rest /= 10;
    }
}

// What follows the n-th number of a plane.
fn separator(width: usize, n: usize) -> u8
    requires { 1 ≤ width }
    ensures { result ≡ separator width n }
{
    if n % width == 0 { b'\n' } else { b' ' }
}

// ---- parts of a text

// Puts text into a lent buffer, each part behind the one before. `end` is where the next part goes.
#[derive(Drop)]
struct Printer<'a> {
    out: &'a mut [u8],
    end: usize,
}

impl Printer<'_> {
    fn byte(&mut self, byte: u8)
        requires { self.old.end < length self.old.out.now }
        ensures put { Put self.old.end (byte ∷ []) self.old.out.now self.new.end self.new.out.now }
        ensures same_buffer { (self.new.out.ghost_name ≡ self.old.out.ghost_name) × (length self.new.out.now ≡ length self.old.out.now) }
    {
        self.out[self.end] = byte;
        self.end += 1;
    }

    fn bytes(&mut self, bytes: &[u8])
        requires { self.old.end + length bytes.now ≤ length self.old.out.now }
        ensures put { Put self.old.end bytes.now self.old.out.now self.new.end self.new.out.now }
        ensures same_buffer { (self.new.out.ghost_name ≡ self.old.out.ghost_name) × (length self.new.out.now ≡ length self.old.out.now) }
    {
        let at = self.end;
        self.end += bytes.len();
        self.out[at..self.end].copy_from_slice(bytes);
    }

    // A number below 100,000. By hand: `write!` promises its bytes only where it answers Ok, and writes all digits of a larger number, where
    // `decimal` has the last five.
    fn decimal(&mut self, n: usize)
        requires { self.old.end + 5 ≤ length self.old.out.now }
        ensures put { Put self.old.end (decimal n) self.old.out.now self.new.end self.new.out.now }
        ensures short { self.new.end ≤ self.old.end + 5 }
        ensures same_buffer { (self.new.out.ghost_name ≡ self.old.out.ghost_name) × (length self.new.out.now ≡ length self.old.out.now) }
    {
        let at = self.end;
        self.end += digit_count(n);
        put_digits(&mut self.out[at..self.end], n);
    }

    // The rows of a plane. A sample takes five digits and what follows it, at most.
    fn rows(&mut self, width: usize, samples: &[u16])
        requires { (1 ≤ width) × (self.old.end + 6 * length samples.now ≤ length self.old.out.now) }
        ensures put { Put self.old.end (rows width samples.now) self.old.out.now self.new.end self.new.out.now }
        ensures short { self.new.end ≤ self.old.end + 6 * length samples.now }
        ensures same_buffer { (self.new.out.ghost_name ≡ self.old.out.ghost_name) × (length self.new.out.now ≡ length self.old.out.now) }
    {
        for (k, sample) in samples.iter().enumerate() {
            self.decimal(usize::from(*sample));
            self.byte(separator(width, k + 1));
        }
    }
}

// ---- what is printed

// Width and height, then the rows of red, green and blue, at the front of `out`; how many bytes. The rest of `out` stays.
pub fn put_frame(
    out: &mut [u8],
    width: usize,
    height: usize,
    red: &[u16],
    green: &[u16],
    blue: &[u16],
) -> usize
    requires le_width { 1 ≤ width }
    requires blue_in_bounds { 12 + 6 * (length red.now + length green.now + length blue.now) ≤ length out.old }
    ensures { Written (frame_text width height (planes red.now green.now blue.now)) out.old result out.new }
{
    let mut text = Printer { out, end: 0 };
    text.decimal(width);
    text.byte(b' ');
    text.decimal(height);
    text.byte(b'\n');
    text.rows(width, red);
    text.rows(width, green);
    text.rows(width, blue);
    text.end
}

// A refusal's line, at the front of `out`; how many bytes. The rest of `out` stays. A number and no `Refusal`: the line of any number is promised, and a
// refusal has 1 to 19 alone.
pub fn put_refusal(out: &mut [u8], number: u32) -> usize
    requires { 14 ≤ length out.old }
    ensures { Written (refusal number) out.old result out.new }
{
    let mut line = Printer { out, end: 0 };
    line.bytes(b"refused ");
    // std has no From of 32 bits to a `usize`
    line.decimal(number as usize);
    line.byte(b'\n');
    line.end
}
