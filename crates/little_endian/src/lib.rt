// Inner: numbers and samples in bytes, low byte first.
#![tactic(auto)]

ghost use Rattle.std.specs.Prelude.{◌≡◌, ◌+◌, ◌*◌, ◌≤◌, ◌<◌, length};
ghost use Rattle.std.proofs.lemmas.List.Edits.{sets};
ghost use Rattle.integers.specs.Lists.{same_list};
ghost use Rattle.questions.specs.Questions.{all_at_most};
ghost use Rattle.little_endian.specs.Bytes.{bytes_of, number_at, sample_bytes, samples_in};

// The number in the two bytes from `at` on.
pub fn two(bytes: &[u8], at: usize) -> u16
    requires { at + 1 < length bytes.now }
    ensures { result ≡ number_at 2 bytes.now at }
{
    u16::from_le_bytes(*bytes[at..].first_chunk().unwrap())
}

// The number in the four bytes from `at` on.
pub fn four(bytes: &[u8], at: usize) -> usize
    requires { at + 3 < length bytes.now }
    ensures { result ≡ number_at 4 bytes.now at }
{
    // std has no From of 32 bits to a `usize`
    u32::from_le_bytes(*bytes[at..].first_chunk().unwrap()) as usize
}

// A number's low bytes, as many as `out` has. Byte after byte, since these may be any number, and `to_le_bytes` gives as many as its type has. The low
// byte fits, as is proved.
pub fn put(out: &mut [u8], value: usize)
    ensures { out.new ≡ bytes_of (length out.old) value }
{
    let mut rest = value;
    for byte in out {
        *byte = (rest % 256) as u8;
        rest /= 256;
    }
}

// Question 9: whether no sample is above `top`. A running maximum, which vectorises. `questions` has the like of samples: one function over an iterator would owe
// laws of both iterators, and be no plainer.
pub fn samples_within(top: u16, bytes: &[u8]) -> bool
    ensures { result ≡ all_at_most top (samples_in bytes.now) }
{
    let (pairs, _) = bytes.as_chunks::<2>();
    let mut most = 0;
    for pair in pairs {
        most = most.max(u16::from_le_bytes(*pair));
    }
    most <= top
}

// The samples that `bytes` hold, of which there are as many. No `zip`: its loop speaks of what two iterators yielded, where the index says what is
// laid down.
pub fn read_samples(bytes: &[u8], samples: &mut [u16])
    requires { length bytes.now ≡ 2 * length samples.old }
    ensures { samples.new ≡ samples_in bytes.now }
{
    let (pairs, _) = bytes.as_chunks::<2>();
    for (k, sample) in samples.iter_mut().enumerate() {
        *sample = u16::from_le_bytes(pairs[k]);
    }
}

// The samples' bytes, into the first bytes of `out`.
pub fn write_samples(samples: &[u16], out: &mut [u8])
    requires { 2 * length samples.now ≤ length out.old }
    ensures { out.new ≡ sets out.old 0 (sample_bytes samples.now) }
{
    for (k, sample) in samples.iter().enumerate() {
        out[2 * k..2 * k + 2].copy_from_slice(&sample.to_le_bytes());
    }
}

// Whether as many bytes hold the same samples. A byte that is left over is part of none.
pub fn same_samples(a: &[u8], b: &[u8]) -> bool
    requires { length a.now ≡ length b.now }
    ensures { result ≡ same_list (samples_in a.now) (samples_in b.now) }
{
    let end = a.len() / 2 * 2;
    a[..end] == b[..end]
}
