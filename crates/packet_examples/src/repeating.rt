// The repeat call: a packet and itself with a byte replaced, and pairs of other stores, sound and refused.
ghost use Rattle.std.specs.Prelude.{◌<◌};

use crate::stores::{BEHIND_THREE, THREE_BY_TWO, TWO_BY_TWO};
use crate::{print, stores};
use std::io;

fn both_ways(rt: &impl Print, a: &[u8], b: &[u8]) -> io::Result<()> {
    print::repeats(rt, packet::repeats_packet(a, b))?;
    print!(rt; " ")?;
    print::repeats(rt, packet::repeats_packet(b, a))?;
    println!(rt)
}

// Each byte of the packet, replaced by 1. By its place: the byte itself is not looked at.
pub(crate) fn replaced_bytes(rt: &impl Print) -> io::Result<()> {
    for place in 0..TWO_BY_TWO.len() {
        both_ways(rt, &TWO_BY_TWO, &stores::with(place, 1))?;
    }
    Ok(())
}

fn pair(rt: &impl Print, a: &[u8], b: &[u8]) -> io::Result<()> {
    print::repeats(rt, packet::repeats_packet(a, b))?;
    println!(rt)
}

// Bytes before a packet do not count; a frame of another size or level is no repeat.
pub(crate) fn sound_pairs(rt: &impl Print) -> io::Result<()> {
    pair(rt, &BEHIND_THREE, &TWO_BY_TWO)?;
    pair(rt, &TWO_BY_TWO, &THREE_BY_TWO)?;
    pair(rt, &TWO_BY_TWO, &stores::with(12, 4))
}

// Where both packets are refused, the first one's number is answered.
pub(crate) fn refused_pairs(rt: &impl Print) -> io::Result<()> {
    let narrow = stores::with(8, 1);
    let no_layout = stores::with(12, 8);
    pair(rt, &narrow, &no_layout)?;
    pair(rt, &no_layout, &narrow)?;
    pair(rt, &TWO_BY_TWO[9..], &narrow)
}
