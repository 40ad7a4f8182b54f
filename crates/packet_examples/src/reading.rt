// The reader: sound packets, stores that are too short, and every byte replaced.
use crate::stores::{BEHIND_THREE, TWO_BY_TWO};
use crate::{print, stores};
use std::io;

// A line of the packet's fields and a line of its samples' bytes, or a line of its refusal.
fn show(rt: &impl Print, store: &[u8]) -> io::Result<()> {
    let answer = packet::read_packet(store);
    print::read(rt, answer)?;
    if answer.is_ok() {
        print::line(rt, packet::packet_samples(store))?;
    }
    Ok(())
}

// Bytes before the packet change nothing.
pub(crate) fn packets(rt: &impl Print) -> io::Result<()> {
    show(rt, &TWO_BY_TWO)?;
    show(rt, &BEHIND_THREE)
}

// The last 0 to 20 bytes of a packet of 20.
pub(crate) fn last_bytes(rt: &impl Print) -> io::Result<()> {
    for n in 0..=20 {
        println!(rt; "{n} {}", packet::packet_refusal(&TWO_BY_TWO[20 - n..]))?;
    }
    Ok(())
}

// Each byte of the packet, replaced by each of ten. By its place: the byte itself is not looked at.
pub(crate) fn replaced_bytes(rt: &impl Print) -> io::Result<()> {
    let values = [0u8, 1, 2, 3, 4, 7, 8, 16, 65, 255];
    for place in 0..TWO_BY_TWO.len() {
        let refusals = values.map(|value| packet::packet_refusal(&stores::with(place, value)));
        print::line(rt, &refusals)?;
    }
    Ok(())
}
