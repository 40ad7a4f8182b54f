// Document 01's reader: of a store whose end is a packet's end, the number, the fields and the samples in one answer.
#![tactic(auto)]

ghost use Rattle.std.specs.Prelude.{◌≡◌};
ghost use Rattle.reader.specs.Reader.{PacketRead};

use packet::Fields;
use questions::{Settings, Shape};

// What the reader answers: the refusal number, 0 for a sound packet; the packet's fields; and the part of the store that holds its samples, two bytes
// each. Where the packet is refused, every field is 0 and the part is empty. No Result: `read` promises fields and part of a refused packet too
// (`PacketRead`).
#[derive(Clone, Copy)]
pub struct Packet<'a> {
    pub number: u32,
    pub fields: Fields,
    pub samples: &'a [u8],
}

// The fields of a refused packet.
const NO_FIELDS: Fields = Fields {
    shape: Shape {
        width: 0,
        height: 0,
        layout: 0,
    },
    settings: Settings {
        rounds: 0,
        threshold: 0,
    },
};

// The reader.
pub fn read(store: &[u8]) -> Packet<'_>
    ensures { PacketRead store.now result }
{
    let answer = packet::read_packet(store);
    Packet {
        number: questions::number(answer),
        fields: answer.unwrap_or(NO_FIELDS),
        samples: packet::packet_samples(store),
    }
}
