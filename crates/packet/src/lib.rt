// Document 01's packet: the reader, the writer and the repeat call.
#![tactic(auto)]

ghost use Rattle.std.specs.Prelude.{IfOk, ◌≡◌, ◌+◌, ◌*◌, ◌≤◌, ◌<◌, [], ◌∷◌, length};
ghost use Rattle.std.proofs.lemmas.List.Edits.{sets};
ghost use Rattle.questions.specs.Questions.{ask};
ghost use Rattle.questions.specs.Refusals.{number_of};
ghost use Rattle.questions.specs.Calls.{Outcome};
ghost use Rattle.packet.specs.Packet.{distance, trailer, trailer_place, fields_of, distance_in, sample_part, samples_of};
ghost use Rattle.packet.specs.Calls.{store_questions, ceiling_question, read_questions, mosaic_questions, write_questions, repeat_questions, ReadResult, part_read, mosaic_call, write_call, RepeatResult};

use questions::{Refusal, Settings, Shape};

// Document 01's fields: what a packet's trailer says of its frame.
#[derive(Clone, Copy, Debug, Default, PartialEq, Eq)]
pub struct Fields {
    pub shape: Shape,
    pub settings: Settings,
}

// ---- the reader

// The trailer of a store that is long enough for one.
#[derive(Clone, Copy)]
struct Trailer<'a> {
    store: &'a [u8],
    ghost room: { 12 ≤ length store.now },
}

impl Trailer<'_> {
    // Where it begins.
    fn place(&self) -> usize
        ensures { result ≡ trailer_place self.now.store.now }
    {
        self.store.len() - 12
    }

    fn fields(&self) -> Fields
        ensures { result ≡ fields_of self.now.store.now }
    {
        let at = self.place();
        Fields {
            shape: Shape {
                width: usize::from(little_endian::two(self.store, at)),
                height: usize::from(little_endian::two(self.store, at + 2)),
                layout: self.store[at + 4],
            },
            settings: Settings {
                rounds: self.store[at + 5],
                threshold: little_endian::two(self.store, at + 6),
            },
        }
    }

    // The distance back.
    fn distance(&self) -> usize
        ensures { result ≡ distance_in self.now.store.now }
    {
        little_endian::four(self.store, self.place() + 8)
    }
}

// The packet found at a store's end: questions 11, 1, 2, 3, 4, 5, 12 and 13 are answered yes, and no sample has been looked at.
#[derive(Clone, Copy)]
struct Found<'a> {
    trailer: Trailer<'a>,
    ghost asked: { ask (store_questions trailer.store.now) ≡ 0 },
}

impl<'a> Found<'a> {
    // The part of the store that holds the samples, by the distance back.
    fn samples(&self) -> &'a [u8]
        ensures { result.now ≡ sample_part self.now.trailer.store.now }
    {
        let store = self.trailer.store;
        let first = store.len() - self.trailer.distance();
        let end = self.trailer.place();
        &store[first..end]
    }

    // Question 9 of the samples.
    fn ask_samples(&self) -> Result<(), Refusal>
        ensures { number_of result ≡ ask (ceiling_question (fields_of self.now.trailer.store.now) (samples_of self.now.trailer.store.now) ∷ []) }
    {
        let f = self.trailer.fields();
        let top = f.settings.ceiling();
        if little_endian::samples_within(top, self.samples()) {
            Ok(())
        } else {
            Err(Refusal::Sample)
        }
    }
}

// Questions 11, 1, 2, 3, 4, 5, 12 and 13, and the packet where all are answered yes. No sample is looked at.
fn ask_store(store: &[u8]) -> Result<Found<'_>, Refusal>
    ensures number { number_of result ≡ ask (store_questions store.now) }
    ensures of_store { IfOk result (λ p. p.trailer.store.now ≡ store.now) }
{
    if store.len() < 12 {
        return Err(Refusal::StoreLength);
    }
    let trailer = Trailer { store };
    let f = trailer.fields();
    questions::ask_frame(f.shape, f.settings)?;
    let length = 2 * (f.shape.width * f.shape.height) + 12;
    let back = trailer.distance();
    if back != length {
        return Err(Refusal::Distance);
    }
    if store.len() < back {
        return Err(Refusal::DistanceOutside);
    }
    Ok(Found { trailer })
}

// The reader's questions: 11, 1, 2, 3, 4, 5, 12, 13 and 9.
fn ask_packet(store: &[u8]) -> Result<Found<'_>, Refusal>
    ensures number { number_of result ≡ ask (read_questions store.now) }
    ensures of_store { IfOk result (λ p. p.trailer.store.now ≡ store.now) }
{
    let packet = ask_store(store)?;
    packet.ask_samples()?;
    Ok(packet)
}

// The reader's refusal number, 0 for a sound packet: a number, as document 01's panel asks for it, in C.
pub fn packet_refusal(store: &[u8]) -> u32
    ensures { result ≡ ask (read_questions store.now) }
{
    questions::number(ask_packet(store))
}

// The reader: the fields of the packet whose end is the store's end.
pub fn read_packet(store: &[u8]) -> Result<Fields, Refusal>
    ensures { ReadResult store.now result }
{
    let packet = ask_packet(store)?;
    Ok(packet.trailer.fields())
}

// The reader: the part of the store that holds the samples, two bytes each; the empty part where the packet is refused.
pub fn packet_samples(store: &[u8]) -> &[u8]
    ensures { result.now ≡ part_read store.now }
{
    match ask_packet(store) {
        Ok(packet) => packet.samples(),
        Err(_) => &store[0..0],
    }
}

// Questions 11, 1, 2, 3, 4, 5, 12, 13, 7 and 9.
fn ask_mosaic(store: &[u8], room: usize) -> Result<Found<'_>, Refusal>
    ensures number { number_of result ≡ ask (mosaic_questions store.now room) }
    ensures of_store { IfOk result (λ p. p.trailer.store.now ≡ store.now) }
{
    let packet = ask_store(store)?;
    let f = packet.trailer.fields();
    let count = f.shape.width * f.shape.height;
    if room != count {
        return Err(Refusal::FilledLength);
    }
    packet.ask_samples()?;
    Ok(packet)
}

// The packet's samples into a mosaic of exactly as many, and its fields.
pub fn read_mosaic(store: &[u8], mosaic: &mut [u16]) -> Result<Fields, Refusal>
    ensures { Outcome (mosaic_call store.now mosaic.old) result mosaic.new }
{
    let packet = ask_mosaic(store, mosaic.len())?;
    little_endian::read_samples(packet.samples(), mosaic);
    Ok(packet.trailer.fields())
}

// ---- the writer

// The trailer; `back` is the distance back.
fn put_trailer(f: Fields, back: usize, out: &mut [u8])
    requires twelve { length out.old ≡ 12 }
    requires back_value { back ≡ distance f }
    ensures { out.new ≡ trailer f }
{
    little_endian::put(&mut out[0..2], f.shape.width);
    little_endian::put(&mut out[2..4], f.shape.height);
    out[4] = f.shape.layout;
    out[5] = f.settings.rounds;
    little_endian::put(&mut out[6..8], usize::from(f.settings.threshold));
    little_endian::put(&mut out[8..12], back);
}

// Questions 1, 2, 3, 4, 5, 6, 9 and 14.
fn ask_write(f: Fields, samples: &[u16], room: usize) -> Result<(), Refusal>
    ensures { number_of result ≡ ask (write_questions f samples.now room) }
{
    questions::ask_frame(f.shape, f.settings)?;
    let count = f.shape.width * f.shape.height;
    if samples.len() != count {
        return Err(Refusal::GivenLength);
    }
    let length = 2 * count + 12;
    let top = f.settings.ceiling();
    let within = questions::samples_within(top, samples);
    if !within {
        return Err(Refusal::Sample);
    }
    if room < length {
        return Err(Refusal::PacketRoom);
    }
    Ok(())
}

// The writer: the packet into the first bytes of `out`, and how many; the rest stays.
pub fn write_packet(f: Fields, samples: &[u16], out: &mut [u8]) -> Result<usize, Refusal>
    ensures { Outcome (write_call f samples.now out.old) result out.new }
{
    ask_write(f, samples, out.len())?;
    let at = 2 * samples.len();
    let written = at + 12;
    little_endian::write_samples(samples, out);
    put_trailer(f, written, &mut out[at..written]);
    Ok(written)
}

// ---- the repeat call

// The repeat call: whether packet a repeats packet b, in all fields, with the layout the level, and in all samples. All of the first store is asked
// before the second. Fields come first: where one differs, no sample is compared.
pub fn repeats_packet(a: &[u8], b: &[u8]) -> Result<bool, Refusal>
    ensures { RepeatResult a.now b.now result }
{
    let first = ask_packet(a)?;
    let second = ask_packet(b)?;
    let f = first.trailer.fields();
    let g = second.trailer.fields();
    if f != g {
        return Ok(false);
    }
    Ok(little_endian::same_samples(first.samples(), second.samples()))
}
