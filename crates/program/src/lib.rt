// Inner: document 01's program on bytes, for `main` alone: the number of its refusal, and its text, which a refusal has too.
#![tactic(auto)]

ghost use Rattle.std.specs.Prelude.{◌≡◌, ◌*◌};
ghost use Rattle.questions.specs.Questions.{ask};
ghost use Rattle.questions.specs.Lent.{lent};
ghost use Rattle.packet.specs.Packet.{fields_of, samples_of};
ghost use Rattle.printing.specs.Text.{Written};
ghost use Rattle.program.specs.Program.{program_questions, finished_text, program_text, InputResult, Buffers};

use packet::Fields;
use questions::Refusal;

// The reader's answer. 17 refuses more than 4,096 bytes, before the reader, and more than 1,024 samples, after it.
fn read_input(input: &[u8]) -> Result<Fields, Refusal>
    ensures { InputResult input.now result }
{
    if 4096 < input.len() {
        return Err(Refusal::ProgramInput);
    }
    let f = packet::read_packet(input)?;
    if 1024 < f.shape.width * f.shape.height {
        return Err(Refusal::ProgramInput);
    }
    Ok(f)
}

// The number of the program's refusal, 0 for an accepted input: question 17 of the bytes, the reader's, 17 of the samples. A number and no Result, since
// what is promised of the program speaks of it (`program_questions`).
pub fn program_refusal(input: &[u8]) -> u32
    ensures { result ≡ ask (program_questions input.now) }
{
    questions::number(read_input(input))
}

// The text of an accepted input, at the front of `out`; how many bytes. The reader and the finishing call then accept too.
// Lent lists go one by one (docs/DECISIONS.md, "Lent lists").
fn put_planes(
    input: &[u8],
    f: Fields,
    mosaic: &mut [u16],
    red: &mut [u16],
    green: &mut [u16],
    blue: &mut [u16],
    work: &mut [i32],
    wide_work: &mut [i64],
    out: &mut [u8],
) -> usize
    requires input_value { ask (program_questions input.now) ≡ 0 }
    requires f_value { f ≡ fields_of input.now }
    requires buffers { Buffers (f.shape.width * f.shape.height) mosaic.old (lent red.old green.old blue.old work.old wide_work.old) out.old }
    ensures { Written (finished_text f (samples_of input.now)) out.old result out.new }
{
    packet::read_mosaic(input, mosaic).unwrap();
    finishing::finish_frame(
        f.shape, f.settings, mosaic, red, green, blue, work, wide_work,
    )
    .unwrap();
    printing::put_frame(out, f.shape.width, f.shape.height, red, green, blue)
}

// The same, by way of buffers of its own, of which it lends just as much as the frame has samples.
fn put_finished(input: &[u8], f: Fields, out: &mut [u8; 19456]) -> usize
    requires input_value { ask (program_questions input.now) ≡ 0 }
    requires f_value { f ≡ fields_of input.now }
    ensures { Written (finished_text f (samples_of input.now)) out.old result out.new }
{
    let count = f.shape.width * f.shape.height;
    let mut mosaic = [0u16; 1024];
    let mut red = [0u16; 1024];
    let mut green = [0u16; 1024];
    let mut blue = [0u16; 1024];
    let mut work = [0i32; 8192];
    let mut wide_work = [0i64; 8192];
    put_planes(
        input,
        f,
        &mut mosaic[0..count],
        &mut red[0..count],
        &mut green[0..count],
        &mut blue[0..count],
        &mut work,
        &mut wide_work,
        out,
    )
}

// The program's text, at the front of `out`; how many bytes. The rest of `out` stays. Its 19·1,024 bytes are enough: the text of
// 1,024 places takes at most 12 + 6·3·1,024.
pub fn program_text(input: &[u8], out: &mut [u8; 19456]) -> usize
    ensures { Written (program_text input.now) out.old result out.new }
{
    match read_input(input) {
        Ok(f) => put_finished(input, f, out),
        Err(refusal) => printing::put_refusal(out, refusal.number()),
    }
}
