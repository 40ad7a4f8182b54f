// What C sees of the engine: thin calls, declared in include/demosaic.h. A slice is a pointer and a length there. Parameters, however many, and answers as numbers
// are C's.
#![tactic(auto)]

ghost use Rattle.std.specs.Prelude.{◌≡◌, min};
ghost use Rattle.planes.specs.Planes.{frame, planes};
ghost use Rattle.questions.specs.Settings.{ceiling, settings};
ghost use Rattle.questions.specs.Questions.{ask};
ghost use Rattle.questions.specs.Lent.{lent};
ghost use Rattle.questions.specs.Calls.{Numbered};
ghost use Rattle.tally.specs.Tally.{finished_after, refused_after, rounds_after};
ghost use Rattle.filters.specs.Bank.{brought_back};
ghost use Rattle.bank.specs.Calls.{bands, split_call, join_call};
ghost use Rattle.estimate.specs.Calls.{estimate_call};
ghost use Rattle.update.specs.Calls.{update_call};
ghost use Rattle.rounds.specs.Calls.{rounds_call};
ghost use Rattle.finishing.specs.Calls.{finish_call};
ghost use Rattle.packet.specs.Calls.{read_questions, mosaic_call};
ghost use Rattle.demosaic_c.specs.Pointers.{fields, fields_call, length_call, repeat_call, single_call, shape, shape_call, turned_call, spot_numbers, reading_call};

use packet::Fields;
use questions::{Settings, Shape};
use spot::{Kept, Reading, Spot};
use turns::Turn;

// A packet's refusal number by the reader's questions, 0 for sound.
#[unsafe(no_mangle)]
pub extern "C" fn demosaic_packet_refusal(store: &[u8]) -> u32
    ensures { result ≡ ask (read_questions store.now) }
{
    packet::packet_refusal(store)
}

// What a packet says of its frame, into five numbers; 0 or the refusal's number.
#[unsafe(no_mangle)]
pub extern "C" fn demosaic_packet_fields(
    store: &[u8],
    width: &mut usize,
    height: &mut usize,
    layout: &mut u32,
    rounds: &mut u32,
    threshold: &mut u32,
) -> u32
    ensures { Numbered (fields_call store.now (fields width.old height.old layout.old (settings rounds.old threshold.old))) result (fields width.new height.new layout.new (settings rounds.new threshold.new)) }
{
    match packet::read_packet(store) {
        Ok(f) => {
            *width = f.shape.width;
            *height = f.shape.height;
            *layout = u32::from(f.shape.layout);
            *rounds = u32::from(f.settings.rounds);
            *threshold = u32::from(f.settings.threshold);
            0
        }
        Err(refusal) => refusal.number(),
    }
}

// A packet's samples; 0 or the refusal's number.
#[unsafe(no_mangle)]
pub extern "C" fn demosaic_packet_samples(store: &[u8], samples: &mut [u16]) -> u32
    ensures { Numbered (mosaic_call store.now samples.old) result samples.new }
{
    match packet::read_mosaic(store, samples) {
        Ok(_) => 0,
        Err(why) => why.number(),
    }
}

// A turn, a layout or rounds of C as the byte that the engine takes. What is above 255 becomes 255, which the same question refuses.
fn byte(n: u32) -> u8
    ensures { result ≡ min n 255 }
{
    u8::try_from(n).unwrap_or(u8::MAX)
}

// A frame's width, height and layout of C as the engine's.
fn cut_shape(width: usize, height: usize, layout: u32) -> Shape
    ensures { result ≡ record { width = width; height = height; layout = min layout 255 } }
{
    Shape {
        width,
        height,
        layout: byte(layout),
    }
}

// Rounds and threshold of C as the engine's settings. A threshold above 65,535 becomes 65,535, which the same question refuses.
fn cut_settings(rounds: u32, threshold: u32) -> Settings
    ensures { result ≡ settings (min rounds 255) (min threshold 65535) }
{
    Settings {
        rounds: byte(rounds),
        threshold: u16::try_from(threshold).unwrap_or(u16::MAX),
    }
}

// A packet into the first bytes of `out`, and how many into `written`; 0 or the refusal's number.
#[unsafe(no_mangle)]
pub extern "C" fn demosaic_packet_write(
    width: usize,
    height: usize,
    layout: u32,
    rounds: u32,
    threshold: u32,
    samples: &[u16],
    out: &mut [u8],
    written: &mut usize,
) -> u32
    ensures { Numbered (length_call (fields width height layout (settings rounds threshold)) samples.now out.old written.old) result (out.new, written.new) }
{
    let f = Fields {
        shape: cut_shape(width, height, layout),
        settings: cut_settings(rounds, threshold),
    };
    match packet::write_packet(f, samples, out) {
        Ok(count) => {
            *written = count;
            0
        }
        Err(refusal) => refusal.number(),
    }
}

// Whether packet a repeats packet b, 1 or 0 into `same`; 0 or the refusal's number.
#[unsafe(no_mangle)]
pub extern "C" fn demosaic_packet_repeats(a: &[u8], b: &[u8], same: &mut u8) -> u32
    ensures { Numbered (repeat_call a.now b.now same.old) result same.new }
{
    match packet::repeats_packet(a, b) {
        Ok(repeats) => {
            *same = u8::from(repeats);
            0
        }
        Err(refusal) => refusal.number(),
    }
}

// The turned samples into `out`, and the turned width, height and layout into three numbers; 0 or the refusal's number.
#[unsafe(no_mangle)]
pub extern "C" fn demosaic_turn(
    turn: u32,
    width: usize,
    height: usize,
    layout: u32,
    samples: &[u16],
    out: &mut [u16],
    turned_width: &mut usize,
    turned_height: &mut usize,
    turned_layout: &mut u32,
) -> u32
    ensures { Numbered (turned_call turn (frame width height layout samples.now) out.old (shape turned_width.old turned_height.old turned_layout.old)) result (out.new, shape turned_width.new turned_height.new turned_layout.new) }
{
    let t = Turn { number: byte(turn) };
    let given = cut_shape(width, height, layout);
    match turns::turn_samples(t, given, samples, out) {
        Ok(turned) => {
            *turned_width = turned.width;
            *turned_height = turned.height;
            *turned_layout = u32::from(turned.layout);
            0
        }
        Err(refusal) => refusal.number(),
    }
}

// The turned width, height and layout, into three numbers; 0 or the refusal's number.
#[unsafe(no_mangle)]
pub extern "C" fn demosaic_turned_shape(
    turn: u32,
    width: usize,
    height: usize,
    layout: u32,
    turned_width: &mut usize,
    turned_height: &mut usize,
    turned_layout: &mut u32,
) -> u32
    ensures { Numbered (shape_call turn width height layout (shape turned_width.old turned_height.old turned_layout.old)) result (shape turned_width.new turned_height.new turned_layout.new) }
{
    let t = Turn { number: byte(turn) };
    let given = cut_shape(width, height, layout);
    match t.turned_shape(given) {
        Ok(shape) => {
            *turned_width = shape.width;
            *turned_height = shape.height;
            *turned_layout = u32::from(shape.layout);
            0
        }
        Err(refusal) => refusal.number(),
    }
}

// The one turn that does what two do, into `single`; 0 or the refusal's number.
#[unsafe(no_mangle)]
pub extern "C" fn demosaic_then_another(turn: u32, next: u32, single: &mut u32) -> u32
    ensures { Numbered (single_call turn next single.old) result single.new }
{
    let t = Turn { number: byte(turn) };
    match t.then_another(Turn { number: byte(next) }) {
        Ok(s) => {
            *single = u32::from(s.number);
            0
        }
        Err(refusal) => refusal.number(),
    }
}

// Splits a plane into four bands; 0 or the refusal's number.
#[unsafe(no_mangle)]
pub extern "C" fn demosaic_split(
    width: usize,
    height: usize,
    plane: &[i32],
    band1: &mut [i32],
    band2: &mut [i32],
    band3: &mut [i32],
    band4: &mut [i32],
) -> u32
    ensures { Numbered (split_call width height plane.now (bands band1.old band2.old band3.old band4.old)) result (bands band1.new band2.new band3.new band4.new) }
{
    questions::number(bank::split(width, height, plane, band1, band2, band3, band4))
}

// Joins four bands into sums; 0 or the refusal's number.
#[unsafe(no_mangle)]
pub extern "C" fn demosaic_join(
    width: usize,
    height: usize,
    band1: &[i32],
    band2: &[i32],
    band3: &[i32],
    band4: &[i32],
    sums: &mut [i32],
) -> u32
    ensures { Numbered (join_call width height (bands band1.now band2.now band3.now band4.now) sums.old) result sums.new }
{
    questions::number(bank::join(width, height, band1, band2, band3, band4, sums))
}

// A joined sum, brought back.
#[unsafe(no_mangle)]
pub extern "C" fn demosaic_bring_back(sum: i32) -> u16
    ensures { result ≡ brought_back ceiling sum }
{
    bank::bring_back(sum)
}

// The first estimates of a mosaic, into three planes; 0 or the refusal's number.
#[unsafe(no_mangle)]
pub extern "C" fn demosaic_estimate(
    width: usize,
    height: usize,
    layout: u32,
    mosaic: &[u16],
    red: &mut [u16],
    green: &mut [u16],
    blue: &mut [u16],
) -> u32
    ensures { Numbered (estimate_call ceiling (frame width height layout mosaic.now) (planes red.old green.old blue.old)) result (planes red.new green.new blue.new) }
{
    let given = cut_shape(width, height, layout);
    questions::number(estimate::estimate(given, mosaic, red, green, blue))
}

// Updates a green estimate in place; 0 or the refusal's number.
#[unsafe(no_mangle)]
pub extern "C" fn demosaic_update(
    width: usize,
    height: usize,
    layout: u32,
    mosaic: &[u16],
    green: &mut [u16],
    work: &mut [i32],
) -> u32
    ensures { Numbered (update_call ceiling (frame width height layout mosaic.now) green.old work.old) result (green.new, work.new) }
{
    let given = cut_shape(width, height, layout);
    questions::number(update::update(given, mosaic, green, work))
}

// Runs the rounds on three given planes, red and blue in place; 0 or the refusal's number.
#[unsafe(no_mangle)]
pub extern "C" fn demosaic_rounds(
    width: usize,
    height: usize,
    layout: u32,
    rounds: u32,
    threshold: u32,
    mosaic: &[u16],
    red: &mut [u16],
    green: &[u16],
    blue: &mut [u16],
    work: &mut [i32],
    wide_work: &mut [i64],
) -> u32
    ensures { Numbered (rounds_call (frame width height layout mosaic.now) (settings rounds threshold) (lent red.old green.now blue.old work.old wide_work.old)) result (lent red.new green.now blue.new work.new wide_work.new) }
{
    let given = cut_shape(width, height, layout);
    let settings = cut_settings(rounds, threshold);
    questions::number(rounds::rounds(given, settings, mosaic, red, green, blue, work, wide_work))
}

// Finishes a frame into three planes; 0 or the refusal's number. C keeps the tally, by the three calls below.
#[unsafe(no_mangle)]
pub extern "C" fn demosaic_finish(
    width: usize,
    height: usize,
    layout: u32,
    rounds: u32,
    threshold: u32,
    mosaic: &[u16],
    red: &mut [u16],
    green: &mut [u16],
    blue: &mut [u16],
    work: &mut [i32],
    wide_work: &mut [i64],
) -> u32
    ensures { Numbered (finish_call (frame width height layout mosaic.now) (settings rounds threshold) (lent red.old green.old blue.old work.old wide_work.old)) result (lent red.new green.new blue.new work.new wide_work.new) }
{
    let given = cut_shape(width, height, layout);
    let settings = cut_settings(rounds, threshold);
    questions::number(finishing::finish_frame(
        given, settings, mosaic, red, green, blue, work, wide_work,
    ))
}

// Each count of a tally after a finishing call that answered this number.
#[unsafe(no_mangle)]
pub extern "C" fn demosaic_tally_finished(before: u32, number: u32) -> u32
    ensures { result ≡ finished_after before number }
{
    tally::finished_after(before, number)
}

#[unsafe(no_mangle)]
pub extern "C" fn demosaic_tally_refused(before: u32, number: u32) -> u32
    ensures { result ≡ refused_after before number }
{
    tally::refused_after(before, number)
}

#[unsafe(no_mangle)]
pub extern "C" fn demosaic_tally_rounds(before: u32, number: u32, rounds: u32) -> u32
    ensures { result ≡ rounds_after before number rounds }
{
    tally::rounds_after(before, number, rounds)
}

// The reading of three planes' spot, and what is kept, into five numbers; 0 or the refusal's number. The floats are written where the frame is lit,
// and else not touched, so that they stay to the bit.
#[unsafe(no_mangle)]
pub extern "C" fn demosaic_spot(
    width: usize,
    height: usize,
    red: &[u16],
    green: &[u16],
    blue: &[u16],
    row: usize,
    column: usize,
    spot_red: &mut f64,
    spot_green: &mut f64,
    spot_blue: &mut f64,
    lit: &mut u8,
    reading: &mut u8,
) -> u32
    ensures { Numbered (reading_call width height (planes red.now green.now blue.now) row column (spot_numbers spot_red.old spot_green.old spot_blue.old lit.old reading.old)) result (spot_numbers spot_red.new spot_green.new spot_blue.new lit.new reading.new) }
{
    let mut kept = Kept {
        spot: Spot {
            red: *spot_red,
            green: *spot_green,
            blue: *spot_blue,
        },
        lit: 0 < *lit,
    };
    match spot::read_spot(width, height, red, green, blue, row, column, &mut kept) {
        Ok(Reading::Starting) => {
            *lit = 0;
            *reading = 0;
            0
        }
        Ok(Reading::Dark) => {
            *lit = 1;
            *reading = 1;
            0
        }
        Ok(Reading::Steady(new)) => {
            *spot_red = new.red;
            *spot_green = new.green;
            *spot_blue = new.blue;
            *lit = 1;
            *reading = 2;
            0
        }
        Err(refusal) => refusal.number(),
    }
}
