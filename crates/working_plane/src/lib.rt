// Inner: a colour's working plane, which stands first in the work buffer: its samples in and out, and the observed samples put in.
#![tactic(auto)]

ghost use Rattle.std.specs.Prelude.{◌≡◌, Bool, ◌+◌, ◌*◌, ◌≤◌, ◌<◌, pos, length};
ghost use Rattle.integers.specs.Numbers.{clipped};
ghost use Rattle.integers.specs.Lists.{tabulate, overwrite};
ghost use Rattle.planes.specs.Planes.{Sizes, plane_of};
ghost use Rattle.planes.specs.Lists.{value, sample, put, InRow, InPlane};
ghost use Rattle.planes.specs.Places.{place, put_at_places};
ghost use Rattle.projection.specs.Projection.{limits_of};
ghost use Rattle.work_buffer.specs.Buffer.{with_plane, zeroed, Workable};
ghost use Rattle.working_plane.specs.Rounds.{least_kept, most_kept, working_plane};
ghost use Rattle.working_plane.specs.Colours.{round_of, given, other, rewritten_list, KeptPlane};

use work_buffer::Places;

// A colour's places, by the frame's sizes and the parities of the colour's rows and columns; and the threshold. The ceiling goes beside it, a
// number that the compiler then clips with. That the parities are below 2 stays in contracts: `other`, `red_of` and `blue_of` in specs/ make a colour of any
// numbers, and with that fact in it would have to prove it.
#[derive(Clone, Copy)]
pub struct Colour {
    pub width: usize,
    pub height: usize,
    pub row: usize,
    pub column: usize,
    pub threshold: u16,
}

// The other colour of red and blue.
pub fn other(colour: Colour) -> Colour
    requires { (colour.row < 2) × (colour.column < 2) }
    ensures { result ≡ other colour }
{
    Colour {
        width: colour.width,
        height: colour.height,
        row: 1 - colour.row,
        column: 1 - colour.column,
        threshold: colour.threshold,
    }
}

// What the projection at one level is given of it, and the first level of two.
#[tactic(auto, unfolding(projection::specs::Projection::limits_of))]
pub fn given_of(colour: Colour) -> rings::Given
    ensures { result ≡ given colour.width colour.height (limits_of colour.threshold).first }
{
    rings::Given {
        at: 0,
        from: 0,
        down: colour.width,
        across: 1,
        width: colour.width,
        height: colour.height,
        limit: 16 * i32::from(colour.threshold),
    }
}

// Between rounds a working plane keeps −top..2·top: the two ends of the projection's clip.
#[tactic(auto, unfolding(crate::specs::Rounds::least_kept))]
pub fn least_kept(top: u16) -> i32
    ensures { result ≡ least_kept top }
{
    -i32::from(top)
}

#[tactic(auto, unfolding(crate::specs::Rounds::most_kept))]
pub fn most_kept(top: u16) -> i32
    ensures { result ≡ most_kept top }
{
    2 * i32::from(top)
}

// A plane's samples into the work buffer's first numbers: the working plane. By index: what `work.iter_mut().zip(plane)` has written has no name in a
// loop's invariant.
pub fn load(plane: &[u16], work: &mut [i32])
    requires { length plane.now ≤ length work.old }
    ensures { work.new ≡ overwrite work.old 0 (length plane.now) (sample plane.now) }
{
    for (k, sample) in plane.iter().enumerate() {
        work[k] = i32::from(*sample);
    }
}

// The working plane back into a plane of samples, clipped to 0..top: after the last round. By index, as in `load`.
pub fn unload(work: &[i32], top: u16, plane: &mut [u16])
    requires { length plane.old ≤ length work.now }
    ensures { plane.new ≡ tabulate (length plane.old) (λ k. clipped top (value work.now k)) }
{
    let most = i32::from(top);
    for (k, sample) in plane.iter_mut().enumerate() {
        *sample = work_buffer::narrowed(filters::clipped(work[k], 0, most));
    }
}

// Every second sample of a row, n of them from `from` on, into the same places of the working plane.
// A list comes with a place in it, and is no part cut from it (docs/DECISIONS.md, "Lent lists").
fn observe_row(mosaic: &[u16], from: usize, n: usize, work: &mut [i32])
    requires { InRow mosaic.now from n 2 × (length mosaic.now ≤ length work.old) }
    ensures { work.new ≡ put work.old n (λ k. from + 2 * k) (λ k. sample mosaic.now (from + 2 * k)) }
{
    for k in 0..n {
        let at = from + 2 * k;
        work[at] = i32::from(mosaic[at]);
    }
}

// The observed samples at these places, into the same ones of the working plane.
fn observe(mosaic: &[u16], places: Places, work: &mut [i32])
    requires { InPlane mosaic.now places.from places.columns places.rows places.down 2 × (length mosaic.now ≤ length work.old) }
    ensures { work.new ≡ put work.old (places.columns * places.rows) (place places.from places.down places.columns) (λ k. sample mosaic.now (place places.from places.down places.columns k)) }
{
    for i in 0..places.rows {
        observe_row(mosaic, places.from + i * places.down, places.columns, work);
    }
}

// The observed samples of a colour into its working plane.
pub fn put_observed(colour: Colour, mosaic: &[u16], work: &mut [i32])
    requires sizes { Sizes 2 colour.width colour.height × (colour.row < 2) × (colour.column < 2) }
    requires mosaic_len { (length mosaic.now ≡ colour.width * colour.height) × (colour.width * colour.height ≤ length work.old) }
    ensures { work.new ≡ with_plane colour.width colour.height (put_at_places colour.row colour.column (λ r c. pos (plane_of 0 colour.width mosaic.now r c)) (plane_of (pos 0) colour.width work.old)) work.old }
{
    let places = Places::of(colour.width, colour.height, colour.row, colour.column);
    observe(mosaic, places, work);
}

// How deep the bank goes, one level or two: how the rounds of one colour's working plane are run.
// The mosaic, green and the ceiling go one by one here and below: of a struct of slices each `ensures` would have to say `observed.entry.mosaic.now`.
pub trait Depth {
    ghost two: { Bool };

    // So many rounds: the projection on green, and then the observed samples.
    fn run(colour: Colour, top: u16, rounds: u8, mosaic: &[u16], green: &[u16], work: &mut [i32])
        requires { Workable colour.width colour.height mosaic.now green.now (length work.old) × (colour.row < 2) × (colour.column < 2) × KeptPlane work.old (colour.width * colour.height) }
        ensures { work.new ≡ with_plane colour.width colour.height (working_plane rounds (round_of two colour top mosaic.now green.now) (plane_of (pos 0) colour.width work.old)) work.old };
}

// A colour's plane: loaded, worked on through all rounds, and unloaded once, clipped. It is called twice, so the compiler leaves it by itself: what `run` has on
// its stack is on the stack of this function, and not on its callers'.
fn rewrite<D: Depth>(
    colour: Colour,
    top: u16,
    rounds: u8,
    mosaic: &[u16],
    green: &[u16],
    plane: &mut [u16],
    work: &mut [i32],
)
    requires { Workable colour.width colour.height mosaic.now green.now (length work.old) × (colour.row < 2) × (colour.column < 2) × (length plane.old ≡ colour.width * colour.height) }
    ensures plane_after { plane.new ≡ rewritten_list D.two colour top rounds mosaic.now green.now plane.old }
    ensures work_unchanged { zeroed colour.width colour.height work.new ≡ zeroed colour.width colour.height work.old }
{
    load(plane, work);
    D::run(colour, top, rounds, mosaic, green, work);
    unload(work, top, plane);
}

// Red, and then blue. The work buffer's first 8 · width · height numbers are scratch.
// Lent lists go one by one (docs/DECISIONS.md, "Lent lists").
pub fn rewrite_both<D: Depth>(
    reds: Colour,
    top: u16,
    rounds: u8,
    mosaic: &[u16],
    red: &mut [u16],
    green: &[u16],
    blue: &mut [u16],
    work: &mut [i32],
)
    requires workable { Workable reds.width reds.height mosaic.now green.now (length work.old) × (reds.row < 2) × (reds.column < 2) }
    requires red_len { (length red.old ≡ reds.width * reds.height) × (length blue.old ≡ reds.width * reds.height) }
    ensures red_after { red.new ≡ rewritten_list D.two reds top rounds mosaic.now green.now red.old }
    ensures blue_after { blue.new ≡ rewritten_list D.two (other reds) top rounds mosaic.now green.now blue.old }
    ensures work_unchanged { zeroed reds.width reds.height work.new ≡ zeroed reds.width reds.height work.old }
{
    let blues = other(reds);
    rewrite::<D>(reds, top, rounds, mosaic, green, red, work);
    rewrite::<D>(blues, top, rounds, mosaic, green, blue, work);
}
