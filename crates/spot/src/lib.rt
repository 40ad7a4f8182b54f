// Document 02's spot: the sums of red, green and blue over a window of a finished frame, smoothed from frame to frame.
#![tactic(auto)]

ghost use Rattle.std.specs.Prelude.{◌≡◌, length};
ghost use Rattle.planes.specs.Planes.{planes};
ghost use Rattle.questions.specs.Questions.{ask};
ghost use Rattle.questions.specs.Refusals.{number_of};
ghost use Rattle.spot.specs.Spot.{start, spot_of, smooth_spot, lit_spot, next_kept, reading};
ghost use Rattle.spot.specs.Calls.{spot_questions, spot_given, PlanesRoom, PlaneSums, SpotResult};

use questions::Refusal;

// One each for red, green and blue: floats, sums or lengths.
#[derive(Clone, Copy)]
pub struct Colours<T> {
    pub red: T,
    pub green: T,
    pub blue: T,
}

// A spot: three sums as floats, as they stand or smoothed.
pub type Spot = Colours<f64>;

// A frame's sums over the window.
pub type Sums = Colours<u32>;

// What is kept between frames: the spot, and whether a lit frame has come. No Option: document 02 keeps three zeros until then, and `read_spot` keeps whatever
// floats it is given so (`SpotResult`, `spot_unchanged`).
#[derive(Clone, Copy)]
pub struct Kept {
    pub spot: Spot,
    pub lit: bool,
}

// What a call answers of its frame.
#[derive(Clone, Copy)]
pub enum Reading {
    // No lit frame so far, this one included.
    Starting,
    // This frame is unlit, after a lit one. The old spot is kept.
    Dark,
    // This frame is lit: the smoothed spot.
    Steady(Spot),
}

// The sums as floats, exactly.
impl From<Sums> for Spot {
    ghost from_gives = { λ sums spot. spot ≡ spot_of sums };

    fn from(sums: Sums) -> Spot {
        Spot {
            red: f64::from(sums.red),
            green: f64::from(sums.green),
            blue: f64::from(sums.blue),
        }
    }
}

impl Spot {
    // Smoothed towards a frame's own spot, colour by colour.
    fn smoothed(self, new: Spot) -> Self
        ensures { result ≡ smooth_spot self new }
    {
        Self {
            red: smoothing::smoothed(self.red, new.red),
            green: smoothing::smoothed(self.green, new.green),
            blue: smoothing::smoothed(self.blue, new.blue),
        }
    }
}

impl Kept {
    // Three zeros, and no lit frame. `Default` would be a second name for it.
    pub fn start() -> Self
        ensures { result ≡ start }
    {
        Self {
            spot: Spot {
                red: 0.0,
                green: 0.0,
                blue: 0.0,
            },
            lit: false,
        }
    }

    // The spot after a lit frame: the first one's own, or the smoothed one.
    fn lit_spot(self, sums: Sums) -> Spot
        ensures { result ≡ lit_spot self sums }
    {
        let old = self.spot;
        let new = Spot::from(sums);
        if self.lit {
            return old.smoothed(new);
        }
        new
    }

    // The reading of a frame with these sums, and what is kept after it.
    fn next(&mut self, sums: Sums) -> Reading
        ensures reading { result ≡ reading self.old sums }
        ensures kept { self.new ≡ next_kept self.old sums }
    {
        if 0 < sums.blue {
            let spot = self.lit_spot(sums);
            *self = Kept { spot, lit: true };
            return Reading::Steady(spot);
        }
        if self.lit {
            return Reading::Dark;
        }
        Reading::Starting
    }
}

// Questions 1, 2, 6 of each plane, 19.
fn ask_spot(
    width: usize,
    height: usize,
    lengths: Colours<usize>,
    row: usize,
    column: usize,
) -> Result<(), Refusal>
    ensures { number_of result ≡ ask (spot_questions width height (planes lengths.red lengths.green lengths.blue) row column) }
{
    questions::ask_sizes(2, width, height)?;
    let count = width * height;
    if lengths.red != count {
        return Err(Refusal::GivenLength);
    }
    if lengths.green != count {
        return Err(Refusal::GivenLength);
    }
    if lengths.blue != count {
        return Err(Refusal::GivenLength);
    }
    if !window::inside(width, height, row, column) {
        return Err(Refusal::Window);
    }
    Ok(())
}

// The window's sums of three planes.
fn plane_sums(
    width: usize,
    red: &[u16],
    green: &[u16],
    blue: &[u16],
    row: usize,
    column: usize,
) -> Sums
    requires { PlanesRoom width (planes (length red.now) (length green.now) (length blue.now)) row column }
    ensures { PlaneSums width (planes red.now green.now blue.now) row column result }
{
    Sums {
        red: window::window_sum(width, red, row, column),
        green: window::window_sum(width, green, row, column),
        blue: window::window_sum(width, blue, row, column),
    }
}

// The reading of a frame's three planes, over the window whose first row and column are told, after what was kept; that is what is kept now. Refused, it
// stays as it was.
// Lent lists go one by one (docs/DECISIONS.md, "Lent lists").
pub fn read_spot(
    width: usize,
    height: usize,
    red: &[u16],
    green: &[u16],
    blue: &[u16],
    row: usize,
    column: usize,
    kept: &mut Kept,
) -> Result<Reading, Refusal>
    ensures { SpotResult (spot_given width height (planes red.now green.now blue.now) row column kept.old) result kept.new }
{
    let lengths = Colours {
        red: red.len(),
        green: green.len(),
        blue: blue.len(),
    };
    ask_spot(width, height, lengths, row, column)?;
    Ok(kept.next(plane_sums(width, red, green, blue, row, column)))
}
