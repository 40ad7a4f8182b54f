// Document 01's filter bank: split, join, and bringing a sum back.
#![tactic(auto)]

ghost use Rattle.std.specs.Prelude.{IfOk, ◌≡◌, map, cond, ◌+◌, ◌*◌, ◌≤◌, ◌<◌, leb, nat_abs, length};
ghost use Rattle.integers.specs.Numbers.{rounded};
ghost use Rattle.integers.specs.Lists.{overwrite};
ghost use Rattle.planes.specs.Planes.{Sizes};
ghost use Rattle.questions.specs.Settings.{ceiling};
ghost use Rattle.questions.specs.Questions.{ask, all_at_most};
ghost use Rattle.questions.specs.Refusals.{number_of};
ghost use Rattle.questions.specs.Calls.{Outcome};
ghost use Rattle.filters.specs.Bank.{Distance, split as split_plane, join as join_bands, brought_back};
ghost use Rattle.bank.specs.Planes.{Plane, plane, bands_of};
ghost use Rattle.bank.specs.Calls.{bands, to_split, to_join, values_questions, split_questions, join_questions, split_lists, join_list, split_call, join_call};

use questions::Refusal;

// Whether a value is no farther from 0 than `most`.
fn is_within(most: i32, value: i32) -> bool
    requires { Distance most }
    ensures { result ≡ leb (nat_abs value) (nat_abs most) }
{
    (-most..=most).contains(&value)
}

// Question 15: whether no value is farther from 0 than `most`. All are looked at, even after one that is: only so is this a loop
// over vectors.
fn values_within(most: i32, values: &[i32]) -> bool
    requires { Distance most }
    ensures { result ≡ all_at_most (nat_abs most) (map nat_abs values.now) }
{
    let mut within = true;
    for value in values {
        within &= is_within(most, *value);
    }
    within
}

// The plane that split is given, and that split takes it: questions 1, 2, 6 and 15 are answered yes.
#[derive(Clone, Copy)]
struct GivenPlane<'a> {
    width: usize,
    height: usize,
    values: &'a [i32],
    ghost fits: { Sizes 1 width height × Plane to_split values.now width height },
}

impl GivenPlane<'_> {
    // Row r of the four bands: along the columns into the padded lines `low` and `high`, then along the row. The two lines are scratch.
    // What is written is lent one by one (docs/DECISIONS.md, "Lent lists").
    fn split_row(
        &self,
        r: usize,
        low: &mut [i32],
        high: &mut [i32],
        band1: &mut [i32],
        band2: &mut [i32],
        band3: &mut [i32],
        band4: &mut [i32],
    )
        requires row { r < self.now.height }
        requires width_in_bounds { (self.now.width + 2 ≤ length low.old) × (self.now.width + 2 ≤ length high.old) }
        requires band1_len { (length band1.old ≡ self.now.width * self.now.height) × (length band2.old ≡ self.now.width * self.now.height) × (length band3.old ≡ self.now.width * self.now.height) × (length band4.old ≡ self.now.width * self.now.height) }
        ensures band1_after { band1.new ≡ overwrite band1.old (r * self.now.width) self.now.width (λ c. (split_plane 1 self.now.width self.now.height (plane self.now.width self.now.values.now) r c).band1) }
        ensures band2_after { band2.new ≡ overwrite band2.old (r * self.now.width) self.now.width (λ c. (split_plane 1 self.now.width self.now.height (plane self.now.width self.now.values.now) r c).band2) }
        ensures band3_after { band3.new ≡ overwrite band3.old (r * self.now.width) self.now.width (λ c. (split_plane 1 self.now.width self.now.height (plane self.now.width self.now.values.now) r c).band3) }
        ensures band4_after { band4.new ≡ overwrite band4.old (r * self.now.width) self.now.width (λ c. (split_plane 1 self.now.width self.now.height (plane self.now.width self.now.values.now) r c).band4) }
    {
        let width = self.width;
        let above = border::reflected_before(self.height, r, 1) * width;
        let here = r * width;
        let below = border::reflected(self.height, r + 1) * width;
        lines::split_line(self.values, above, here, below, width, low, high, 1);
        lines::split_along(low, width, band1, band2, here);
        lines::split_along(high, width, band3, band4, here);
    }

    // All rows of the four bands. What is written is lent one by one (docs/DECISIONS.md, "Lent lists").
    fn split_rows(
        &self,
        low: &mut [i32],
        high: &mut [i32],
        band1: &mut [i32],
        band2: &mut [i32],
        band3: &mut [i32],
        band4: &mut [i32],
    )
        requires width_in_bounds { (self.now.width + 2 ≤ length low.old) × (self.now.width + 2 ≤ length high.old) }
        requires band1_len { (length band1.old ≡ self.now.width * self.now.height) × (length band2.old ≡ self.now.width * self.now.height) × (length band3.old ≡ self.now.width * self.now.height) × (length band4.old ≡ self.now.width * self.now.height) }
        ensures { bands band1.new band2.new band3.new band4.new ≡ split_lists self.now.width self.now.height self.now.values.now }
    {
        for r in 0..self.height {
            self.split_row(r, low, high, band1, band2, band3, band4);
        }
    }
}

// Questions 1, 2, 6, 7 and 15 of split, of bands that have room for so many numbers each, and the plane where all are answered yes.
fn ask_split(
    width: usize,
    height: usize,
    values: &[i32],
    room1: usize,
    room2: usize,
    room3: usize,
    room4: usize,
) -> Result<GivenPlane<'_>, Refusal>
    ensures number { number_of result ≡ ask (split_questions width height values.now (bands room1 room2 room3 room4)) }
    ensures of_plane { IfOk result (λ p. (p.width ≡ width) × (p.height ≡ height) × (p.values.now ≡ values.now)) }
{
    questions::ask_sizes(1, width, height)?;
    let count = width * height;
    if values.len() != count {
        return Err(Refusal::GivenLength);
    }
    for room in [room1, room2, room3, room4] {
        if room != count {
            return Err(Refusal::FilledLength);
        }
    }
    if !values_within(8190, values) {
        return Err(Refusal::BankValue);
    }
    Ok(GivenPlane {
        width,
        height,
        values,
    })
}

// Splits a plane of width · height numbers into four bands of exactly as many.
pub fn split(
    width: usize,
    height: usize,
    plane: &[i32],
    band1: &mut [i32],
    band2: &mut [i32],
    band3: &mut [i32],
    band4: &mut [i32],
) -> Result<(), Refusal>
    ensures { Outcome (split_call width height plane.now (bands band1.old band2.old band3.old band4.old)) result (bands band1.new band2.new band3.new band4.new) }
{
    let given = ask_split(
        width,
        height,
        plane,
        band1.len(),
        band2.len(),
        band3.len(),
        band4.len(),
    )?;
    let mut low = [0i32; 2050];
    let mut high = [0i32; 2050];
    given.split_rows(&mut low, &mut high, band1, band2, band3, band4);
    Ok(())
}

// The four bands that join is given, and that join takes them: questions 1, 2, 6 and 15 are answered yes.
#[derive(Clone, Copy)]
struct GivenBands<'a> {
    width: usize,
    height: usize,
    band1: &'a [i32],
    band2: &'a [i32],
    band3: &'a [i32],
    band4: &'a [i32],
    ghost fits: { Sizes 1 width height × Plane to_join band1.now width height × Plane to_join band2.now width height × Plane to_join band3.now width height × Plane to_join band4.now width height },
}

impl GivenBands<'_> {
    // Row r of the joined sums: along the columns, bands 1 and 3 into the padded line `low` and bands 2 and 4 into `high`, then along
    // the row. The two lines are scratch.
    fn join_row(&self, r: usize, low: &mut [i32], high: &mut [i32], sums: &mut [i32])
        requires row { r < self.now.height }
        requires width_in_bounds { (self.now.width + 4 ≤ length low.old) × (self.now.width + 4 ≤ length high.old) × (length sums.old ≡ self.now.width * self.now.height) }
        ensures { sums.new ≡ overwrite sums.old (r * self.now.width) self.now.width (join_bands 1 self.now.width self.now.height (bands_of self.now.width (bands self.now.band1.now self.now.band2.now self.now.band3.now self.now.band4.now)) r) }
    {
        let width = self.width;
        let a = border::reflected_before(self.height, r, 2) * width;
        let b = border::reflected_before(self.height, r, 1) * width;
        let here = r * width;
        let d = border::reflected(self.height, r + 1) * width;
        let e = border::reflected(self.height, r + 2) * width;
        let starts = lines::Five {
            a,
            b,
            c: here,
            d,
            e,
        };
        lines::join_lines(self.band1, self.band3, starts, width, low, 2);
        lines::join_lines(self.band2, self.band4, starts, width, high, 2);
        lines::join_along(low, high, width, sums, here);
    }

    // All rows of the joined sums.
    fn join_rows(&self, low: &mut [i32], high: &mut [i32], sums: &mut [i32])
        requires { (self.now.width + 4 ≤ length low.old) × (self.now.width + 4 ≤ length high.old) × (length sums.old ≡ self.now.width * self.now.height) }
        ensures { sums.new ≡ join_list self.now.width self.now.height (bands self.now.band1.now self.now.band2.now self.now.band3.now self.now.band4.now) }
    {
        for r in 0..self.height {
            self.join_row(r, low, high, sums);
        }
    }
}

// Question 15 of the four bands: no value is farther from 0 than `most`. They come one by one, as to the call that asks.
fn ask_bands(
    most: i32,
    band1: &[i32],
    band2: &[i32],
    band3: &[i32],
    band4: &[i32],
) -> Result<(), Refusal>
    requires { Distance most }
    ensures { number_of result ≡ ask (values_questions (nat_abs most) (bands band1.now band2.now band3.now band4.now)) }
{
    for values in [band1, band2, band3, band4] {
        if !values_within(most, values) {
            return Err(Refusal::BankValue);
        }
    }
    Ok(())
}

// Questions 1, 2, 6, 7 and 15 of join, of sums that have room for so many numbers, and the bands where all are answered yes.
fn ask_join<'a>(
    width: usize,
    height: usize,
    band1: &'a [i32],
    band2: &'a [i32],
    band3: &'a [i32],
    band4: &'a [i32],
    room: usize,
) -> Result<GivenBands<'a>, Refusal>
    ensures number { number_of result ≡ ask (join_questions width height (bands band1.now band2.now band3.now band4.now) room) }
    ensures of_bands { IfOk result (λ g. (g.width ≡ width) × (g.height ≡ height) × (bands g.band1.now g.band2.now g.band3.now g.band4.now ≡ bands band1.now band2.now band3.now band4.now)) }
{
    questions::ask_sizes(1, width, height)?;
    let count = width * height;
    for band in [band1, band2, band3, band4] {
        if band.len() != count {
            return Err(Refusal::GivenLength);
        }
    }
    if room != count {
        return Err(Refusal::FilledLength);
    }
    ask_bands(131040, band1, band2, band3, band4)?;
    Ok(GivenBands {
        width,
        height,
        band1,
        band2,
        band3,
        band4,
    })
}

// Joins four bands of width · height numbers each into as many sums, 1,024 times the paper's.
pub fn join(
    width: usize,
    height: usize,
    band1: &[i32],
    band2: &[i32],
    band3: &[i32],
    band4: &[i32],
    sums: &mut [i32],
) -> Result<(), Refusal>
    ensures { Outcome (join_call width height (bands band1.now band2.now band3.now band4.now) sums.old) result sums.new }
{
    let given = ask_join(width, height, band1, band2, band3, band4, sums.len())?;
    let mut low = [0i32; 2052];
    let mut high = [0i32; 2052];
    given.join_rows(&mut low, &mut high, sums);
    Ok(())
}

// (sum + 512) whole-divided by 1,024, of any sum: by 512, one more, and halved, so that nothing wraps.
pub fn rounded_quotient(sum: i32) -> i32
    ensures { result ≡ rounded 1024 sum }
{
    ((sum >> 9) + 1) >> 1
}

// A sum brought back to a sample, 0..4,095.
pub fn bring_back(sum: i32) -> u16
    ensures { result ≡ brought_back ceiling sum }
{
    let quotient = rounded_quotient(sum);
    // it fits, as is proved; `u16::try_from` would test it again
    filters::clipped(quotient, 0, i32::from(questions::CEILING)) as u16
}
