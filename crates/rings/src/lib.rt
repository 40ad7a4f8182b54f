// Inner: the rows of a projection that are needed again, in rings, and the stages that fill them. A sweep goes down the rows by steps; at each
// step a stage makes the row that it has reached, if there is one, from rows that are still in the cache.
#![tactic(auto)]

ghost use Rattle.std.specs.Prelude.{◌≡◌, IfSome, IfNone, ◌+◌, ◌*◌, ◌≤◌, ◌<◌, pos, ◌+ℤ◌, ◌-ℤ◌, length};
ghost use Rattle.integers.specs.Lists.{overwrite};
ghost use Rattle.planes.specs.Lists.{InRow};
ghost use Rattle.planes.specs.Planes.{Sizes};
ghost use Rattle.filters.specs.Bank.{low_split};
ghost use Rattle.lines.specs.Lines.{Run, padded};
ghost use Rattle.rings.specs.Planes.{reach};
ghost use Rattle.rings.specs.Rows.{slot, slot_of, row_at, guide_at, five_slots, difference_row, Sound, ring_line, RingRows, ring_apart, ring_together};
ghost use Rattle.rings.specs.Stages.{reached, Working, ring_row_laid, AsLong};

// How many places the lines of a sweep have, with the places beside them, and its rings of three, five, seven and nine rows. 120 more than the widest frame's
// rows: lines some multiple of 4,096 bytes apart would hinder each other in the machine's loads and stores.
pub const LINE: usize = 2048 + 120;

pub const THREE_ROWS: usize = 3 * 2048 + 120;

pub const FIVE_ROWS: usize = 5 * 2048 + 120;

pub const SEVEN_ROWS: usize = 7 * 2048 + 120;

pub const NINE_ROWS: usize = 9 * 2048 + 120;

// What a projection is given, beside the two lists. That the sizes are in range stays in contracts: `given` in `working_plane/specs` makes one of any numbers,
// and with that fact in it would have to prove it.
#[derive(Clone, Copy)]
pub struct Given {
    // the plane's first place; its rows follow each other
    pub at: usize,
    // the guide's first sample, and how far apart its rows and its columns stand
    pub from: usize,
    pub down: usize,
    pub across: usize,
    // the size of both
    pub width: usize,
    pub height: usize,
    // how far a detail may be from the guide's; at two levels, a detail of the first
    pub limit: i32,
}

// A level of the bank, as a sweep goes through it.
#[derive(Clone, Copy)]
pub struct Level {
    // how far apart the taps stand
    pub spacing: usize,
    // how far a detail may be from the guide's
    pub limit: i32,
    // how many slots the ring has that its rows come from, and each of the rings that its joined parts go to
    pub source: usize,
    pub slots: usize,
    // how many steps it lags behind the differences
    pub lag: usize,
}

// Where a ring of n slots has the row that stands `back` rows before row r.
pub fn slot_before(given: Given, n: usize, r: usize, back: usize) -> usize
    requires { (1 ≤ n) × (n ≤ 9) × Sizes 1 given.width given.height }
    ensures { (result ≡ slot_of n given (pos r -ℤ pos back)) × (result + given.width ≤ n * given.width) }
{
    border::reflected_before(given.height, r, back) % n * given.width
}

// And the row that stands `ahead` rows after it.
pub fn slot_after(given: Given, n: usize, r: usize, ahead: usize) -> usize
    requires { (1 ≤ n) × (n ≤ 9) × Sizes 1 given.width given.height × (r < given.height) × (ahead ≤ 4) }
    ensures { (result ≡ slot_of n given (pos r +ℤ pos ahead)) × (result + given.width ≤ n * given.width) }
{
    border::reflected(given.height, r + ahead) % n * given.width
}

// Where a ring of n slots has five rows around row r, d apart.
pub fn five_slots(given: Given, n: usize, d: usize, r: usize) -> lines::Five
    requires { (1 ≤ n) × (n ≤ 9) × (d ≤ 2) × Sizes 1 given.width given.height × (r < given.height) }
    ensures { result ≡ five_slots n d given r }
{
    let far_back = slot_before(given, n, r, 2 * d);
    let near_back = slot_before(given, n, r, d);
    let here = r % n * given.width;
    let near_on = slot_after(given, n, r, d);
    let far_on = slot_after(given, n, r, 2 * d);
    lines::Five {
        a: far_back,
        b: near_back,
        c: here,
        d: near_on,
        e: far_on,
    }
}

// The row that a stage that lags makes at step t, of `height` rows, if it makes one.
pub fn row_made(t: usize, lag: usize, height: usize) -> Option<usize>
    ensures some { IfSome result (λ r. (r ≡ reached lag height t) × Working lag height t) }
    ensures none { IfNone result (Working lag height t → ⊥) }
{
    let r = t.checked_sub(lag)?;
    if r < height { Some(r) } else { None }
}

// Row r of the differences, into its slot of the ring.
fn difference_row(own: &[i32], guide: &[u16], given: Given, r: usize, ring: &mut [i32])
    requires run { Run reach own.now (row_at given r) given.width × InRow guide.now (guide_at given r) given.width given.across }
    requires sizes { Sizes 1 given.width given.height × (3 * given.width ≤ length ring.old) }
    ensures { ring.new ≡ overwrite ring.old (slot 3 given.width r) given.width (difference_row given own.now guide.now r) }
{
    let n = given.width;
    let row = given.at + r * n;
    let guide_row = given.from + r * given.down;
    let slot = r % 3 * n;
    // with 1 as a number, the loop reads the guide in whole vectors
    if given.across == 1 {
        details::difference_line(own, row, guide, guide_row, 1, n, ring, slot);
    } else {
        details::difference_line(own, row, guide, guide_row, given.across, n, ring, slot);
    }
}

// The first stage: a row of the differences.
pub fn difference_stage(own: &[i32], guide: &[u16], given: Given, t: usize, ring: &mut [i32])
    requires sizes { Sizes 1 given.width given.height × (3 * given.width ≤ length ring.old) }
    requires run { Working 0 given.height t → Run reach own.now (row_at given (reached 0 given.height t)) given.width × InRow guide.now (guide_at given (reached 0 given.height t)) given.width given.across }
    ensures { ring.new ≡ ring_row_laid 3 0 given t ring.old (difference_row given own.now guide.now) }
{
    if let Some(r) = row_made(t, 0, given.height) {
        difference_row(own, guide, given, r, ring);
    }
}

// Row r of a level's joined parts, into its slots, from three rows of its source. `low` keeps the row's line that is low along the columns,
// padded; the other four lines are scratch. Lent lists go one by one (docs/DECISIONS.md, "Lent lists").
#[inline(always)]
fn parts_row(
    source: &[i32],
    given: Given,
    level: Level,
    r: usize,
    low: &mut [i32],
    high: &mut [i32],
    parts: &mut [i32],
    minus: &mut [i32],
    plus: &mut [i32],
    apart: &mut [i32],
    together: &mut [i32],
)
    requires sizes { Sizes 1 given.width given.height × (r < given.height) × Sound level × RingRows given level source.now r }
    requires width_in_bounds { (given.width + 8 ≤ length low.old) × (given.width + 8 ≤ length high.old) × (given.width + 8 ≤ length parts.old) × (given.width + 8 ≤ length minus.old) × (given.width + 8 ≤ length plus.old) }
    requires width_in_bounds_2 { (level.slots * given.width ≤ length apart.old) × (level.slots * given.width ≤ length together.old) }
    ensures low_after { low.new ≡ padded given.width level.spacing (overwrite low.old level.spacing given.width (ring_line low_split given level source.now r)) }
    ensures apart_after { apart.new ≡ overwrite apart.old (slot level.slots given.width r) given.width (ring_apart given level source.now r) }
    ensures together_after { together.new ≡ overwrite together.old (slot level.slots given.width r) given.width (ring_together given level source.now r) }
{
    let n = given.width;
    let d = level.spacing;
    let above = slot_before(given, level.source, r, d);
    let here = r % level.source * n;
    let below = slot_after(given, level.source, r, d);
    lines::split_line(source, above, here, below, n, low, high, d);
    details::outer_along(low, high, level.limit, d, n, parts, minus, plus);
    details::join_along(
        parts,
        minus,
        plus,
        d,
        n,
        apart,
        together,
        r % level.slots * n,
    );
}

// The stage of a level: a row of its joined parts. Where it made one, `low` has the row's line that is low along the columns,
// padded; the other four lines are scratch. Inlined, so that each sweep has the level's numbers as constants.
//
// Lent lists go one by one, of any length that is enough (docs/DECISIONS.md, "Lent lists").
#[inline(always)]
pub fn parts_stage(
    source: &[i32],
    given: Given,
    level: Level,
    t: usize,
    low: &mut [i32],
    high: &mut [i32],
    parts: &mut [i32],
    minus: &mut [i32],
    plus: &mut [i32],
    apart: &mut [i32],
    together: &mut [i32],
)
    requires sizes { Sizes 1 given.width given.height × Sound level }
    requires ring_rows { Working level.lag given.height t → RingRows given level source.now (reached level.lag given.height t) }
    requires width_in_bounds { (given.width + 8 ≤ length low.old) × (given.width + 8 ≤ length high.old) × (given.width + 8 ≤ length parts.old) × (given.width + 8 ≤ length minus.old) × (given.width + 8 ≤ length plus.old) }
    requires width_in_bounds_2 { (level.slots * given.width ≤ length apart.old) × (level.slots * given.width ≤ length together.old) }
    ensures low_after { Working level.lag given.height t → low.new ≡ padded given.width level.spacing (overwrite low.old level.spacing given.width (ring_line low_split given level source.now (reached level.lag given.height t))) }
    ensures apart_after { apart.new ≡ ring_row_laid level.slots level.lag given t apart.old (ring_apart given level source.now) }
    ensures together_after { together.new ≡ ring_row_laid level.slots level.lag given t together.old (ring_together given level source.now) }
    ensures as_long { AsLong high.old high.new × AsLong parts.old parts.new × AsLong minus.old minus.new × AsLong plus.old plus.new }
{
    if let Some(r) = row_made(t, level.lag, given.height) {
        parts_row(
            source, given, level, r, low, high, parts, minus, plus, apart, together,
        );
    }
}
