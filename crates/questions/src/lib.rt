// Inner: a frame's settings, why a call refuses, and the checks that calls share. Each check refuses for the first question answered no.
#![tactic(auto)]

ghost use Rattle.std.specs.Prelude.{◌≡◌, Some, max, ◌≤◌};
ghost use Rattle.planes.specs.Layout.{red_row, red_column, two_levels};
ghost use Rattle.questions.specs.Settings.{framed, rounds_of, ceiling_of};
ghost use Rattle.questions.specs.Questions.{ask, all_at_most, size_questions, shape_questions, settings_questions, frame_questions};
ghost use Rattle.questions.specs.Lent.{rooms_in, wide_enough, buffer_questions, lent_questions};
ghost use Rattle.questions.specs.Refusals.{refusal_number, refusal_text, number_of};

use std::error::Error;
use std::fmt;

// The largest sample, and the largest threshold.
pub const CEILING: u16 = 4095;

// What of a frame turns beside its samples. The layout is no enum: any byte may come, since question 3 is asked of it.
#[derive(Clone, Copy, Debug, Default, PartialEq, Eq)]
pub struct Shape {
    pub width: usize,
    pub height: usize,
    pub layout: u8,
}

impl Shape {
    // The parity of red's rows.
    #[tactic(auto, unfolding(planes::specs::Layout::red_row))]
    pub fn red_row(self) -> u8
        ensures { (result ≡ red_row self.layout) × (result ≤ 1) }
    {
        self.layout / 2 % 2
    }

    // The parity of red's columns.
    #[tactic(auto, unfolding(planes::specs::Layout::red_column))]
    pub fn red_column(self) -> u8
        ensures { (result ≡ red_column self.layout) × (result ≤ 1) }
    {
        self.layout % 2
    }

    // Whether a frame of this layout has two levels.
    #[tactic(auto, unfolding(planes::specs::Layout::two_levels))]
    pub fn two_levels(self) -> bool
        ensures { result ≡ two_levels self.layout }
    {
        4 <= self.layout
    }
}

// A frame's settings, which do not turn.
#[derive(Clone, Copy, Debug, Default, PartialEq, Eq)]
pub struct Settings {
    pub rounds: u8,
    pub threshold: u16,
}

impl Settings {
    // How many rounds are to be run.
    #[tactic(auto, unfolding(crate::specs::Settings::rounds_of))]
    pub fn rounds_to_run(self) -> u8
        ensures { result ≡ rounds_of self }
    {
        self.rounds
    }

    // The ceiling of the samples and of the threshold.
    #[tactic(auto, unfolding(crate::specs::Settings::ceiling_of))]
    pub fn ceiling(self) -> u16
        ensures { result ≡ ceiling_of self }
    {
        CEILING
    }
}

// Why a call refuses: the question that it answers no. Document 01 and 02 number them.
#[derive(Clone, Copy, Debug, PartialEq, Eq)]
pub enum Refusal {
    // 1 and 2: of a frame, a plane or a window's frame
    Width,
    Height,
    // 3 to 5
    Layout,
    Rounds,
    Threshold,
    // 6: what is given has exactly width · height numbers
    GivenLength,
    // 7: and what is filled
    FilledLength,
    // 8: the work buffer has 8 · width · height
    WorkLength,
    // 9 and 10: samples of a mosaic, and of planes that are given, within the ceiling
    Sample,
    PlaneSample,
    // 11: the store has 12 bytes
    StoreLength,
    // 12 and 13: the distance back is the packet's, and lies within the store
    Distance,
    DistanceOutside,
    // 14: the buffer is long enough for the packet
    PacketRoom,
    // 15: values in the bank's range
    BankValue,
    // 16: a turn is 0 to 7
    Turn,
    // 17: the program's input is short enough
    ProgramInput,
    // 18: the wide work buffer of two levels
    WideWorkLength,
    // 19: the spot's window lies inside
    Window,
}

impl Refusal {
    // Its number in document 01 or 02.
    pub fn number(self) -> u32
        ensures { result ≡ refusal_number self }
    {
        match self {
            Refusal::Width => 1,
            Refusal::Height => 2,
            Refusal::Layout => 3,
            Refusal::Rounds => 4,
            Refusal::Threshold => 5,
            Refusal::GivenLength => 6,
            Refusal::FilledLength => 7,
            Refusal::WorkLength => 8,
            Refusal::Sample => 9,
            Refusal::PlaneSample => 10,
            Refusal::StoreLength => 11,
            Refusal::Distance => 12,
            Refusal::DistanceOutside => 13,
            Refusal::PacketRoom => 14,
            Refusal::BankValue => 15,
            Refusal::Turn => 16,
            Refusal::ProgramInput => 17,
            Refusal::WideWorkLength => 18,
            Refusal::Window => 19,
        }
    }
}

// A refusal as the programs print it.
impl fmt::Display for Refusal {
    ghost output = { λ refusal. Some (refusal_text refusal) };

    fn fmt<W: fmt::Write>(&self, f: &mut fmt::Formatter<W>) -> fmt::Result {
        write!(f, "refused {}", self.number())
    }
}

impl Error for Refusal {}

// An answer's number: a refusal's, or 0.
pub fn number<T: Drop>(answer: Result<T, Refusal>) -> u32
    ensures { result ≡ number_of answer }
{
    match answer {
        Ok(_) => 0,
        Err(refusal) => refusal.number(),
    }
}

// Questions 1 and 2, from `least` on.
pub fn ask_sizes(least: usize, width: usize, height: usize) -> Result<(), Refusal>
    ensures { number_of result ≡ ask (size_questions least width height) }
{
    if width < least {
        return Err(Refusal::Width);
    }
    if 2048 < width {
        return Err(Refusal::Width);
    }
    if height < least {
        return Err(Refusal::Height);
    }
    if 2048 < height {
        return Err(Refusal::Height);
    }
    Ok(())
}

// Questions 1, 2 and 3 of a frame.
pub fn ask_shape(shape: Shape) -> Result<(), Refusal>
    ensures { number_of result ≡ ask (shape_questions shape.width shape.height shape.layout) }
{
    ask_sizes(2, shape.width, shape.height)?;
    if 7 < shape.layout {
        return Err(Refusal::Layout);
    }
    Ok(())
}

// Questions 4 and 5.
pub fn ask_settings(settings: Settings) -> Result<(), Refusal>
    ensures { number_of result ≡ ask (settings_questions settings) }
{
    if 64 < settings.rounds {
        return Err(Refusal::Rounds);
    }
    let top = settings.ceiling();
    if top < settings.threshold {
        return Err(Refusal::Threshold);
    }
    Ok(())
}

// Questions 1 to 5 of a frame that is to be finished.
pub fn ask_frame(shape: Shape, settings: Settings) -> Result<(), Refusal>
    ensures { number_of result ≡ ask (frame_questions shape.width shape.height shape.layout settings) }
{
    ask_shape(shape)?;
    ask_settings(settings)
}

// Question 9: whether no sample is above `top`. A running maximum, which vectorises; a test at each sample does not.
pub fn samples_within(top: u16, samples: &[u16]) -> bool
    ensures { result ≡ all_at_most top samples.now }
{
    let mut most = 0;
    for sample in samples {
        most = most.max(*sample);
    }
    most <= top
}

// Question 18, where a plane has `count` samples and the wide work buffer `room` numbers. One level does not ask it.
#[tactic(auto, unfolding(crate::specs::Lent::wide_enough))]
fn wide_enough(two: bool, count: usize, room: usize) -> bool
    requires { count ≤ 4194304 }
    ensures { result ≡ wide_enough two count room }
{
    !two || 8 * count <= room
}

// How many numbers the buffers hold that a call is lent beside the mosaic.
#[derive(Clone, Copy)]
pub struct Lengths {
    pub red: usize,
    pub green: usize,
    pub blue: usize,
    pub work: usize,
    pub wide: usize,
}

// Questions 6, 7, 8, 18 and 9, where a plane has `count` samples and `top` is the ceiling.
fn ask_buffers(
    top: u16,
    two: bool,
    count: usize,
    mosaic: &[u16],
    room: Lengths,
) -> Result<(), Refusal>
    requires { count ≤ 4194304 }
    ensures { number_of result ≡ ask (buffer_questions top two count mosaic.now (rooms_in room)) }
{
    if mosaic.len() != count {
        return Err(Refusal::GivenLength);
    }
    if room.red != count {
        return Err(Refusal::FilledLength);
    }
    if room.green != count {
        return Err(Refusal::FilledLength);
    }
    if room.blue != count {
        return Err(Refusal::FilledLength);
    }
    let needed = 8 * count;
    if room.work < needed {
        return Err(Refusal::WorkLength);
    }
    if !wide_enough(two, count, room.wide) {
        return Err(Refusal::WideWorkLength);
    }
    if !samples_within(top, mosaic) {
        return Err(Refusal::Sample);
    }
    Ok(())
}

// Questions 1 to 9, and 18 after 8.
pub fn ask_lent(
    shape: Shape,
    settings: Settings,
    mosaic: &[u16],
    room: Lengths,
) -> Result<(), Refusal>
    ensures { number_of result ≡ ask (lent_questions (framed shape mosaic.now) settings (rooms_in room)) }
{
    ask_frame(shape, settings)?;
    let top = settings.ceiling();
    let two = shape.two_levels();
    let count = shape.width * shape.height;
    ask_buffers(top, two, count, mosaic, room)
}
