//! The spots of a page's checkboxes.
ghost use Rattle.std.specs.Prelude.{◌≡◌, ◌≤◌, length, nat_eq, true};
ghost use Rattle.std.specs.Option.{option_map_or};
ghost use Rattle.kd_page.specs.Spots.{cell_of, count_at, is_at, row_of, row_spot, step_of, step_rank, step_spot};

use kd_state::Setting;
use kd_tables::Letter;

/// The steps of a page, in the order in which an operator makes the settings.
#[derive(Clone, Copy)]
pub enum Step {
    Rings,
    Seats,
    PlugsOut,
    PlugsIn,
    Pins,
    Lugs,
    Turns,
}

impl Step {
    pub(crate) fn spot(self) -> Spot
        ensures { result ≡ step_spot self }
    {
        Spot {
            step: self,
            row: None,
            cell: None,
        }
    }

    pub(crate) fn row(self, row: u8) -> Spot
        ensures { result ≡ row_spot self row }
    {
        Spot {
            step: self,
            row: Some(row),
            cell: None,
        }
    }

    fn rank(self) -> u8
        ensures { result ≡ step_rank self }
    {
        match self {
            Step::Rings => 0,
            Step::Seats => 1,
            Step::PlugsOut => 2,
            Step::PlugsIn => 3,
            Step::Pins => 4,
            Step::Lugs => 5,
            Step::Turns => 6,
        }
    }
}

/// Where checkboxes stand on a page: in a step, in a row of the step's table, or in a cell of the row.
#[derive(Clone, Copy)]
pub struct Spot {
    pub step: Step,
    /// The row: the number of the row's cable, pin wheel, bar or slot. `None` for a whole step.
    pub row: Option<u8>,
    /// The cell: the letter of the cell's pin. `None` for a whole row.
    pub cell: Option<Letter>,
}

/// How many of `settings` have their checkboxes at `spot`.
pub(crate) fn count_at(spot: &Spot, settings: &[Setting]) -> u8
    requires { length settings.now ≤ 192 }
    ensures value { result ≡ count_at spot.now settings.now }
    ensures few { result ≤ length settings.now }
{
    match settings {
        [setting, rest @ ..] if is_at(spot, setting) => count_at(spot, rest) + 1,
        [_, rest @ ..] => count_at(spot, rest),
        [] => 0,
    }
}

/// Whether the checkbox of `setting` is at `spot`.
pub(crate) fn is_at(spot: &Spot, setting: &Setting) -> bool
    ensures { result ≡ is_at spot.now setting.now }
{
    step_of(setting).rank() == spot.step.rank()
        && is_row(spot.row, row_of(setting))
        && is_cell(spot.cell, cell_of(setting))
}

fn step_of(setting: &Setting) -> Step
    ensures { result ≡ step_of setting.now }
{
    match setting {
        Setting::RingTo { .. } => Step::Rings,
        Setting::Seat { .. } | Setting::SeatReflector { .. } => Step::Seats,
        Setting::Pull { .. } => Step::PlugsOut,
        Setting::Put { .. } => Step::PlugsIn,
        Setting::PinTo { .. } => Step::Pins,
        Setting::LugTo { .. } => Step::Lugs,
        Setting::Turn { .. } => Step::Turns,
    }
}

/// Whether `row` is `number`, or is `None`, which stands for all rows.
fn is_row(row: Option<u8>, number: u8) -> bool
    ensures { result ≡ option_map_or (nat_eq number) row true }
{
    match row {
        None => true,
        Some(row) => row == number,
    }
}

fn row_of(setting: &Setting) -> u8
    ensures { result ≡ row_of setting.now }
{
    match *setting {
        Setting::Pull { cable, .. } | Setting::Put { cable, .. } => cable,
        Setting::PinTo { wheel, .. } => wheel,
        Setting::LugTo { bar, .. } => bar,
        Setting::Turn { slot, .. } => slot,
        Setting::RingTo { .. } | Setting::Seat { .. } | Setting::SeatReflector { .. } => 0,
    }
}

fn is_cell(cell: Option<Letter>, letter: Letter) -> bool
    ensures { result ≡ option_map_or (nat_eq letter) cell true }
{
    match cell {
        None => true,
        Some(cell) => cell == letter,
    }
}

fn cell_of(setting: &Setting) -> Letter
    ensures { result ≡ cell_of setting.now }
{
    match *setting {
        Setting::PinTo { letter, .. } => letter,
        _ => Letter::A,
    }
}
