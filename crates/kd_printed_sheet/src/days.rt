//! The days of a sheet, model by model.
ghost use Rattle.std.specs.Prelude.{◌≡◌, ◌≤◌, ◌+◌, [], ◌∷◌, ◌++◌, filter, is_some, length, if◌then◌else◌};
ghost use Rattle.std.specs.List.{list_any};
ghost use Rattle.arrayvec.specs.ArrayVec.{array_vec_len};
ghost use Rattle.kd_sheet.specs.Sheet.{day_of, has_day_of};
ghost use Rattle.kd_printed_sheet.specs.Days.{days_of, first_of};

use arrayvec::ArrayVec;
use kd_sheet::Sheet;
use kd_tables::Model;

/// The day numbers of a month, in rising order.
pub static DAYS: [u8; 31] = [
    1, 2, 3, 4, 5, 6, 7, 8, 9, 10, 11, 12, 13, 14, 15, 16, 17, 18, 19, 20, 21, 22, 23, 24, 25, 26,
    27, 28, 29, 30, 31,
];

/// The day numbers of a month, in falling order.
pub static LAST_DAY_FIRST: [u8; 31] = [
    31, 30, 29, 28, 27, 26, 25, 24, 23, 22, 21, 20, 19, 18, 17, 16, 15, 14, 13, 12, 11, 10, 9, 8,
    7, 6, 5, 4, 3, 2, 1,
];

/// The numbers of the sheet's days for the model, in falling order.
pub(crate) fn days_of(model: Model, sheet: &Sheet) -> ArrayVec<u8, 31>
    ensures { result.items ≡ days_of model sheet.now }
{
    let mut days = ArrayVec::new();
    add_days(&mut days, model, sheet, &LAST_DAY_FIRST);
    days
}

/// The earliest day of a table. `last` is the table's latest day, and `earlier` has the other days in falling order.
pub(crate) fn first_of(last: u8, earlier: &[u8]) -> u8
    ensures { result ≡ first_of last earlier.now }
{
    match earlier {
        [day, rest @ ..] => first_of(*day, rest),
        [] => last,
    }
}

/// Whether the sheet has at least one of the days `numbers`.
pub(crate) fn has_any_day(sheet: &Sheet, numbers: &[u8]) -> bool
    ensures { result ≡ list_any (λ number. is_some (day_of sheet.now number)) numbers.now }
{
    match numbers {
        [number, rest @ ..] => sheet.day(*number).is_some() || has_any_day(sheet, rest),
        [] => false,
    }
}

/// Adds each of the days `numbers` that the sheet has for the model.
fn add_days(days: &mut ArrayVec<u8, 31>, model: Model, sheet: &Sheet, numbers: &[u8])
    requires { array_vec_len days.old + length numbers.now ≤ 31 }
    ensures { days.new.items ≡ days.old.items ++ filter (has_day_of model sheet.now) numbers.now }
{
    if let [number, rest @ ..] = numbers {
        add_if(days, *number, sheet.has_day_of(model, *number));
        add_days(days, model, sheet, rest);
    }
}

/// Adds the day `number` if `is_wanted`.
fn add_if(days: &mut ArrayVec<u8, 31>, number: u8, is_wanted: bool)
    requires { array_vec_len days.old + 1 ≤ 31 }
    ensures items { days.new.items ≡ days.old.items ++ (if is_wanted then number ∷ [] else []) }
    ensures len { array_vec_len days.new ≤ array_vec_len days.old + 1 }
{
    if is_wanted {
        days.push(number);
    }
}
