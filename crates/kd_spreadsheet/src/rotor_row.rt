//! Reads a row as a day of a rotor machine.
ghost use Rattle.std.specs.Prelude.{◌≡◌, ◌≤◌, ◌+◌, ◌++◌, MatchOption, Some, option_map, length};
ghost use Rattle.csv.specs.Records.{fields_of};
ghost use Rattle.kd_state.specs.SheetDay.{Rotor};
ghost use Rattle.kd_options.specs.TableOptions.{texts_of};
ghost use Rattle.kd_spreadsheet.specs.Row.{IsNoDay};
ghost use Rattle.kd_spreadsheet.specs.RotorRow.{plugs_in, rotor_values, seated_in, wheels_with};

use crate::columns::{Columns, cell_at, cell_or};
use crate::items::{Values, number_in, values_in};
use crate::names::reflector_named;
use arrayvec::ArrayVec;
use csv::ByteRecord;
use kd_options::TableOptions;
use kd_state::{SheetDay, SheetWheel};
use kd_tables::{Letter, Model, Wheel};

/// Reads a row as a day of `model`. `None` if the row doesn't have a legal day.
#[tactic(auto, unfolding(crate::specs::RotorRow::rotor_values))]
pub fn rotor_day(
    options: &TableOptions<&[u8]>,
    columns: &Columns,
    row: &ByteRecord,
    model: Model,
) -> Option<SheetDay>
    ensures { MatchOption result
        (IsNoDay (option_map Rotor
        (rotor_values (texts_of options.now) columns.now (fields_of row.now) model)))
        (λ day. option_map Rotor
        (rotor_values (texts_of options.now) columns.now (fields_of row.now) model) ≡ Some day) }
{
    let number = number_in(cell_at(row, columns.day))?;
    let reflector = reflector_named(model, cell_or(options.reflector, row, columns.reflector))?;
    let wheels = seated_in(options, columns, row)?;
    let pairs = plugs_in(columns, row)?;
    let groups = values_in::<[Letter; 3]>(cell_at(row, columns.groups))?;
    SheetDay::rotor(
        number,
        model,
        reflector,
        wheels.as_slice(),
        pairs.as_slice(),
        groups.as_slice(),
    )
}

/// The wheels of a row, with their rings and window letters.
fn seated_in(
    options: &TableOptions<&[u8]>,
    columns: &Columns,
    row: &ByteRecord,
) -> Option<Values<SheetWheel>>
    ensures { option_map (λ wheels. wheels.items) result
        ≡ seated_in (texts_of options.now) columns.now (fields_of row.now) }
{
    let names = values_in::<Option<Wheel>>(cell_at(row, columns.wheels))?;
    let rings = values_in::<Letter>(cell_at(row, columns.rings))?;
    let letters = values_in::<Letter>(cell_or(options.window, row, columns.window))?;
    wheels_with(&names, &rings, &letters)
}

/// The wheels, each with its ring and its window letter. `None` if there aren't equally many wheels, rings and letters,
/// or a slot is empty.
fn wheels_with(
    names: &Values<Option<Wheel>>,
    rings: &Values<Letter>,
    letters: &Values<Letter>,
) -> Option<Values<SheetWheel>>
    ensures { option_map (λ wheels. wheels.items) result
        ≡ wheels_with names.now.items rings.now.items letters.now.items }
{
    let mut wheels = ArrayVec::new();
    push_wheels(
        &mut wheels,
        names.as_slice(),
        rings.as_slice(),
        letters.as_slice(),
    )?;
    Some(wheels)
}

/// Appends the wheels, each with its ring and its window letter. `None` if the numbers of wheels, rings and letters
/// differ, or a slot is empty.
fn push_wheels(
    wheels: &mut Values<SheetWheel>,
    names: &[Option<Wheel>],
    rings: &[Letter],
    letters: &[Letter],
) -> Option<()>
    requires { length wheels.old.items + length names.now ≤ 192 }
    ensures { option_map (λ _. wheels.new.items) result
        ≡ option_map (λ more. wheels.old.items ++ more) (wheels_with names.now rings.now letters.now) }
{
    match (names, rings, letters) {
        ([Some(wheel), names @ ..], [ring, rings @ ..], [letter, letters @ ..]) => {
            wheels.push(SheetWheel {
                wheel: *wheel,
                ring: *ring,
                letter: *letter,
            });
            push_wheels(wheels, names, rings, letters)
        }
        ([], [], []) => Some(()),
        _ => None,
    }
}

/// The plugged pairs of a row. `None` if the table doesn't have the column of pairs.
fn plugs_in(columns: &Columns, row: &ByteRecord) -> Option<Values<(Letter, Letter)>>
    ensures { option_map (λ pairs. pairs.items) result ≡ plugs_in columns.now (fields_of row.now) }
{
    let place = columns.plugs?;
    values_in::<(Letter, Letter)>(cell_at(row, Some(place)))
}
