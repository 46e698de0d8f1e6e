//! The cells of a table's row, one for each value of a day.
ghost use Rattle.std.specs.Prelude.{◌≡◌, ◌||◌, [], is_some, option_map};
ghost use Rattle.std.specs.Option.{option_and_then, option_map_or};
ghost use Rattle.std.specs.List.{list_all};
ghost use Rattle.csv.specs.Records.{fields_of};
ghost use Rattle.kd_spreadsheet.specs.Cells.{cells_of, column_of, day_in, has_columns, has_text, is_optional};
ghost use Rattle.kd_spreadsheet.specs.Cells.{is_read, option_of, row_model, slots, text_of, windows};
ghost use Rattle.kd_spreadsheet.specs.Items.{exactly, joined, letters_in};
ghost use Rattle.kd_spreadsheet.specs.Names.{reflector_named};
ghost use Rattle.kd_options.specs.TableOptions.{texts_of};
ghost use Rattle.kd_sheet.specs.PinWheels.{pins_of_text};

use crate::columns::{Columns, cell_or};
use crate::items::{Values, is_blank, joined, number_in, values_in};
use crate::names::{model_named, reflector_named};
use csv::ByteRecord;
use kd_options::TableOptions;
use kd_sheet::pins_of_text;
use kd_tables::{
    Family, Letter, Model, Reading, Ring, Wheel, ring1, ring2, ring3, ring4, ring5, ring6,
};

/// A cell of a row. The cell is named after the value that it has.
#[derive(Clone, Copy, PartialEq, Eq)]
pub enum Cell {
    Day,
    Model,
    Reflector,
    Wheels,
    Rings,
    Window,
    Plugs,
    Groups,
    List,
    Pins1,
    Pins2,
    Pins3,
    Pins4,
    Pins5,
    Pins6,
    Bars,
}

/// Whether the table has each column that the model of `row` needs. An option, such as `--model`, can replace a column.
pub fn has_columns(options: &TableOptions<&[u8]>, columns: &Columns, row: &ByteRecord) -> bool
    ensures { result ≡ has_columns (texts_of options.now) columns.now (fields_of row.now) }
{
    let known = known_cells(options, columns, row);
    if !has_column(options, columns, Cell::Day) {
        return false;
    }
    if !has_column(options, columns, Cell::Model) {
        return false;
    }
    has_each_column(options, columns, known)
}

/// Whether the table has the column of `cell`, or the option of `cell` (such as `--model`) isn't blank.
pub fn has_text(options: &TableOptions<&[u8]>, columns: &Columns, cell: Cell) -> bool
    ensures { result ≡ has_text (texts_of options.now) columns.now cell }
{
    column_of(columns, cell).is_some() || !is_blank(option_of(options, cell))
}

/// The cells of `row` that depend on its model. No cells if the model's name can't be read.
pub fn known_cells(
    options: &TableOptions<&[u8]>,
    columns: &Columns,
    row: &ByteRecord,
) -> &'static [Cell]
    ensures { result.now ≡ option_map_or cells_of
        (row_model (texts_of options.now) columns.now (fields_of row.now)) [] }
{
    match row_model(options, columns, row) {
        Some(model) => cells_of(model),
        None => &[],
    }
}

/// The cells that a day of `model` has besides its number and its model.
pub fn cells_of(model: Model) -> &'static [Cell]
    ensures { result.now ≡ cells_of model }
{
    match model.family() {
        Family::Rotor => &ROTOR_CELLS,
        Family::Pin => &PIN_CELLS,
    }
}

/// The model of `row`; `None` if the model's name can't be read.
pub fn row_model(
    options: &TableOptions<&[u8]>,
    columns: &Columns,
    row: &ByteRecord,
) -> Option<Model>
    ensures { result ≡ row_model (texts_of options.now) columns.now (fields_of row.now) }
{
    model_named(text_of(options, columns, row, Cell::Model))
}

/// The text of `cell` or, if `cell` is blank, the text of its option, such as `--model`.
pub fn text_of<'a>(
    options: &TableOptions<&'a [u8]>,
    columns: &Columns,
    row: &'a ByteRecord,
    cell: Cell,
) -> &'a [u8]
    ensures { result.now ≡ text_of (texts_of options.now) columns.now (fields_of row.now) cell }
{
    cell_or(option_of(options, cell), row, column_of(columns, cell))
}

/// The place of the column of `cell`; `None` if the table has no such column.
pub fn column_of(columns: &Columns, cell: Cell) -> Option<usize>
    ensures { result ≡ column_of columns.now cell }
{
    match cell {
        Cell::Day => columns.day,
        Cell::Model => columns.model,
        Cell::Reflector => columns.reflector,
        Cell::Wheels => columns.wheels,
        Cell::Rings => columns.rings,
        Cell::Window => columns.window,
        Cell::Plugs => columns.plugs,
        Cell::Groups => columns.groups,
        Cell::List => columns.list,
        Cell::Pins1 => columns.pins[0],
        Cell::Pins2 => columns.pins[1],
        Cell::Pins3 => columns.pins[2],
        Cell::Pins4 => columns.pins[3],
        Cell::Pins5 => columns.pins[4],
        Cell::Pins6 => columns.pins[5],
        Cell::Bars => columns.bars,
    }
}

/// The text of the option of `cell` (`--model`, `--reflector` or `--window`); empty if `cell` has no option.
pub fn option_of<'a>(options: &TableOptions<&'a [u8]>, cell: Cell) -> &'a [u8]
    ensures { result.now ≡ option_of (texts_of options.now) cell }
{
    match cell {
        Cell::Model => options.model,
        Cell::Reflector => options.reflector,
        Cell::Window => options.window,
        _ => &[],
    }
}

/// Whether the table may lack the column of `cell`. This is so only for the column of groups.
pub fn is_optional(cell: Cell) -> bool
    ensures { result ≡ is_optional cell }
{
    matches!(cell, Cell::Groups)
}

/// Whether `text` can be read as the value of `cell`, in a row for `model`.
pub fn is_read(model: Option<Model>, cell: Cell, text: &[u8]) -> bool
    ensures { result ≡ is_read model cell text.now }
{
    match cell {
        Cell::Day => day_in(text).is_some(),
        Cell::Model => model_named(text).is_some(),
        Cell::Reflector => names_reflector(model, text),
        Cell::Wheels => are_exactly(&values_in::<Option<Wheel>>(text), slots(model)),
        Cell::Rings => has_letters(text, slots(model)),
        Cell::Window => has_letters(text, windows(model)),
        Cell::Plugs => values_in::<(Letter, Letter)>(text).is_some(),
        Cell::Groups => values_in::<[Letter; 3]>(text).is_some(),
        Cell::List => has_letters(text, 2),
        Cell::Pins1 => are_pins(&ring1(), text),
        Cell::Pins2 => are_pins(&ring2(), text),
        Cell::Pins3 => are_pins(&ring3(), text),
        Cell::Pins4 => are_pins(&ring4(), text),
        Cell::Pins5 => are_pins(&ring5(), text),
        Cell::Pins6 => are_pins(&ring6(), text),
        Cell::Bars => are_exactly(&values_in::<Reading>(text), 27),
    }
}

/// The day's number in the cell `text`; `None` if `text` isn't a number from 1 to 31.
pub fn day_in(text: &[u8]) -> Option<u8>
    ensures { result ≡ day_in text.now }
{
    let number = number_in(text)?;
    if 1 <= number && number <= 31 {
        Some(number)
    } else {
        None
    }
}

/// How many window letters a machine of `model` has; 0 if `model` is `None`.
pub fn windows(model: Option<Model>) -> usize
    ensures { result ≡ windows model }
{
    match model {
        Some(model) => match model.family() {
            Family::Rotor => usize::from(model.slots()),
            Family::Pin => 6,
        },
        None => 0,
    }
}

/// How many slots a machine of `model` has; 0 if `model` is `None`.
pub fn slots(model: Option<Model>) -> usize
    ensures { result ≡ slots model }
{
    match model {
        Some(model) => usize::from(model.slots()),
        None => 0,
    }
}

/// Whether the table has the column of `cell`, or doesn't need it: the column is optional, or an option replaces it.
fn has_column(options: &TableOptions<&[u8]>, columns: &Columns, cell: Cell) -> bool
    ensures { result ≡ (is_optional cell || has_text (texts_of options.now) columns.now cell) }
{
    is_optional(cell) || has_text(options, columns, cell)
}

/// Whether, for each of `cells`, the table has the column or doesn't need it: it is optional, or an option replaces it.
fn has_each_column(options: &TableOptions<&[u8]>, columns: &Columns, cells: &[Cell]) -> bool
    ensures { result ≡ list_all
        (λ cell. is_optional cell || has_text (texts_of options.now) columns.now cell) cells.now }
{
    match cells {
        [cell, rest @ ..] => {
            has_column(options, columns, *cell) && has_each_column(options, columns, rest)
        }
        [] => true,
    }
}

/// The cells that a Converter's day has besides its number and its model.
static PIN_CELLS: [Cell; 9] = [
    Cell::List,
    Cell::Window,
    Cell::Pins1,
    Cell::Pins2,
    Cell::Pins3,
    Cell::Pins4,
    Cell::Pins5,
    Cell::Pins6,
    Cell::Bars,
];

/// The cells that a rotor machine's day has besides its number and its model.
static ROTOR_CELLS: [Cell; 6] = [
    Cell::Reflector,
    Cell::Wheels,
    Cell::Rings,
    Cell::Window,
    Cell::Plugs,
    Cell::Groups,
];

fn names_reflector(model: Option<Model>, text: &[u8]) -> bool
    ensures { result ≡ is_some (option_and_then (λ known. reflector_named known text.now) model) }
{
    match model {
        Some(model) => reflector_named(model, text).is_some(),
        None => false,
    }
}

/// Whether `text` can be read as exactly `count` letters.
fn has_letters(text: &[u8], count: usize) -> bool
    ensures { result ≡ is_some (option_and_then (exactly count) (letters_in text.now)) }
{
    are_exactly(&values_in::<Letter>(text), count)
}

fn are_exactly<T>(values: &Option<Values<T>>, count: usize) -> bool
    ensures { result ≡ is_some (option_and_then (exactly count)
        (option_map (λ values. values.items) values.now)) }
{
    match values {
        Some(values) => values.len() == count,
        None => false,
    }
}

/// Whether `text` can be read as the effective pins of the wheel with the letters `ring`.
fn are_pins<const N: usize>(ring: &Ring<N>, text: &[u8]) -> bool
    ensures { result ≡ is_some (option_and_then (pins_of_text ring.now) (joined text.now)) }
{
    match joined(text) {
        Some(letters) => pins_of_text(ring, letters.as_slice()).is_some(),
        None => false,
    }
}
