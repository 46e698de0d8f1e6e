//! Finds models, wheels and reflectors by their names in a table.
ghost use Rattle.std.specs.Prelude.{◌≡◌, ◌≤◌, ◌+◌, ◌++◌, codes, find, length};
ghost use Rattle.kd_tables.specs.Tables.{model_text, reflector_text};
ghost use Rattle.kd_spreadsheet.specs.Names.{capital, is_digit, is_gap, is_capital_letter, is_named, is_no_break, is_quote, plain, unquoted};
ghost use Rattle.kd_spreadsheet.specs.Names.{model_named, names_reflector, wheel_named, reflector_named};

use arrayvec::ArrayVec;
use kd_tables::{Model, Reflector, Wheel};

/// Whether `byte` is a letter from A to Z.
pub fn is_capital_letter(byte: u8) -> bool
    ensures { result ≡ is_capital_letter byte }
{
    b'A' <= byte && byte <= b'Z'
}

/// Whether `byte` is a digit from 0 to 9.
pub fn is_digit(byte: u8) -> bool
    ensures { result ≡ is_digit byte }
{
    b'0' <= byte && byte <= b'9'
}

/// The model whose name is in `cell`.
#[tactic(auto, unfolding(crate::specs::Names::model_named))]
pub fn model_named(cell: &[u8]) -> Option<Model>
    ensures { result ≡ model_named cell.now }
{
    model_among(&Model::ALL, cell)
}

/// The wheel whose name is `word`.
pub fn wheel_named(word: &[u8]) -> Option<Wheel>
    ensures { result ≡ wheel_named word.now }
{
    let wheels = Model::M4.wheels();
    for wheel in wheels {
        if is_named(wheel.text().as_str(), word) {
            return Some(*wheel);
        }
    }
    None
}

/// The reflector of `model` whose name is in `cell`. On an M4, the letter B means the thin reflector b.
pub fn reflector_named(model: Model, cell: &[u8]) -> Option<Reflector>
    ensures { result ≡ reflector_named model cell.now }
{
    let reflectors = model.reflectors();
    for reflector in reflectors {
        if names_reflector(*reflector, cell) {
            return Some(*reflector);
        }
    }
    None
}

/// Whether the text of `cell` is `name`; a cell with more than 32 bytes is no name.
///
/// Gaps, typographic quotes around the text, and capital or small letters make no difference.
#[tactic(auto, unfolding(crate::specs::Names::is_named))]
pub fn is_named(name: &str, cell: &[u8]) -> bool
    requires { length name.now ≤ 32 }
    ensures { result ≡ is_named name.now cell.now }
{
    cell.len() <= 32 && plain(unquoted(cell)).as_slice() == plain(name.as_bytes()).as_slice()
}

/// The capital letter for a small letter; any other byte itself.
pub fn capital(byte: u8) -> u8
    ensures { result ≡ capital byte }
{
    if b'a' <= byte && byte <= b'z' {
        byte - 32
    } else {
        byte
    }
}

/// Whether `byte` is a gap between items, such as a blank or a comma.
pub fn is_gap(byte: u8) -> bool
    ensures { result ≡ is_gap byte }
{
    byte == b' '
        || b',' <= byte && byte <= b'/'
        || byte == b';'
        || b'\t' <= byte && byte <= b'\r'
        || is_no_break(byte)
}

/// The first of `models` whose name is in `cell`.
fn model_among(models: &[Model], cell: &[u8]) -> Option<Model>
    ensures { result ≡ find (λ model. is_named (model_text model) cell.now) models.now }
{
    for model in models {
        if is_named(model.text().as_str(), cell) {
            return Some(*model);
        }
    }
    None
}

/// Whether the text of `cell` is the name of `reflector`, alone or after `UKW`.
fn names_reflector(reflector: Reflector, cell: &[u8]) -> bool
    ensures { result ≡ names_reflector reflector cell.now }
{
    is_named(reflector.text().as_str(), cell) || is_named(long_name(reflector), cell)
}

/// The name of `reflector` with `UKW` (*Umkehrwalze*) before it, such as `UKWB`.
fn long_name(reflector: Reflector) -> &'static str
    ensures name { result.now ≡ codes "UKW" ++ reflector_text reflector }
    ensures short { length result.now ≤ 32 }
{
    match reflector {
        Reflector::A => "UKWA",
        Reflector::B => "UKWB",
        Reflector::C => "UKWC",
        Reflector::ThinB => "UKWb",
        Reflector::ThinC => "UKWc",
    }
}

/// `text` in capital letters, without gaps. `text` has at most 32 bytes.
fn plain(text: &[u8]) -> ArrayVec<u8, 32>
    requires { length text.now ≤ 32 }
    ensures { result.items ≡ plain text.now }
{
    let mut name = ArrayVec::new();
    push_plain(&mut name, text);
    name
}

/// Appends `text` in capital letters, without gaps.
fn push_plain(name: &mut ArrayVec<u8, 32>, text: &[u8])
    requires { length name.old.items + length text.now ≤ 32 }
    ensures { name.new.items ≡ name.old.items ++ plain text.now }
{
    if let [byte, rest @ ..] = text {
        let byte = capital(*byte);
        if !is_gap(byte) {
            name.push(byte);
        }
        push_plain(name, rest);
    }
}

/// `cell` without the two typographic quotes around its text, if it has both.
fn unquoted(cell: &[u8]) -> &[u8]
    ensures value { result.now ≡ unquoted cell.now }
    ensures short { length result.now ≤ length cell.now }
{
    let count = cell.len();
    if count >= 6 && is_quote(&cell[..3]) && is_quote(&cell[count - 3..]) {
        &cell[3..count - 3]
    } else {
        cell
    }
}

/// Whether the bytes are a typographic quote in UTF-8, single or double, for example “.
fn is_quote(bytes: &[u8]) -> bool
    ensures { result ≡ is_quote bytes.now }
{
    match bytes {
        [first, second, third] => {
            *first == 0xE2 && *second == 0x80 && 0x98 <= *third && *third <= 0x9F
        }
        _ => false,
    }
}

/// Whether `byte` belongs to a no-break space, in UTF-8 or Windows-1252.
fn is_no_break(byte: u8) -> bool
    ensures { result ≡ is_no_break byte }
{
    byte == 0xA0 || byte == 0xC2
}
