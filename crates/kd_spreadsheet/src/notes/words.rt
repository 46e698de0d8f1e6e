//! Lines of words that say what is wrong at one place of a table.
ghost use Rattle.std.specs.Prelude.{◌≡◌, ◌==◌, length};
ghost use Rattle.kd_spreadsheet.specs.Notes.{shown_byte};

use crate::texts::MORE_FAULTS;
use arrayvec::ArrayVec;
use itoa::Buffer;
use kd_language::template::cut;
use kd_language::{Language, Text};

/// A value that replaces a sign `~` in a line of words.
#[derive(Clone, Copy)]
pub enum Value<'a> {
    /// The text of a cell, or a part of it.
    Cell(&'a [u8]),
    Number(u64),
    /// A name that is the same in both languages, or words in the language of the line.
    Text(&'a str),
}

/// Lines of words, with line ends between them. If there is no room for a line, this line and all later lines are left
/// out.
#[derive(Drop)]
pub struct Words {
    language: Language,
    text: ArrayVec<u8, 4096>,
    /// The number of bytes in complete lines.
    whole: usize,
    /// Whether a line was left out.
    is_full: bool,
}

impl Words {
    /// An empty list of lines, for words in `language`.
    pub fn new(language: Language) -> Self {
        Words {
            language,
            text: ArrayVec::new(),
            whole: 0,
            is_full: false,
        }
    }

    pub fn language(&self) -> Language {
        self.language
    }

    /// Whether there are no words.
    pub fn is_empty(&self) -> bool
        ensures { result ≡ (length self.now.text.items == 0) }
    {
        self.text.is_empty()
    }

    /// The lines, with line ends between them.
    pub fn as_slice(&self) -> &[u8]
        ensures { result.now ≡ self.now.text.items }
    {
        self.text.as_slice()
    }

    /// Appends the line `text`, with its signs `~` replaced by the values, in order.
    pub fn tell(&mut self, text: Text, values: &[Value<'_>]) {
        if !self.is_empty() {
            self.add("\n");
        }
        self.add_filled(self.language.text(text), values);
        if !self.is_full {
            self.whole = self.text.len();
        }
    }

    /// Appends `template` to the current line, with its signs `~` replaced by the values, in order.
    fn add_filled(&mut self, template: &str, values: &[Value<'_>]) {
        let mut rest = template;
        for value in values {
            let (piece, after) = cut(rest);
            self.add(piece);
            self.add_value(*value);
            rest = after;
        }
        self.add(rest);
    }

    /// Appends `value` to the current line.
    fn add_value(&mut self, value: Value<'_>) {
        match value {
            Value::Cell(cell) => self.add_cell(cell),
            Value::Number(number) => self.add(Buffer::new().format(number)),
            Value::Text(text) => self.add(text),
        }
    }

    /// Appends the text of a cell to the current line, with `?` for each byte that can't be printed.
    ///
    /// Of a cell with more than 60 bytes, appends only the first 60 and `...`. Then `?` also stands for each byte
    /// outside of ASCII.
    fn add_cell(&mut self, cell: &[u8]) {
        let is_long = cell.len() > SHOWN;
        for byte in cell.iter().take(SHOWN) {
            self.add_bytes(&[shown_byte(is_long, *byte)]);
        }
        if is_long {
            self.add("...");
        }
    }

    /// Appends a text to the current line.
    fn add(&mut self, text: &str) {
        self.add_bytes(text.as_bytes());
    }

    /// Appends bytes to the current line.
    fn add_bytes(&mut self, bytes: &[u8]) {
        let has_room = self.text.len() < ROOM && bytes.len() < ROOM;
        if !self.is_full && !(has_room && self.text.try_extend_from_slice(bytes).is_ok()) {
            self.is_full = true;
            self.text.truncate(self.whole);
            if !self.text.is_empty() {
                let more = self.language.text(MORE_FAULTS);
                let _ = self.text.try_extend_from_slice(more.as_bytes());
            }
        }
    }
}

/// The byte that a note shows for `byte`: `?` if `byte` can't be printed. In a cell with more than 60 bytes
/// (`is_long`), `?` also stands for each byte outside of ASCII.
pub fn shown_byte(is_long: bool, byte: u8) -> u8
    ensures { result ≡ shown_byte is_long byte }
{
    if byte < b' ' || byte == 127 || is_long && 127 < byte {
        b'?'
    } else {
        byte
    }
}

/// Once the lines have this many bytes (2,048), further lines are left out.
const ROOM: usize = 2048;

/// The greatest number of a cell's bytes that a note shows.
const SHOWN: usize = 60;
