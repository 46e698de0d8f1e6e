//! The texts that are the same in both languages: markup, marks, and separators.

/// The sign for no letter. It is as wide as a letter, so that letters stand exactly below each other.
pub const NO_LETTER: &str = "\u{a0}";

/// The sign for a lost letter.
pub const LOST_LETTER: &str = "?";

/// The start of a row. `ROW_BOX` stands after the row's groups: a checkbox with the row's number. `ROW_END` ends the
/// row.
pub const ROW: &str = "<div class=row><div class=groups>";

pub const ROW_BOX: &str = "</div>\n<label><input type=checkbox><b>~</b>";

pub const ROW_END: &str = "</label></div>\n";

/// The markup before the letters that the machine shows after a row. `ROW_NUMBERS` stands before the numbers of these
/// letters.
pub const ROW_LETTERS: &str = "<br>";

pub const ROW_NUMBERS: &str = "<br>";

/// The start of a group, before the signs above the line to write on. `ABOVE_END` stands after these signs. `GROUP_END`
/// ends the group.
pub const GROUP: &str = "<span><b>";

pub const ABOVE_END: &str = "</b>";

pub const GROUP_END: &str = "</span>";

/// The start of small print; `SMALL_END` is its end.
pub const SMALL: &str = "<small>";

pub const SMALL_END: &str = "</small>";

/// The markup before the marks of a group, with which a Converter's internal key is found. `MARKS_END` stands after the
/// marks. `STRUCK_OUT` is the mark of a letter that is struck out.
pub const MARKS: &str = "<i>";

pub const MARKS_END: &str = "</i>";

pub const STRUCK_OUT: &str = "-";

/// In the picture's title: the words for a rotor machine's window. The values are the slot, the letter, and the
/// letter's number. `WHEEL_WORDS` has the words for a Converter's wheel; its values are the wheel and the letter.
pub const WINDOW_WORDS: &str = "~: ~ ~";

pub const WHEEL_WORDS: &str = "~: ~";

/// A Converter's wheel in the picture, with its number and its letter.
pub const WHEEL: &str =
    "<text x=\"~\" y=\"16\" font-size=\"18\">~</text>\n<rect class=\"set\" x=\"~\" y=\"24\" width=\"40\" height=\"40\"/>\n<text class=\"bold\" x=\"~\" y=\"53\" font-size=\"26\">~</text>\n";

/// The end of the picture's title; `WINDOWS_END` is the end of the picture.
pub const WINDOWS_TITLE_END: &str = ".</title>\n";

pub const WINDOWS_END: &str = "</svg>\n</figure>\n";

/// Separators in lists. Two no-break spaces stand between a rotor machine's letters, so that each letter stands above
/// its number.
pub const COMMA: &str = ", ";

pub const SPACE: &str = " ";

pub const WIDE_SPACE: &str = "\u{a0}";

pub const TWO_SPACES: &str = "\u{a0}\u{a0}";

/// A ring: its letter, and the letter's number.
pub const RING: &str = "~\u{a0}~";

/// The end of the sentence with a rotor machine's key of the day.
pub const KEY_END: &str = "</b>.";

/// The end of a section; `SHEET_END` is the end of a part's sheet.
pub const SECTION_END: &str = "</section>\n";

pub const SHEET_END: &str = "</section>\n</article>\n";
