//! The words of refusals on standard error, in English and in German.

use kd_language::Text;

/// The word that a refusal's line begins with. `DAY` and `DAY_END` stand before this word if the refusal names a day;
/// the day's number stands between them.
pub const REFUSED: Text = ("refused ", "abgelehnt: ");

pub const DAY: Text = ("day ", "Tag ");

pub const DAY_END: &str = ": ";

// Why a command is refused, in words in place of a number and a name. The word `REFUSED` stands before each text.

pub const FAULTY_TABLE: Text = ("because the table has faults", "die Tabelle hat Fehler");

pub const FAULTY_FILE: Text = ("because a file has faults", "eine Datei hat Fehler");

pub const TOO_MANY_PARTS: Text = (
    "because the form has more than 255 parts",
    "das Formular hat mehr als 255 Teile",
);

pub const NOT_WHOLE: Text = (
    "in part: the form isn't read as one whole message of the day",
    "nur zum Teil gelesen, kein ganzer Spruch des Tages",
);

// What a refusal says of a file. The file's name stands after each text.

pub const TOO_LONG: Text = (": too many bytes in ", ": zu viele Bytes in ");

pub const MACHINE_FILE: Text = (": in the machine file ", ": in der Maschinendatei ");

pub const SHEET_FOR_MACHINE: Text = (
    ": a machine file is needed here, not the key sheet ",
    ": hier wird eine Maschinendatei gebraucht, nicht die Schlüsseltafel ",
);

pub const KEY_SHEET: Text = (": in the key sheet ", ": in der Schlüsseltafel ");

pub const MACHINE_FOR_SHEET: Text = (
    ": a key sheet is needed here, not the machine file ",
    ": hier wird eine Schlüsseltafel gebraucht, nicht die Maschinendatei ",
);

pub const ORDER: Text = (": in the order ", ": im Auftrag ");

/// Stands between a refusal's text and a file's name if the text already says what is wrong with the file.
pub const NAMED: &str = ": ";

// Why a file can't be read. The file's name stands after each text.

pub const NOT_THERE: Text = (": there is no file ", ": es gibt keine Datei ");

pub const FOLDER: Text = (
    ": not a file, but the folder ",
    ": keine Datei, sondern der Ordner ",
);

pub const NOT_ALLOWED: Text = (": you may not read ", ": kein Leserecht für ");

pub const UNREADABLE: Text = (": can't read ", ": nicht zu lesen: ");

/// Why no output file was made: there already is a file with its name. The word `REFUSED` stands before this text, and
/// the file's name after it.
pub const TAKEN: Text = (
    "because there is already a file ",
    "es gibt schon eine Datei ",
);

/// Stands between a refusal's number and name, and the name of the output file.
pub const UNWRITTEN: Text = (": can't write ", ": nicht zu schreiben: ");

/// The error line for a command line with a word that isn't UTF-8.
pub const NOT_UTF8: Text = (
    "error: a word of the command line isn't UTF-8\n",
    "Fehler: ein Wort der Befehlszeile ist kein UTF-8\n",
);
