//! The words for faults and warnings, in English and in German. In a template, each sign `~` stands for a value.

use kd_language::Text;

/// The words before the number of a day. The next three texts stand before the number of an entry, a line and a column.
pub const DAY: Text = (", day ", ", Tag ");

pub const ENTRY: Text = (", entry ", ", Eintrag ");

pub const LINE: Text = (", line ", ", Zeile ");

pub const COLUMN: Text = (", column ", ", Spalte ");

/// The words between a file's name and a warning.
pub const WARNING: Text = (": warning: ", ": Warnung: ");

/// The warning about an unread key. The values are the key's name, and advice.
pub const UNREAD: Text = (
    "nobody reads the key ~~\n",
    "~ ist ein Name, den niemand liest~\n",
);

/// The advice to write a known key in place of an unread key. The value is the known key. The next text is the advice
/// to write `[[day]]`.
pub const WRITE_KEY: Text = (": write `~`", ": `~` schreiben");

pub const WRITE_ENTRIES: Text = (
    ": write `[[day]]` above the lines of each day",
    ": `[[day]]` über die Zeilen jedes Tages schreiben",
);

/// The warning about a cable with letters in falling order. The values are the cable, and the cable as the desk writes
/// it.
pub const CABLE_ORDER: Text = (
    "the desk writes the cable `~` as `~`\n",
    "desk schreibt die Schnur `~` als `~`\n",
);

/// The words for a refused value, if no check explains the refusal.
pub const REFUSED: Text = ("the desk refuses the value", "desk lehnt den Wert ab");

/// A value of the wrong type stands in place of a key sheet's list of days. The next text is for a value in place of an
/// entry. The sign `~` stands for the type, in words.
pub const DAYS_NEEDED: Text = (
    "~ stands where a list of days is needed: write `[[day]]` above the lines of each day",
    "~ steht, wo eine Liste von Tagen stehen muss: `[[day]]` über die Zeilen jedes Tages schreiben",
);

pub const ENTRY_NEEDED: Text = (
    "~ stands where an entry is needed: write `[[day]]` above each day's lines",
    "~ steht, wo ein Eintrag stehen muss: `[[day]]` über die Zeilen jedes Tages schreiben",
);

pub const UNKNOWN_FILE: Text = (
    "it can't be told whether this is a key sheet or a machine file: a key sheet has `[[day]]` above the lines of each day, a machine file has `version` and `model`",
    "es ist nicht zu erkennen, ob dies eine Schlüsseltafel oder eine Maschinendatei ist: eine Schlüsseltafel hat `[[day]]` über den Zeilen jedes Tages, eine Maschinendatei hat `version` und `model`",
);

pub const NEW_VERSION_NEEDED: Text = (
    "the machine file of an M4 needs `version = 2`",
    "die Maschinendatei einer M4 braucht `version = 2`",
);

/// Two entries are for the same day. The values are the day, and the numbers of the two entries.
pub const DAY_TWICE: Text = (
    "day ~ stands in entry ~ and in entry ~",
    "Tag ~ steht in Eintrag ~ und in Eintrag ~",
);

/// A file isn't TOML. The value says why.
pub const NOT_TOML: Text = ("this isn't TOML: ~", "dies ist kein TOML: ~");

/// The likely mistakes in a file that isn't TOML: this text, and the texts after it.
pub const NOT_UTF8: Text = ("save the file as UTF-8", "die Datei als UTF-8 speichern");

pub const KEY_TWICE: Text = (
    "a key stands twice; above the lines of each day stands `[[day]]`",
    "ein Name steht zweimal da; über den Zeilen jedes Tages steht `[[day]]`",
);

pub const SPREADSHEET: Text = (
    "is it a table from a spreadsheet? `curator sheet` makes a key sheet from it",
    "ist es eine Tabelle aus einer Tabellenkalkulation? `curator sheet` macht daraus eine Schlüsseltafel",
);

pub const CURLY_QUOTE: Text = (
    "write straight quotes `\"`, and plain characters",
    "gerade Anführungszeichen `\"` schreiben, und keine Sonderzeichen",
);

pub const QUOTE_MISSING: Text = (
    "a quote `\"` is missing",
    "ein Anführungszeichen `\"` fehlt",
);

pub const LEADING_ZERO: Text = (
    "write numbers without a leading zero: 5 for 05",
    "Zahlen ohne führende Null schreiben: 5 statt 05",
);

pub const COLON: Text = ("write `=` for `:`", "`=` statt `:` schreiben");

pub const SIGN_MISSING: Text = (
    "look for a comma, a bracket or a quote that is missing, here or in the line above",
    "hier und in der Zeile darüber nachsehen, ob ein Komma, eine Klammer oder ein Anführungszeichen fehlt",
);

pub const END_MISSING: Text = (
    "look for a quote or a bracket that is missing in the lines above",
    "in den Zeilen darüber nachsehen, ob ein Anführungszeichen oder eine Klammer fehlt",
);
