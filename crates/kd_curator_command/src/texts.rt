//! The texts of errors, in English and in German.

use kd_language::Text;

/// The error of `sheet --empty` for a wrong number of days, a wrong model or a needless option.
pub(crate) const NO_MONTH: Text = (
    "--empty needs Enigma I, M3, M4 or M-209, then a number of days from 1 to 31, and no other option but -o and --in",
    "zu --empty gehört Enigma I, M3, M4 oder M-209, dann die Zahl der Tage (1 bis 31), und sonst höchstens -o und --in",
);

/// The error for an argument DAY that isn't the number of a day.
pub(crate) const NO_DAY: Text = (
    "the day is a number from 1 to 31",
    "der Tag ist eine Zahl von 1 bis 31",
);

/// The error for more than 32 arguments ORDER.
pub(crate) const MANY_ORDERS: Text = (
    "send takes at most 32 orders",
    "send nimmt höchstens 32 Aufträge",
);

/// The error for an option `--in` whose value isn't a language's code.
pub(crate) const NO_LANGUAGE: Text = ("--in takes de or en", "--in nimmt de oder en");

/// The error for an argument DAYS that doesn't name days.
pub(crate) const NO_DAYS: Text = (
    "days are numbers from 1 to 31, each once, such as 2, 1-31 or 1,4,2",
    "Tage sind Zahlen von 1 bis 31, jede nur einmal, etwa 2, 1-31 oder 1,4,2",
);

/// The hint that a model's name with a space has to be typed in quotes.
pub(crate) const IN_QUOTES: Text = (
    "Write \"Enigma I\" in quotes.\n",
    "\"Enigma I\" in Anführungszeichen schreiben.\n",
);

/// No hint.
pub(crate) const NO_HINT: Text = ("", "");

/// The names of arguments' values in help and errors. The first text of a pair is the name of an argument, or the
/// English name of an option's value.
pub(crate) const VALUE_NAMES: [Text; 14] = [
    ("MACHINE", "MASCHINE"),
    ("SHEET", "TAFEL"),
    ("DAY", "TAG"),
    ("DAYS", "TAGE"),
    ("ORDER", "AUFTRAG"),
    ("FORM", "FORMULAR"),
    ("TABLE", "TABELLE"),
    ("FILE", "DATEI"),
    ("FILE2", "DATEI2"),
    ("FILE3", "DATEI3"),
    ("LANGUAGE", "SPRACHE"),
    ("MODEL", "MODELL"),
    ("REFLECTOR", "UMKEHRWALZE"),
    ("LETTERS", "BUCHSTABEN"),
];
