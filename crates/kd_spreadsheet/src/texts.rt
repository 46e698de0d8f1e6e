//! The texts of the notes on a table, in English and in German. In a template, each sign `~` stands for a value.

use kd_language::Text;

/// A text about a wrong number of things, such as letters. It has two versions: for one thing, and for several. The
/// values are the number of things that are there, and the number of things that should be there.
pub type CountText = (Text, Text);

// ---- Places.

/// The place of a row whose day isn't known. The value is the row's number.
pub const ROW: Text = ("row ~, ", "Zeile ~, ");

/// The place of a row whose day is known. The values are the row's number and the day.
pub const ROW_AND_DAY: Text = ("row ~ (day ~), ", "Zeile ~ (Tag ~), ");

/// The place of lines about the names of columns.
pub const FIRST_ROW: Text = ("row 1: ", "Zeile 1: ");

/// The start of each warning about a day.
pub const WARNING: Text = ("warning: ", "Warnung: ");

// ---- The table.

/// The line about an unread column. The value is the column's name.
pub const UNREAD_COLUMN: Text = (
    "column ~: this column isn't read\n",
    "Spalte ~: diese Spalte wird nicht gelesen\n",
);

/// The words for a table whose quotes are wrong.
pub const OPEN_QUOTE: Text = (
    "a quote isn't closed, or something follows the closing quote of a cell",
    "einer Zelle fehlt das schließende Anführungszeichen, oder dahinter folgt noch etwas",
);

/// The words for a table without rows, or with only blank rows under the first row.
pub const NO_ROW: Text = (
    "the table has no row with a day",
    "die Tabelle hat keine Zeile mit einem Tag",
);

/// The words for a refused table, if no other line says why it is refused.
pub const NO_SHEET: Text = (
    "the rows don't make a key sheet",
    "die Zeilen ergeben keine Schlüsseltafel",
);

// ---- Columns.

/// The words for a table with a misnamed column, if no other line says what is wrong with the columns.
pub const MISNAMED: Text = (
    "the name of a column is nearly that of another, which isn't there",
    "der Name einer Spalte ist fast der Name einer anderen Spalte, die fehlt",
);

/// The words for a table that lacks a column, if no other line says what is wrong with the columns.
pub const LACKS_COLUMN: Text = (
    "a column that a row needs isn't there",
    "es fehlt eine Spalte, die eine Zeile braucht",
);

/// The question whether a name is mistyped. The values are the name that may be meant, and the name in the table.
pub const MEANT: Text = (
    "did you mean ~ by ~? If not, give this column another name",
    "ist ~ statt ~ gemeint? Wenn nicht, dieser Spalte einen anderen Namen geben",
);

/// The words for a missing column. The value is the column's name.
pub const NO_COLUMN: Text = ("there is no column ~", "es gibt keine Spalte ~");

/// The words for a missing column that an option can replace. The values are the column's name, and the option.
pub const NO_COLUMN_OR_OPTION: Text = (
    "there is neither a column ~ nor an option ~",
    "es gibt weder eine Spalte ~ noch eine Option ~",
);

pub const IS_UTF16: Text = (
    "this table is in UTF-16: save it as CSV in UTF-8",
    "diese Tabelle ist in UTF-16: als CSV in UTF-8 speichern",
);

/// The words for a first row such as `sep=;`.
pub const SAYS_SEPARATOR: Text = (
    "this row says what separates the cells: remove it, so that the names are first",
    "diese Zeile nennt das Trennzeichen der Zellen: sie löschen, damit die Namen zuerst kommen",
);

pub const NO_NAMES: Text = (
    "this row doesn't have the names of the columns, such as day (in German Tag)",
    "diese Zeile hat keine Spaltennamen wie Tag (auf Englisch day)",
);

// ---- Rows.

/// The words for a day that comes twice. The value is the number of the earlier row with this day.
pub const SAME_DAY: Text = ("row ~ has this day, too", "diesen Tag hat schon Zeile ~");

/// The words for a row that is too short. The value is the name of the first column in which the row has no cell.
pub const ROW_ENDS: Text = (
    "~: the row ends before this column",
    "~: die Zeile endet vor dieser Spalte",
);

/// The words for a text beyond the last column. The value is this text.
pub const BEYOND: Text = (
    "beyond the last column: ~ is there",
    "hinter der letzten Spalte steht ~",
);

/// The words for a row that isn't a day, though its cells have no notes.
pub const ROW_IS_NO_DAY: Text = ("this row isn't a day", "diese Zeile beschreibt keinen Tag");

// ---- Cells.

/// The words for a blank cell.
pub const NOTHING: Text = ("nothing is there", "hier steht nichts");

/// The words for a cell with too many bytes or words.
pub const TOO_LONG: Text = ("the cell is too long", "die Zelle ist zu lang");

/// The words for a cell that can't be read, if no other line says what is wrong with the cell.
pub const UNREADABLE: Text = ("this can't be read", "das ist nicht lesbar");

/// The line in place of further lines about a place, if there is no room for them.
pub const MORE_FAULTS: Text = (
    "\nfurther faults aren't told",
    "\nweitere Fehler werden nicht genannt",
);

pub const IS_NO_DAY: Text = ("~ isn't a day from 1 to 31", "~ ist kein Tag von 1 bis 31");

pub const NO_MODEL: Text = ("there is no model ~", "es gibt kein Modell ~");

/// The words for a reflector that the model doesn't have. The values are the name of an Enigma's model, and the text of
/// the cell.
pub const NO_REFLECTOR: Text = ("~ has no reflector ~", "die ~ hat keine Umkehrwalze ~");

// ---- Letters.

pub const IS_NO_LETTER: Text = ("~ isn't a letter", "~ ist kein Buchstabe");

pub const NO_LETTER_OR_NUMBER: Text = (
    "~ is neither a letter nor a number from 1 to 26",
    "~ ist weder ein Buchstabe noch eine Zahl von 1 bis 26",
);

pub const LETTER_COUNT: CountText = (
    (
        "~ letter or number is there, in place of ~",
        "~ Buchstabe (oder Zahl) statt ~",
    ),
    (
        "~ letters or numbers are there, in place of ~",
        "~ Buchstaben (oder Zahlen) statt ~",
    ),
);

pub const LETTER_TWICE: Text = (
    "the letter ~ is there twice",
    "der Buchstabe ~ steht zweimal da",
);

/// The words for a letter that isn't on its wheel. The values are the number of a Converter's wheel, and the letter.
pub const OFF_WHEEL: Text = ("wheel ~ has no ~", "Rad ~ hat kein ~");

pub const IS_NO_PAIR: Text = ("~ isn't a pair of letters", "~ ist kein Buchstabenpaar");

/// The words for a pair of two equal letters.
pub const PAIRED_WITH_ITSELF: Text = (
    "the letter ~ is paired with itself",
    "der Buchstabe ~ ist mit sich selbst gepaart",
);

pub const IS_NO_GROUP: Text = (
    "~ isn't a group of three letters",
    "~ ist keine Kenngruppe aus drei Buchstaben",
);

pub const TOO_MANY_GROUPS: Text = (
    "more than 4 groups are there",
    "hier stehen mehr als 4 Kenngruppen",
);

// ---- Wheels and bars.

pub const IS_NO_WHEEL: Text = ("~ isn't a wheel", "~ ist keine Walze");

pub const WHEEL_COUNT: CountText = (
    ("~ wheel is there, in place of ~", "~ Walze statt ~"),
    ("~ wheels are there, in place of ~", "~ Walzen statt ~"),
);

pub const WHEEL_TWICE: Text = ("wheel ~ is there twice", "Walze ~ steht zweimal da");

/// The words for a wheel Beta or Gamma that isn't in the left slot of an M4.
pub const ONLY_LEFT: Text = (
    "wheel ~ can only be at the left",
    "Walze ~ kann nur links stehen",
);

/// The words for any other wheel in the left slot of an M4.
pub const NEVER_LEFT: Text = (
    "wheel ~ can't be at the left, where Beta or Gamma has to be",
    "Walze ~ kann nicht links stehen, wo Beta oder Gamma stehen muss",
);

pub const IS_NO_BAR: Text = (
    "~ isn't two different numbers from 0 to 6 with a hyphen between",
    "~ besteht nicht aus zwei verschiedenen Zahlen von 0 bis 6 mit einem Bindestrich dazwischen",
);

pub const BAR_COUNT: CountText = (
    ("~ bar is there, in place of ~", "~ Stange statt ~"),
    ("~ bars are there, in place of ~", "~ Stangen statt ~"),
);
