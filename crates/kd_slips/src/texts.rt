//! The words for refused values, and for days with few pairs or groups, in English and in German. In a template, each
//! sign `~` stands for a value.

use kd_language::Text;

/// A key is missing. The value is the key's name.
pub const KEY_MISSING: Text = ("the key `~` is missing", "der Name `~` fehlt");

/// The types of values: this text, and the texts after it up to `A_TABLE`.
pub const A_TEXT: Text = ("a text", "ein Text");

pub const A_NUMBER: Text = ("a number", "eine Zahl");

pub const A_NUMBER_WITH_POINT: Text = ("a number with a point", "eine Zahl mit Punkt");

pub const TRUE_OR_FALSE: Text = ("true or false", "wahr oder falsch");

pub const A_DATE: Text = ("a date", "ein Datum");

pub const A_LIST: Text = ("a list", "eine Liste");

pub const A_TABLE: Text = ("a table", "eine Tabelle");

/// A value has the wrong type: this text, and the next three texts. The sign `~` stands for the type, in words.
pub const TEXT_NEEDED: Text = (
    "~ stands where a text is needed, in double quotes",
    "~ steht, wo ein Text in doppelten Anführungszeichen stehen muss",
);

pub const LIST_NEEDED: Text = (
    "~ stands where a list is needed, in brackets",
    "~ steht, wo eine Liste in eckigen Klammern stehen muss",
);

pub const NUMBER_NEEDED: Text = (
    "~ stands where a number is needed",
    "~ steht, wo eine Zahl stehen muss",
);

pub const RINGS_NEEDED: Text = (
    "~ stands where a text of letters or a list of numbers is needed",
    "~ steht, wo ein Text aus Buchstaben oder eine Liste von Zahlen stehen muss",
);

/// How many items a list has: this text, and the next two texts.
pub const NONE_STANDS: Text = ("none stands", "0");

pub const ONE_STANDS: Text = ("1 stands", "1");

pub const SEVERAL_STAND: Text = ("~ stand", "~");

/// A list has too many or too few items: this text, and the texts after it up to `GROUP_COUNT`. The values say how many
/// items the list has, and how many it may have.
pub const SLOT_COUNT: Text = (
    "~ there, and there are ~ slots",
    "Zahl der Werte: ~, Zahl der Plätze: ~",
);

pub const WHEEL_COUNT: Text = (
    "~ there, and there are ~ wheels",
    "Zahl der Werte: ~, Zahl der Räder: ~",
);

pub const BAR_COUNT: Text = (
    "~ there, and there are ~ bars",
    "Zahl der Werte: ~, Zahl der Stangen: ~",
);

pub const CABLE_COUNT: Text = (
    "~ there, and there are at most ~ cables",
    "Zahl der Schnüre: ~, höchstens ~",
);

pub const GROUP_COUNT: Text = (
    "~ there, and there are at most ~ groups",
    "Zahl der Kenngruppen: ~, höchstens ~",
);

/// What stands in place of a text that is long, or has control characters. The value is the text's length in bytes.
pub const LONG_TEXT: Text = ("a text of ~ bytes", "ein Text von ~ Byte");

/// A text has small letters. The values are the text in capital letters, and the text.
pub const SMALL_LETTERS: Text = (
    "small letters: write `~` for ~",
    "Kleinbuchstaben: `~` statt ~ schreiben",
);

pub const NO_CAPITAL: Text = (
    "~ has a character that is no capital letter from A to Z",
    "~ hat ein Zeichen, das kein Großbuchstabe von A bis Z ist",
);

/// A text has one letter, and needs more. The next template is for any other wrong number of letters. The values are
/// the text, its length, the number of letters that are needed, and what these letters stand for.
pub const ONE_LETTER: Text = (
    "~ has ~ letter, and ~ are needed~",
    "~ hat ~ Buchstaben, nötig sind ~~",
);

pub const OTHER_LETTERS: Text = (
    "~ has ~ letters, and ~ are needed~",
    "~ hat ~ Buchstaben, nötig sind ~~",
);

/// What the letters of a text stand for: this text, and the texts after it up to `FOR_A_GROUP`. This text is for list
/// letters, and is empty. The value of `FOR_EACH_IN_BOX` is the wheels of the box, in words.
pub const FOR_THE_LIST: Text = ("", "");

pub const FOR_EACH_SLOT: Text = (", one for each slot", ", einer für jeden Platz");

pub const FOR_EACH_IN_BOX: Text = (
    ", one for each of the wheels ~",
    ", einer für jede der Walzen ~",
);

pub const FOR_EACH_WHEEL: Text = (", one for each wheel", ", einer für jedes Rad");

pub const FOR_EACH_END: Text = (
    ", one for each end of a cable",
    ", einer für jedes Schnurende",
);

pub const FOR_A_GROUP: Text = (" for a group", " für eine Kenngruppe");

/// A pin wheel lacks a letter. The values are the wheel's number, the letter, and the wheel's letters.
pub const NOT_ON_WHEEL: Text = ("wheel ~ has no ~; it has ~", "Rad ~ hat kein ~; es hat ~");

/// The names of the models, each with its article, in the nominative: this text, and the next three texts.
pub const AN_ENIGMA_I: Text = ("an Enigma I", "eine Enigma I");

pub const AN_M3: Text = ("an M3", "eine M3");

pub const AN_M4: Text = ("an M4", "eine M4");

pub const A_CONVERTER: Text = ("a Converter M-209", "ein Converter M-209");

/// The wheels in the boxes of the models: this text, and the next three texts.
pub const BOX_OF_ENIGMA_I: Text = ("I to V", "I bis V");

pub const BOX_OF_M3: Text = ("I to VIII", "I bis VIII");

pub const BOX_OF_M4: Text = ("I to VIII, Beta and Gamma", "I bis VIII, Beta und Gamma");

pub const BOX_OF_M209: Text = ("none of these", "keine davon");

/// The wheels for the left slot of an M4.
pub const GREEK_WHEELS: Text = ("Beta or Gamma", "Beta oder Gamma");

/// The reflectors of the models: this text, and the next three texts.
pub const REFLECTORS_OF_ENIGMA_I: Text = ("A, B and C", "A, B und C");

pub const REFLECTORS_OF_M3: Text = ("B and C", "B und C");

pub const REFLECTORS_OF_M4: Text = ("b and c", "b und c");

pub const REFLECTORS_OF_M209: Text = ("none", "keine");

/// The model has no reflector with this name. The values are the name, the model, and the model's reflectors.
pub const NO_REFLECTOR: Text = (
    "~ is no reflector of ~, which has ~",
    "~ ist keine passende Umkehrwalze: ~ hat ~",
);

pub const NO_MODEL: Text = (
    "~ is no model: write `Enigma I`, `M3`, `M4` or `M-209`",
    "~ ist kein Modell: `Enigma I`, `M3`, `M4` oder `M-209` schreiben",
);

/// No wheel has this name. The values are the name, the model, and the wheels in the model's box.
pub const NO_WHEEL: Text = ("~ is no wheel; ~ has ~", "~ ist keine Walze; ~ hat ~");

/// A name has a small letter in place of a capital letter, or the reverse. The values are the right name, and the name
/// in the file.
pub const OTHER_CASE: Text = (
    "capital and small letters: write `~` for `~`",
    "Groß- und Kleinbuchstaben: `~` statt `~` schreiben",
);

/// A wheel doesn't go into a slot. The values are the wheel, the slot, the model, and the wheels that this slot takes.
pub const NOT_FOR_SLOT: Text = (
    "wheel ~ doesn't go into slot ~ of ~, which takes ~",
    "Walze ~ passt nicht auf Platz ~: ~ hat dort ~",
);

/// A wheel isn't in the model's box. The values are the wheel, the model's name with its article, and the wheels in the
/// box.
pub const NOT_IN_BOX: Text = (
    "wheel ~ isn't in the box of ~, which has ~",
    "Walze ~ ist nicht im Kasten: ~ hat ~",
);

/// A wheel is in two slots. The values are the wheel, and the numbers of the slots.
pub const WHEEL_TWICE: Text = (
    "wheel ~ is in slot ~ and in slot ~",
    "Walze ~ ist auf Platz ~ und auf Platz ~",
);

/// A text stands in place of a number. The value is the text.
pub const QUOTED_NUMBER: Text = (
    "~ stands in quotes: write a number, without quotes",
    "~ steht in Anführungszeichen: eine Zahl ohne Anführungszeichen schreiben",
);

/// A number is out of range. The values are the number, and the last number that is allowed.
pub const OUT_OF_RANGE: Text = ("~ is no number from 1 to ~", "~ ist keine Zahl von 1 bis ~");

pub const NOT_THE_PINS: Text = (
    "these aren't the pins of the wheel",
    "das sind nicht die Stifte des Rads",
);

/// A pin comes twice. The value is the pin's letter.
pub const PIN_TWICE: Text = ("the pin ~ stands twice", "der Stift ~ steht zweimal da");

pub const ITEM_MISSING: Text = ("the item is missing", "der Wert fehlt");

/// A text of the list `bars` isn't the standing of a bar.
pub const NO_STANDING: Text = (
    "~ is no standing: write the places of the two lugs from the left, such as `0L-3` or `1-0R`",
    "~ ist keine Reiterstellung: die Plätze der beiden Reiter schreiben, den linken zuerst, etwa `0L-3` oder `1-0R`",
);

/// A text of the list `rows` isn't a row.
pub const NO_ROW: Text = (
    "~ is no row: write two different numbers from 0 to 6, such as `0-3`, or `0-0`",
    "~ ist keine Reiterstellung: zwei verschiedene Zahlen von 0 bis 6 schreiben, etwa `0-3`, oder `0-0`",
);

pub const OTHER_FORM: Text = (
    "the list has another form",
    "die Liste hat eine andere Form",
);

/// A letter is at both ends of a cable. The values are the letter and the cable.
pub const LETTER_AT_BOTH_ENDS: Text = (
    "the letter ~ is at both ends of ~",
    "der Buchstabe ~ ist an beiden Enden von ~",
);

/// A letter is in two pairs or cables. The values are the letter, and the two pairs or cables as they stand in the
/// file.
pub const LETTER_TWICE: Text = (
    "the letter ~ is in ~ and in ~",
    "der Buchstabe ~ ist in ~ und in ~",
);

/// A cable has more than two letters. The values are the cable, and its number of letters.
pub const MANY_ENDS: Text = (
    "~ has ~ letters, and a cable has two ends",
    "~ hat ~ Buchstaben, und eine Schnur hat zwei Enden",
);

/// A day has fewer pairs, or fewer groups, than another day. The values are the day, its pairs or groups in words, the
/// other day, and the other day's number of pairs or groups.
pub const FEW: Text = (
    "day ~ has ~, and day ~ has ~\n",
    "Tag ~ hat ~, und Tag ~ hat ~\n",
);

/// The word for no pairs or no groups, as in `no pairs`.
pub const NO: Text = ("no", "keine");

/// The nouns for a number of pairs or groups: this text, and the next three texts. Each begins with a space, because
/// the number stands before it.
pub const PAIR: Text = (" pair", " Steckerpaar");

pub const PAIRS: Text = (" pairs", " Steckerpaare");

pub const GROUP: Text = (" group", " Kenngruppe");

pub const GROUPS: Text = (" groups", " Kenngruppen");
