//! The fixed texts of reports, in English and in German. In a template, each sign `~` stands for a value.

use kd_language::Text;

/// The words after a file's name in the first line about a machine file. The next text is for a key sheet.
pub const MACHINE_FILE: Text = (
    ": a machine file without a fault\n",
    ": eine Maschinendatei ohne Fehler\n",
);

pub const KEY_SHEET: Text = (
    ": a key sheet without a fault\n",
    ": eine Schlüsseltafel ohne Fehler\n",
);

/// The word before a machine's model. The next text stands before a machine's reflector.
pub const MODEL: Text = ("model ", "Modell ");

pub const REFLECTOR: Text = ("reflector ", "Umkehrwalze ");

/// What a slot is called in a line about a machine. The next three texts are for cables, pin wheels and bars.
pub const SLOT: Text = ("slot", "Platz");

pub const CABLE: Text = ("cable", "Schnur");

pub const PIN_WHEEL: Text = ("wheel", "Rad");

pub const BAR: Text = ("bar", "Stange");

/// In a slot's line, the word before the wheel. The next two texts stand before its ring and its window letter. Then
/// comes the text for a slot without a wheel.
pub const WHEEL: Text = ("wheel ", "Walze ");

pub const RING: Text = (", ring ", ", Ring ");

pub const WINDOW: Text = (", window ", ", Fenster ");

pub const EMPTY: Text = ("empty\n", "leer\n");

/// The end of the line of a cable with one letter.
pub const FREE_END: Text = (", one end free\n", ", ein Ende frei\n");

/// In a pin wheel's line, the word before the letter that the wheel shows. The next text stands before the letters of
/// the effective pins.
pub const SHOWN: Text = ("window ", "Fenster ");

pub const PINS: Text = (", effective pins:", ", wirksame Stifte:");

/// In a line for days, the words before a single day. The next two texts stand before the first and the last of several
/// days, as in `M3: days 4 to 9`.
pub const DAY: Text = (": day ", ": Tag ");

pub const FIRST_DAY: Text = (": days ", ": Tage ");

pub const LAST_DAY: Text = (" to ", " bis ");

/// The title of the lines for days without groups.
pub const WITHOUT_GROUPS: Text = ("without groups", "ohne Kenngruppen");

/// The words after a file's name in the warning about a byte order mark.
pub const MARK: Text = (
    ": warning: the file begins with a byte order mark, which the desk passes over\n",
    ": Warnung: die Datei beginnt mit einer Bytereihenfolge-Markierung; desk übergeht sie\n",
);

/// The words after a file's name in a warning about two days. In English, an `s` follows: `days 3 and 5`.
pub const DAY_WARNING: Text = (": warning: day", ": Warnung: Tag");

/// The end of the warning that two days differ only in their numbers, after `DAY_WARNING`. The values are these
/// numbers.
pub const ALIKE: Text = (
    "s ~ and ~ are alike but for the number",
    " ~ und Tag ~ sind bis auf die Nummer gleich",
);

/// The warning that a key sheet has no day for a machine. The values are the name of the machine's file, the name of
/// the sheet's file, and the model.
pub const NO_DAY: Text = (
    "~: warning: ~ has no day for ~\n",
    "~: Warnung: ~ hat keinen Tag für ~\n",
);

/// The machine in words such as `for a Converter M-209`; the German text is in the accusative. The next text names
/// both models whose messages look alike. The texts for the other models are in `kd_slips`.
pub const CONVERTER: Text = ("a Converter M-209", "einen Converter M-209");

pub const ENIGMA_I_OR_M3: Text = ("an Enigma I or an M3", "eine Enigma I oder eine M3");

/// The first lines about an order without a fault. The next text is for a form. The values are the file's name and the
/// model.
pub const ORDER: Text = (
    "~: an order for ~, without a fault in its lines, its letters and its number of parts\nnot looked at: whether its keys suit the day\n",
    "~: ein Auftrag für ~, ohne Fehler in Zeilen, Buchstaben und Zahl der Teile\nnicht geprüft: ob die Schlüssel zum Tag passen\n",
);

pub const FORM: Text = (
    "~: a form for ~, without a fault in its headings, its signs and its counts\nnot looked at: whether its groups and indicators suit the day\n",
    "~: ein Formular für ~, ohne Fehler in Spruchköpfen, Zeichen und Buchstabenzahlen\nnicht geprüft: ob Kenngruppen und Kennbuchstaben zum Tag passen\n",
);

/// The words before the number of a message's parts. The next text stands before the number of letters in an order's
/// text.
pub const PARTS: Text = ("parts: ", "Teile: ");

pub const LETTERS: Text = ("letters of text: ", "Buchstaben des Textes: ");

/// The line about a part's group. The values are the part's number and the group.
pub const GROUP: Text = ("part ~: group ~\n", "Teil ~: Kenngruppe ~\n");

/// The line that names a day with a part's group. The values are, in this order: the message's file, the part's number,
/// the group, the day's number, and the sheet's file.
pub const GROUP_DAY: Text = (
    "~: part ~: group ~ is of day ~ in ~\n",
    "~: Teil ~: Kenngruppe ~ gehört zu Tag ~ in ~\n",
);

/// The warning that no day has a part's group. The values are, in this order: the message's file, the part's number,
/// the sheet's file, and the group.
pub const NO_GROUP: Text = (
    "~: warning: part ~: no day for such a machine in ~ has the group ~\n",
    "~: Warnung: Teil ~: in ~ hat kein Tag für eine solche Maschine die Kenngruppe ~\n",
);

/// What is wrong with an order or a form: this text, and the texts after it up to `BODY_COUNT`. Each is named after a
/// `Reason`.
pub const ORDER_ENDS: Text = (
    "the order ends before its text; above the text stands the line `TEXT`",
    "der Auftrag endet vor seinem Text; über dem Text steht die Zeile `TEXT`",
);

pub const LINE_GOES_ON: Text = ("the line has to end here", "die Zeile muss hier enden");

pub const LINE_START: Text = (
    "a line of keys begins with `PART `, and above the text stands the line `TEXT`",
    "eine Schlüsselzeile beginnt mit `PART `, und über dem Text steht die Zeile `TEXT`",
);

pub const OFF_WHEEL: Text = (
    "this letter isn't on its pin wheel",
    "dieser Buchstabe ist auf seinem Rad nicht vorhanden",
);

pub const TEXT_SIGN: Text = (
    "a text has only capital letters and spaces",
    "ein Text hat nur Großbuchstaben und Leerzeichen",
);

pub const NO_LETTER: Text = ("the text has no letter", "der Text hat keinen Buchstaben");

pub const FEW_KEYS: Text = (
    "the text needs more parts than there are lines of keys",
    "der Text braucht mehr Teile, als es Schlüsselzeilen gibt",
);

pub const MANY_KEYS: Text = (
    "the text needs fewer parts than there are lines of keys",
    "der Text braucht weniger Teile, als es Schlüsselzeilen gibt",
);

pub const HEADING_NUMBER: Text = (
    "a number belongs here, without a zero in front",
    "hier gehört eine Zahl hin, ohne Null davor",
);

pub const HEADING_SLASH: Text = (
    "a slash belongs here, as in `PART 1/2`",
    "hier gehört ein Schrägstrich hin, wie in `PART 1/2`",
);

pub const HEADING_PARTS: Text = (
    "the part's number is above the number of parts, or there are more than 99",
    "die Nummer des Teils ist größer als die Zahl der Teile, oder diese ist größer als 99",
);

pub const HEADING_COUNT: Text = (
    "no part of this machine has this number of letters",
    "kein Teil dieser Maschine hat diese Buchstabenzahl",
);

pub const HEADING_LETTER: Text = (
    "a capital letter belongs here, of the ground or of the enciphered key",
    "hier gehört ein Großbuchstabe der Grundstellung oder des verschlüsselten Spruchschlüssels hin",
);

pub const HEADING_SPACE: Text = ("a space belongs here", "hier gehört ein Leerzeichen hin");

pub const PARTS_MIXED: Text = (
    "this part stands at the wrong place, or belongs to another form",
    "dieser Teil steht an der falschen Stelle oder gehört zu einem anderen Formular",
);

pub const PARTS_MISSING: Text = (
    "the form has fewer parts than its headings say",
    "das Formular hat weniger Teile, als seine Spruchköpfe angeben",
);

pub const BODY_SIGN: Text = (
    "a body has only capital letters and spaces",
    "unter einem Spruchkopf stehen nur Großbuchstaben und Leerzeichen",
);

pub const BODY_COUNT: Text = (
    "this part has more or fewer letters than its heading says",
    "dieser Teil hat mehr oder weniger Buchstaben, als sein Spruchkopf angibt",
);

/// A letter is missing in a line of keys: this text, and the next two texts. Then come the texts for a missing space.
/// Each has an example of a right line, for three slots, for four slots, or for a Converter.
pub const LETTER_FOR_THREE: Text = (
    "a capital letter belongs here, as in `PART AAA AAA QX UGZ`",
    "hier gehört ein Großbuchstabe hin, wie in `PART AAA AAA QX UGZ`",
);

pub const LETTER_FOR_FOUR: Text = (
    "a capital letter belongs here, as in `PART AAAA AAAA QX UGZ`",
    "hier gehört ein Großbuchstabe hin, wie in `PART AAAA AAAA QX UGZ`",
);

pub const LETTER_FOR_CONVERTER: Text = (
    "a capital letter belongs here, as in `PART T ABCDEF`",
    "hier gehört ein Großbuchstabe hin, wie in `PART T ABCDEF`",
);

pub const SPACE_FOR_THREE: Text = (
    "a space belongs here, as in `PART AAA AAA QX UGZ`",
    "hier gehört ein Leerzeichen hin, wie in `PART AAA AAA QX UGZ`",
);

pub const SPACE_FOR_FOUR: Text = (
    "a space belongs here, as in `PART AAAA AAAA QX UGZ`",
    "hier gehört ein Leerzeichen hin, wie in `PART AAAA AAAA QX UGZ`",
);

pub const SPACE_FOR_CONVERTER: Text = (
    "a space belongs here, as in `PART T ABCDEF`",
    "hier gehört ein Leerzeichen hin, wie in `PART T ABCDEF`",
);
