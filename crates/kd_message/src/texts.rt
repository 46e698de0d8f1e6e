//! The fixed texts of a message's pages, except the texts of the parts' sheets. Texts with words are in English and in
//! German.

use kd_language::Text;

/// The title of the page for sending; `TITLE_TO_RECEIVE` is the title for receiving. The values are the model and the
/// day.
pub const TITLE_TO_SEND: Text = ("~, day ~: send", "~, Tag ~: Verschlüsseln");

pub const TITLE_TO_RECEIVE: Text = ("~, day ~: receive", "~, Tag ~: Entschlüsseln");

/// The start of the list of the sheets for one part; `LIST_OF_SEVERAL` is the start for several parts.
pub const LIST_OF_ONE: Text = (
    "<nav aria-label=\"Sheets\">\n<ul>\n",
    "<nav aria-label=\"Blätter\">\n<ul>\n",
);

pub const LIST_OF_SEVERAL: Text = (
    "<nav class=sheets aria-label=\"Sheets\">\n<ul>\n",
    "<nav class=sheets aria-label=\"Blätter\">\n<ul>\n",
);

/// A part in the list of the sheets. The values are the number of the part's sheet, the part's number, and the number
/// of parts.
pub const LISTED_PART: Text = (
    "<li><a href=\"#part-~\">Part ~ of ~</a>\n",
    "<li><a href=\"#part-~\">Teil ~ von ~</a>\n",
);

/// A part that isn't read, in the list of the sheets. The values are the part's number and the number of parts.
pub const LISTED_UNREAD: Text = (
    "<li><a href=\"#text\">Part ~ of ~</a>, not read\n",
    "<li><a href=\"#text\">Teil ~ von ~</a>, nicht lesbar\n",
);

/// The words that name a part without a number. The value is the number of the last numbered part before this part.
pub const LONE_AFTER: Text = (
    "A part without a number, after part ~",
    "Ein Teil ohne Nummer, nach Teil ~",
);

/// The words that name a part without a number, if no numbered part comes before it.
pub const LONE_FIRST: Text = (
    "A part without a number, at the beginning",
    "Ein Teil ohne Nummer, am Anfang",
);

/// In the list of the sheets: the markup before the words that name a part without a number. `LISTED_LONE_END` stands
/// after these words.
pub const LISTED_LONE: &str = "<li><a href=\"#text\">";

pub const LISTED_LONE_END: Text = ("</a>, not read\n", "</a>, nicht lesbar\n");

/// On the sheet with the text: the head of a part without a number, up to the words that name the part. `LONE_HEAD_END`
/// stands after these words; its values are the model and the day.
pub const LONE_HEAD: &str = "<section>\n<h2>";

pub const LONE_HEAD_END: Text = (
    "<span>~, day ~: text</span></h2>\n",
    "<span>~, Tag ~: Klartext</span></h2>\n",
);

/// The checkbox to ask for a repetition of a part that has no number.
pub const LONE_ASK: Text = (
    "<label><input type=checkbox> ask for this part again: <b>",
    "<label><input type=checkbox> diesen Teil wiederholen lassen: <b>",
);

/// The start of the link to the form, in the list of the sheets. An order's number may follow.
pub const LISTED_FORM: &str = "<li><a href=\"#form";

/// In the list of the sheets: the rest of the link to the form, and the end of the list.
pub const LIST_END_WITH_FORM: Text = (
    "\">Form</a>\n</ul>\n</nav>\n",
    "\">Funkspruch</a>\n</ul>\n</nav>\n",
);

/// In the list of the sheets: the link to the sheet with the text, and the end of the list.
pub const LIST_END_WITH_TEXT: Text = (
    "<li><a href=\"#text\">Text</a>\n</ul>\n</nav>\n",
    "<li><a href=\"#text\">Klartext</a>\n</ul>\n</nav>\n",
);

/// The head of the sheet with the text; the values are the model and the day. `TEXT_PART` is the head of each part on
/// this sheet; its values are the part's number, the number of parts, the model, and the day.
pub const TEXT_SHEET: Text = (
    "<article id=text class=form>\n<header>\n<h1>~, day ~: text</h1>\n<p class=fields><span>From</span><span>Time</span><span>Read by</span></p>\n</header>\n",
    "<article id=text class=form>\n<header>\n<h1>~, Tag ~: Klartext</h1>\n<p class=fields><span>Von</span><span>Uhrzeit</span><span>Entschlüsselt durch</span></p>\n</header>\n",
);

pub const TEXT_PART: Text = (
    "<section>\n<h2>Part ~ of ~<span>~, day ~: text</span></h2>\n",
    "<section>\n<h2>Teil ~ von ~<span>~, Tag ~: Klartext</span></h2>\n",
);

/// The start of a text whose lines may break between any letters. `TEXT_WORDS` starts a text whose lines break between
/// words. `TEXT_END` ends both.
pub const TEXT_LETTERS: &str = "<p class=\"text letters\">";

pub const TEXT_WORDS: &str = "<p class=\"text words\">";

pub const TEXT_END: &str = "</p>\n";

/// The sign for a letter that is left open: a line to write on.
pub const OPEN_LETTER: &str = "_";

/// The sentence which says that not all of the form was read as it stands. Some lines or blanks were passed over, or
/// tabs or small letters were read as spaces or capitals.
pub const PASSED_OVER: Text = (
    "<p>Some of the form was passed over, or read as what it means: lines before the first heading, blanks in a heading, tabs, small letters.</p>\n",
    "<p>Einiges im Spruch ist übergangen oder gelesen, wie es gemeint ist: Zeilen vor dem ersten Spruchkopf, Leerzeichen in einem Spruchkopf, Tabulatoren, Kleinbuchstaben.</p>\n",
);

/// In the sentence about the order in which the parts came: the words before the parts' numbers. `ORDER_END` stands
/// after the numbers.
pub const ORDER: Text = (
    "<p>The parts came in this order: ",
    "<p>Die Teile kamen in dieser Reihenfolge: ",
);

pub const ORDER_END: Text = (".</p>\n", ".</p>\n");

/// The start of the paragraph which says that the parts aren't of one message. Words on two parts follow, then
/// `SEVERAL_HEADINGS`, the numbers from the headings, and `SEVERAL_END`.
pub const SEVERAL: Text = (
    "<p class=reason><b>Not one message.</b> ",
    "<p class=reason><b>Kein zusammengehöriger Spruch.</b> ",
);

pub const SEVERAL_HEADINGS: Text = (
    ". The headings have these numbers: ",
    ". Die Spruchköpfe haben diese Nummern: ",
);

pub const SEVERAL_END: Text = (
    ". All parts are shown, in the order in which they came.</p>\n",
    ". Alle Teile sind gezeigt, wie sie eingegangen sind.</p>\n",
);

/// The words on two parts that aren't of one message begin with the lines of the form on which the parts begin:
/// `LINES`, a number, `AND_LINE`, and a number. How the parts differ follows.
pub const LINES: Text = ("Lines ", "Zeilen ");

pub const AND_LINE: Text = (" and ", " und ");

pub const TOTALS_DIFFER: Text = (
    ": the headings give different numbers of parts",
    ": Die Spruchköpfe nennen verschiedene Zahlen von Teilen",
);

/// The words before the number of the first group that differs.
pub const GROUP_DIFFERS: Text = (
    ": the parts share a number, but have different letters, first in group ",
    ": Die Teile haben dieselbe Nummer, aber verschiedene Buchstaben, zuerst in Gruppe ",
);

pub const KEYS_DIFFER: Text = (
    ": the parts share a number, but have different keys",
    ": Die Teile haben dieselbe Nummer, aber verschiedene Schlüssel",
);

pub const DAY_DIFFERS: Text = (
    ": the parts share a number, but only one seems to be of another day",
    ": Die Teile haben dieselbe Nummer, aber nur einer scheint von einem anderen Tag zu sein",
);

pub const LENGTH_DIFFERS: Text = (
    ": the parts share a number, but have different lengths",
    ": Die Teile haben dieselbe Nummer, aber verschiedene Längen",
);

pub const LETTERS_LACK: Text = (
    ": the parts share a number, but one lacks letters of the other",
    ": Die Teile haben dieselbe Nummer, aber einem fehlen Buchstaben des anderen",
);

/// The sign between a part's number and the number of parts.
pub const OF_PARTS: &str = "/";

/// In the sentence about how often a part came: the words before the number. `CAME_END` stands after the number.
pub const CAME: Text = ("<p>This part came ", "<p>Dieser Teil kam ");

pub const CAME_END: Text = (
    " times. A letter that one copy lost is taken from another with the same keys and as many letters.</p>\n",
    "-mal. Ein Buchstabe, der in einer Fassung fehlt, ist aus einer anderen mit gleichen Schlüsseln und gleich vielen Buchstaben genommen.</p>\n",
);

/// The checkbox to ask for a repetition. The value is the part's number; the words that follow say what to repeat.
pub const ASK: Text = (
    "<label><input type=checkbox> ask for part ~ again: <b>",
    "<label><input type=checkbox> von Teil ~ wiederholen lassen: <b>",
);

/// The word before a group's number.
pub const GROUP: Text = ("group ", "Gruppe ");

/// The group of an Enigma's part that shows the day. `LIST_GROUPS` is for a Converter.
pub const DAY_GROUP: Text = ("group 1", "Gruppe 1");

pub const LIST_GROUPS: Text = (
    "group 2 and the last group",
    "Gruppe 2 und die letzte Gruppe",
);

/// For several groups in a row: the word before the number of the first group. `TO_GROUP` stands before the number of
/// the last group.
pub const GROUPS: Text = ("groups ", "Gruppen ");

pub const TO_GROUP: Text = (" to ", " bis ");

pub const ITS_HEADING: Text = ("its heading", "Spruchkopf");

pub const ITS_KEYS: Text = (
    "ground and key of its heading",
    "Grundstellung und Schlüssel des Spruchkopfs",
);

/// What to ask for: the letter count in a part's heading. `ITS_COUNT_OR_LINES` asks for this count and, if it is right,
/// for the part's lines.
pub const ITS_COUNT: Text = ("its count", "Buchstabenzahl");

pub const ITS_COUNT_OR_LINES: Text = (
    "its count; if that is right, its lines",
    "Buchstabenzahl; wenn sie stimmt, die Zeilen",
);

pub const ALL_OF_IT: Text = ("all of it", "alles");

/// The end of a checkbox to ask for a repetition.
pub const ASK_END: &str = "</b></label>\n";

/// The start of the paragraph about a part that isn't read. The reason follows, and then `REASON_END`.
pub const UNREAD: Text = (
    "<p class=reason><b>Not read.</b> ",
    "<p class=reason><b>Nicht lesbar.</b> ",
);

pub const REASON_END: &str = "</p>\n";

/// The word before a line's number.
pub const LINE: Text = ("Line ", "Zeile ");

/// From here to `NO_INTERNAL_KEY`: the texts that say what is wrong with a part. Some of them are pieces of one
/// sentence, with values between them.
pub const HEADING_DAMAGED: Text = (
    ": the heading is damaged.",
    ": Der Spruchkopf ist verstümmelt.",
);

/// In the sentence about a damaged heading: the words before the received line. `HEADING_LIKE` stands before an example
/// of a valid heading, and `HEADING_LIKE_END` after it. The examples follow: for three wheels, for four wheels, and for
/// the Converter M-209.
pub const HEADING_CAME: Text = (" It came as “", " Er kam als „");

pub const HEADING_LIKE: Text = ("”, and should be like ", "“ und sollte sein wie ");

pub const HEADING_LIKE_END: Text = (".", ".");

pub const THREE_LETTER_HEADING: &str = "PART 1/2 250 KLM HDT";

pub const FOUR_LETTER_HEADING: &str = "PART 1/2 250 KLMN HDTR";

pub const HEADING_WITHOUT_KEYS: &str = "PART 1/2 520";

pub const IS_ORDER: Text = (
    "This is an order, not a form: it is for curator send.",
    "Das ist ein Auftrag, kein Spruch: Er ist für curator send.",
);

pub const DID_NOT_COME: Text = ("It didn’t come.", "Der Teil ist nicht eingegangen.");

pub const CAME_WITHOUT_NUMBER: Text = (
    "It didn’t come, unless it is a part without a number.",
    "Der Teil ist nicht eingegangen, es sei denn als Teil ohne Nummer.",
);

pub const HEADING_KEY_LOST: Text = (
    ": a letter of the ground or of the key is lost.",
    ": In Grundstellung oder Spruchschlüssel fehlt ein Buchstabe.",
);

pub const BAD_BYTE: Text = (
    "A sign of the body is no letter.",
    "Ein Zeichen des Spruchs ist kein Buchstabe.",
);

/// In the sentence about a wrong sign: the words before the sign's place in its line. `COLON` stands before the sign,
/// and `NO_LETTER` after it. `THIS_SIGN` names a sign that isn't a digit.
pub const LETTER_OF_LINE: Text = (", letter ", ", Buchstabe ");

pub const COLON: &str = ": ";

pub const THIS_SIGN: Text = ("this sign", "dieses Zeichen");

pub const NO_LETTER: Text = (" is no letter.", " ist kein Buchstabe.");

pub const COUNT_WRONG: Text = (
    ": the heading counts ",
    ": Buchstaben nach dem Spruchkopf: ",
);

pub const COUNT_CAME: Text = (", but ", ", eingegangen: ");

pub const COUNT_END: Text = (" came.", ".");

/// The start of the paragraph about a part that is read by count. If the count is damaged, `COUNT_DAMAGED` stands
/// before the number of letters that came, and `COUNT_DAMAGED_END` after it.
pub const BY_COUNT: Text = (
    "<p class=reason><b>Read by the letters that came.</b> ",
    "<p class=reason><b>Gelesen nach den eingegangenen Buchstaben.</b> ",
);

pub const COUNT_DAMAGED: Text = (
    ": the count in the heading is damaged; ",
    ": Die Buchstabenzahl im Spruchkopf ist verstümmelt; eingegangen: ",
);

pub const COUNT_DAMAGED_END: Text = (" letters came.", " Buchstaben.");

/// In the sentence about a group that doesn't have five letters: the words before the group's number. `SHORT_GROUP_END`
/// stands after it.
pub const SHORT_GROUP: Text = (" Group ", " Gruppe ");

pub const SHORT_GROUP_END: Text = (" hasn’t five letters.", " hat nicht fünf Buchstaben.");

/// The start of the sentence which says that each group but the last has five letters. The number of letters that came
/// follows, and then `FULL_GROUPS_END`.
pub const FULL_GROUPS: Text = (
    " Each group but the last has five letters, so ",
    " Jede Gruppe bis auf die letzte hat fünf Buchstaben, also kann ",
);

pub const FULL_GROUPS_END: Text = (" may be right.", " stimmen.");

/// A sentence about a short line begins with this space, since another sentence stands before it. Then come the words
/// for the line, `LINE_HAS`, the number of the line's letters and `FULL_LINE`.
pub const GAP: &str = " ";

pub const LINE_HAS: Text = (" has ", " hat ");

pub const FULL_LINE: Text = (
    " letters where a full line has 50.",
    " Buchstaben, eine volle Zeile hat 50.",
);

pub const COPIES_DIFFER: Text = (
    "The indicators differ at letter ~.",
    "Die Kennbuchstaben weichen bei Buchstabe ~ voneinander ab.",
);

pub const KEY_LETTER_LOST: Text = (
    "Letter ~ of the indicators is lost both times.",
    "Buchstabe ~ der Kennbuchstaben fehlt beide Male.",
);

pub const KEY_NOT_ON_WHEEL: Text = (
    "A letter of the indicators isn’t on its wheel.",
    "Ein Kennbuchstabe ist auf seinem Rad nicht vorhanden.",
);

pub const NO_INTERNAL_KEY: Text = (
    "The indicators give no internal key.",
    "Die Kennbuchstaben ergeben keinen inneren Schlüssel.",
);

/// The start of the sheet with the form for the radio. An order's number follows, if there is one, and then `FORM`.
/// The values of `FORM` are the model and the day.
pub const FORM_ID: &str = "<article id=form";

pub const FORM: Text = (
    " class=form>\n<header>\n<h1>~, day ~: form for the radio</h1>\n<p class=fields><span>To</span><span>From</span><span>Time</span><span>Sent by</span></p>\n</header>\n",
    " class=form>\n<header>\n<h1>~, Tag ~: Funkspruch</h1>\n<p class=fields><span>An</span><span>Von</span><span>Uhrzeit</span><span>Befördert durch</span></p>\n</header>\n",
);

/// The head of a part of the form. It has seven values:
/// - the part's number, the number of parts, the model, and the day
/// - again the part's number and the number of parts
/// - the number of letters
pub const FORM_PART: Text = (
    "<section>\n<h2>Part ~ of ~<span>~, day ~: form for the radio</span></h2>\n<p class=heading><span>part <b>PART ~/~</b></span><span>letters <b>~</b></span>",
    "<section>\n<h2>Teil ~ von ~<span>~, Tag ~: Funkspruch</span></h2>\n<p class=heading><span>Teil <b>PART ~/~</b></span><span>Buchstaben <b>~</b></span>",
);

/// In the heading of a rotor machine's message part: the words before the ground setting. `FORM_KEY` stands before the
/// enciphered message key.
pub const FORM_GROUND: Text = ("<span>ground <b>", "<span>Grundstellung <b>");

pub const FORM_KEY: Text = (
    "</b></span><span>key, enciphered <b>",
    "</b></span><span>Schlüssel, verschlüsselt <b>",
);

/// The end of the keys in a rotor machine's heading. `FORM_GROUPS` begins the groups of a part; `FORM_GROUP` and
/// `FORM_GROUP_END` stand around each group.
pub const FORM_KEY_END: &str = "</b></span>";

pub const FORM_GROUPS: &str = "</p>\n<div class=groups>";

pub const FORM_GROUP: &str = "<span>";

pub const FORM_GROUP_END: &str = "</span>";

/// The note below a rotor machine's message part: group 1 has two fillers, then the group of the day. `FORM_PIN_NOTE`
/// is for a Converter: which groups are indicators.
pub const FORM_ROTOR_NOTE: Text = (
    "</div>\n<p class=note>Group 1: two fillers, then the group of the day.</p>\n</section>\n",
    "</div>\n<p class=note>Gruppe 1: zwei Füllbuchstaben, dann die Kenngruppe des Tages.</p>\n</section>\n",
);

pub const FORM_PIN_NOTE: Text = (
    "</div>\n<p class=note>The first two groups, and the last two: the indicators.</p>\n</section>\n",
    "</div>\n<p class=note>Die ersten zwei und die letzten zwei Gruppen: die Kennbuchstaben.</p>\n</section>\n",
);

/// The end of the sheet with the form, and of the sheet with the text.
pub const ARTICLE_END: &str = "</article>\n";

// ---- A file of several orders.

/// In a file of several orders, the text after `form` in the HTML id of a form's sheet. The value
/// is the order's number.
pub const FORM_NUMBER: &str = "-~";

/// The start of the list of the orders. The values are the model, the day, and the number of orders.
pub const ORDERS: Text = (
    "<nav class=days aria-label=\"Orders\">\n<p>~, day ~: ~ orders</p>\n<ul>\n",
    "<nav class=days aria-label=\"Aufträge\">\n<p>~, Tag ~: ~ Aufträge</p>\n<ul>\n",
);

/// An order in the list of the orders: the text before its name. The value is the order's number. `LISTED_ORDER_END`
/// stands after the name.
pub const LISTED_ORDER: &str = "<li><a href=\"#order-~\">";

pub const LISTED_ORDER_END: &str = "</a>\n";

/// The start of an order's page: the text before the order's name. The value is the order's number. `ORDER_NAME_END`
/// stands after the name.
pub const ORDER_PAGE: &str = "<article id=order-~>\n<h1>";

pub const ORDER_NAME_END: &str = "</h1>\n";

// ---- What is told on standard error.

/// The start of a note about a part. The values are the part's number and the number of parts. `NOTE_ASK` stands before
/// the words that say what to ask for, and `NOTE_END` ends the note. In a note about a part without a number,
/// `ASKED_END` ends these words, and `LINE_END` ends the note.
pub const NOTE_PART: Text = ("Part ~ of ~: ", "Teil ~ von ~: ");

pub const NOTE_ASK: Text = (" Ask for ", " Wiederholen lassen: ");

pub const ASKED_END: &str = ".";

pub const LINE_END: &str = "\n";

pub const NOTE_END: &str = ".\n";

/// The words of a note about lost letters. `NOTE_OTHER_DAY` has the words of a note about a form that may be of another
/// day or network.
pub const NOTE_LOST: Text = ("Letters are lost.", "Buchstaben fehlen.");

pub const NOTE_OTHER_DAY: Text = (
    "The form is another day’s or another network’s, or a letter is wrong.",
    "Der Spruch ist von einem anderen Tag oder aus einem anderen Schlüsselkreis, oder ein Buchstabe ist falsch.",
);

/// The start of the note that the parts aren't of one message. Words on two parts follow.
pub const NOTE_SEVERAL: Text = ("Not one message. ", "Kein zusammengehöriger Spruch. ");
