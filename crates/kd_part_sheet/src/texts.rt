//! The fixed texts of a part's sheet, in English and in German. In a template, each sign `~` stands for a value.

use crate::markup::SECTION_END;
use kd_language::Text;

/// A text of a part's sheet, in four versions. The first two are for a sent part: on a rotor machine, and on a
/// Converter. The other two are for a received part.
pub type SheetText = ((Text, Text), (Text, Text));

/// The head of the sheet. The values are the sheet's number, the model, the day, the part, and the number of parts.
pub const HEAD: SheetText = ((SEND_HEAD, SEND_HEAD), (RECEIVE_HEAD, RECEIVE_HEAD));

const SEND_HEAD: Text = (
    "<article id=part-~>\n<header>\n<h1>~, day ~: send <small>part ~ of ~</small></h1>\n<p class=fields><span>Machine</span><span>Date</span><span>Done by</span></p>\n",
    "<article id=part-~>\n<header>\n<h1>~, Tag ~: Verschlüsseln <small>Teil ~ von ~</small></h1>\n<p class=fields><span>Maschine</span><span>Datum</span><span>Ausgeführt von</span></p>\n",
);

const RECEIVE_HEAD: Text = (
    "<article id=part-~>\n<header>\n<h1>~, day ~: receive <small>part ~ of ~</small></h1>\n<p class=fields><span>Machine</span><span>Date</span><span>Done by</span></p>\n",
    "<article id=part-~>\n<header>\n<h1>~, Tag ~: Entschlüsseln <small>Teil ~ von ~</small></h1>\n<p class=fields><span>Maschine</span><span>Datum</span><span>Ausgeführt von</span></p>\n",
);

/// The explanation of a row's signs.
pub const LEGEND: SheetText = (
    (
        (
            "</p>\n<p>Above the line: press. On it: write the lamp’s letter. Below: what it has to be. Where nothing stands above, copy.<br>A row ends with the letters so far and the windows. If they differ, set the windows as before the row, and begin it again.",
            "</p>\n<p>Über der Linie: tippen. Auf die Linie: den Buchstaben der Lampe schreiben. Darunter: wie er lauten muss. Wo darüber nichts steht: abschreiben.<br>Am Ende der Zeile: Buchstaben bis hier, und Fenster. Weichen sie ab, die Fenster wie vor der Zeile einstellen und die Zeile wiederholen.",
        ),
        (
            "</p>\n<p>Above the line: enter. On it: write what the machine prints. Below: what it has to be. Where nothing stands above, copy.<br>At the start of a step, set the counter to 0. A row ends with the counter and the wheels. If they differ, set both as before the row, and begin it again.",
            "</p>\n<p>Über der Linie: eingeben. Auf die Linie: schreiben, was die Maschine druckt. Darunter: wie es lauten muss. Wo darüber nichts steht: abschreiben.<br>Am Anfang eines Schritts das Zählwerk auf 0 stellen. Am Ende der Zeile: Zählwerk und Räder. Weichen sie ab, beide wie vor der Zeile einstellen und die Zeile wiederholen.",
        ),
    ),
    (
        (
            "</p>\n<p>Above the line: press. On it: write the lamp’s letter. Below: what it has to be. Skip letters in small print above.<br>A row ends with the letters so far and the windows. If they differ, set the windows as before the row, and begin it again.",
            "</p>\n<p>Über der Linie: tippen. Auf die Linie: den Buchstaben der Lampe schreiben. Darunter: wie er lauten muss. Kleingedruckte Buchstaben darüber auslassen.<br>Am Ende der Zeile: Buchstaben bis hier, und Fenster. Weichen sie ab, die Fenster wie vor der Zeile einstellen und die Zeile wiederholen.",
        ),
        (
            "</p>\n<p>Above the line: enter. On it: write what the machine prints. Below: what it has to be. Skip letters in small print above.<br>At the start of a step, set the counter to 0. A row ends with the counter and the wheels. If they differ, set both as before the row, and begin it again.",
            "</p>\n<p>Über der Linie: eingeben. Auf die Linie: schreiben, was die Maschine druckt. Darunter: wie es lauten muss. Kleingedruckte Buchstaben darüber auslassen.<br>Am Anfang eines Schritts das Zählwerk auf 0 stellen. Am Ende der Zeile: Zählwerk und Räder. Weichen sie ab, beide wie vor der Zeile einstellen und die Zeile wiederholen.",
        ),
    ),
);

/// The legend of a worksheet, on which the results are left open.
pub const OPEN_LEGEND: SheetText = (
    (
        (
            "</p>\n<p>Worksheet. Above the line: press. On it: write the lamp’s letter. Where nothing stands above, copy from below.<br>A row ends with the letters so far: write the letters in the windows beside them.",
            "</p>\n<p>Arbeitsblatt. Über der Linie: tippen. Auf die Linie: den Buchstaben der Lampe schreiben. Wo darüber nichts steht: von darunter abschreiben.<br>Am Ende der Zeile: Buchstaben bis hier. Daneben die Buchstaben in den Fenstern schreiben.",
        ),
        (
            "</p>\n<p>Worksheet. Above the line: enter. On it: write what the machine prints. Where nothing stands above, copy from below.<br>At the start of a step, set the counter to 0. A row ends with the counter: write the letters of the wheels beside it.",
            "</p>\n<p>Arbeitsblatt. Über der Linie: eingeben. Auf die Linie: schreiben, was die Maschine druckt. Wo darüber nichts steht: von darunter abschreiben.<br>Am Anfang eines Schritts das Zählwerk auf 0 stellen. Am Ende der Zeile: Zählwerk. Daneben die Buchstaben der Räder schreiben.",
        ),
    ),
    (
        (
            "</p>\n<p>Worksheet. Above the line: press. On it: write the lamp’s letter. Skip letters in small print.<br>A row ends with the letters so far: write the letters in the windows beside them.",
            "</p>\n<p>Arbeitsblatt. Über der Linie: tippen. Auf die Linie: den Buchstaben der Lampe schreiben. Kleingedruckte Buchstaben auslassen.<br>Am Ende der Zeile: Buchstaben bis hier. Daneben die Buchstaben in den Fenstern schreiben.",
        ),
        (
            "</p>\n<p>Worksheet. Above the line: enter. On it: write what the machine prints. Skip letters in small print.<br>At the start of a step, set the counter to 0. A row ends with the counter: write the letters of the wheels beside it.",
            "</p>\n<p>Arbeitsblatt. Über der Linie: eingeben. Auf die Linie: schreiben, was die Maschine druckt. Kleingedruckte Buchstaben auslassen.<br>Am Anfang eines Schritts das Zählwerk auf 0 stellen. Am Ende der Zeile: Zählwerk. Daneben die Buchstaben der Räder schreiben.",
        ),
    ),
);

/// The first step, in which the operator finds the key. The text ends before the picture of the windows. Its values are
/// the model, the day, the part, and the number of parts.
pub const KEY_STEP: SheetText = (
    (
        (
            "</p>\n</header>\n<section>\n<h2>1 Message key<span>~, day ~: send, part ~ of ~</span></h2>\n<label><input type=checkbox> set the windows to the ground</label>\n",
            "</p>\n</header>\n<section>\n<h2>1 Spruchschlüssel<span>~, Tag ~: Verschlüsseln, Teil ~ von ~</span></h2>\n<label><input type=checkbox> Fenster auf die Grundstellung stellen</label>\n",
        ),
        (
            "</p>\n</header>\n<section>\n<h2>1 Internal key<span>~, day ~: send, part ~ of ~</span></h2>\n<label><input type=checkbox> set the knob to <b>C</b></label>\n<label><input type=checkbox> set the wheels to the external letters</label>\n",
            "</p>\n</header>\n<section>\n<h2>1 Innerer Schlüssel<span>~, Tag ~: Verschlüsseln, Teil ~ von ~</span></h2>\n<label><input type=checkbox> Knopf auf <b>C</b> stellen</label>\n<label><input type=checkbox> Räder auf den äußeren Schlüssel stellen</label>\n",
        ),
    ),
    (
        (
            "</p>\n</header>\n<section>\n<h2>1 Message key<span>~, day ~: receive, part ~ of ~</span></h2>\n<label><input type=checkbox> set the windows to the ground from the heading</label>\n",
            "</p>\n</header>\n<section>\n<h2>1 Spruchschlüssel<span>~, Tag ~: Entschlüsseln, Teil ~ von ~</span></h2>\n<label><input type=checkbox> Fenster auf die Grundstellung aus dem Spruchkopf stellen</label>\n",
        ),
        (
            "</p>\n</header>\n<section>\n<h2>1 Internal key<span>~, day ~: receive, part ~ of ~</span></h2>\n<label><input type=checkbox> set the knob to <b>C</b></label>\n<label><input type=checkbox> set the wheels to the external letters</label>\n",
            "</p>\n</header>\n<section>\n<h2>1 Innerer Schlüssel<span>~, Tag ~: Entschlüsseln, Teil ~ von ~</span></h2>\n<label><input type=checkbox> Knopf auf <b>C</b> stellen</label>\n<label><input type=checkbox> Räder auf den äußeren Schlüssel stellen</label>\n",
        ),
    ),
);

/// The words that say what to press to find the key.
pub const KEY_WORDS: SheetText = (
    (
        (
            "<label><input type=checkbox> press the message key: the lamps give the key for the heading</label>\n",
            "<label><input type=checkbox> Spruchschlüssel eintippen: Die Lampen ergeben den Schlüssel für den Spruchkopf</label>\n",
        ),
        CHOICE_WORDS,
    ),
    (
        (
            "<label><input type=checkbox> press the key from the heading: the lamps give the message key</label>\n",
            "<label><input type=checkbox> Schlüssel aus dem Spruchkopf eintippen: Die Lampen ergeben den Spruchschlüssel</label>\n",
        ),
        CHOICE_WORDS,
    ),
);

const CHOICE_WORDS: Text = (
    "<label><input type=checkbox> encipher the chosen letter twelve times</label>\n",
    "<label><input type=checkbox> den gewählten Buchstaben zwölfmal verschlüsseln</label>\n",
);

/// The end of the first step.
pub const KEY_STEP_END: SheetText = ((ROTOR_KEY_END, PIN_KEY_END), (ROTOR_KEY_END, PIN_KEY_END));

const ROTOR_KEY_END: Text = (SECTION_END, SECTION_END);

const PIN_KEY_END: Text = (
    "<p>The wheels 1 to 6 each take the next letter that they have; - strikes a letter out.</p>\n</section>\n",
    "<p>Von links: Jedes Rad nimmt den nächsten Buchstaben, der auf ihm steht. Mit - Bezeichnete streichen.</p>\n</section>\n",
);

/// The second step, for the text. The values are the number of letters, the model, the day, the part, and the number of
/// parts.
pub const TEXT_STEP: SheetText = (
    (
        (
            "<section>\n<h2>2 Text <small>letters in this part: ~</small><span>~, day ~: send, part ~ of ~</span></h2>\n<label><input type=checkbox> set the windows to the message key</label>\n",
            "<section>\n<h2>2 Text <small>Buchstaben in diesem Teil: ~</small><span>~, Tag ~: Verschlüsseln, Teil ~ von ~</span></h2>\n<label><input type=checkbox> Fenster auf den Spruchschlüssel stellen</label>\n",
        ),
        (
            "<section>\n<h2>2 Text <small>letters in this part: ~</small><span>~, day ~: send, part ~ of ~</span></h2>\n<label><input type=checkbox> set the wheels to the internal key</label>\n",
            "<section>\n<h2>2 Text <small>Buchstaben in diesem Teil: ~</small><span>~, Tag ~: Verschlüsseln, Teil ~ von ~</span></h2>\n<label><input type=checkbox> Räder auf den inneren Schlüssel stellen</label>\n",
        ),
    ),
    (
        (
            "<section>\n<h2>2 Text <small>letters in this part: ~</small><span>~, day ~: receive, part ~ of ~</span></h2>\n<label><input type=checkbox> set the windows to the message key</label>\n",
            "<section>\n<h2>2 Text <small>Buchstaben in diesem Teil: ~</small><span>~, Tag ~: Entschlüsseln, Teil ~ von ~</span></h2>\n<label><input type=checkbox> Fenster auf den Spruchschlüssel stellen</label>\n",
        ),
        (
            "<section>\n<h2>2 Text <small>letters in this part: ~</small><span>~, day ~: receive, part ~ of ~</span></h2>\n<label><input type=checkbox> set the knob to <b>D</b></label>\n<label><input type=checkbox> set the wheels to the internal key</label>\n",
            "<section>\n<h2>2 Text <small>Buchstaben in diesem Teil: ~</small><span>~, Tag ~: Entschlüsseln, Teil ~ von ~</span></h2>\n<label><input type=checkbox> Knopf auf <b>D</b> stellen</label>\n<label><input type=checkbox> Räder auf den inneren Schlüssel stellen</label>\n",
        ),
    ),
);

/// The start of the second sheet of paper, on which the second step continues. The values are the model, the day, the
/// part, and the number of parts.
pub const NEXT_STEP: SheetText = (
    (
        (
            "</section>\n<section class=next>\n<h2>2 Text, from letter 251<span>~, day ~: send, part ~ of ~</span></h2>\n",
            "</section>\n<section class=next>\n<h2>2 Text, ab Buchstabe 251<span>~, Tag ~: Verschlüsseln, Teil ~ von ~</span></h2>\n",
        ),
        (
            "</section>\n<section class=next>\n<h2>2 Text, counter at 190<span>~, day ~: send, part ~ of ~</span></h2>\n",
            "</section>\n<section class=next>\n<h2>2 Text, Zählwerk auf 190<span>~, Tag ~: Verschlüsseln, Teil ~ von ~</span></h2>\n",
        ),
    ),
    (
        (
            "</section>\n<section class=next>\n<h2>2 Text, from letter 251<span>~, day ~: receive, part ~ of ~</span></h2>\n",
            "</section>\n<section class=next>\n<h2>2 Text, ab Buchstabe 251<span>~, Tag ~: Entschlüsseln, Teil ~ von ~</span></h2>\n",
        ),
        (
            "</section>\n<section class=next>\n<h2>2 Text, counter at 190<span>~, day ~: receive, part ~ of ~</span></h2>\n",
            "</section>\n<section class=next>\n<h2>2 Text, Zählwerk auf 190<span>~, Tag ~: Entschlüsseln, Teil ~ von ~</span></h2>\n",
        ),
    ),
);

/// The words that say what to do at a lost letter.
pub const LOST_LETTER: SheetText = (
    (ROTOR_LOST_LETTER, PIN_LOST_LETTER),
    (ROTOR_LOST_LETTER, PIN_LOST_LETTER),
);

const ROTOR_LOST_LETTER: Text = (
    "<br>? is a lost letter: press any key for it, and write ?.",
    "<br>? ist ein verlorener Buchstabe: dafür eine beliebige Taste drücken und ? schreiben.",
);

const PIN_LOST_LETTER: Text = (
    "<br>? is a lost letter: enter any letter for it, and write ?.",
    "<br>? ist ein verlorener Buchstabe: dafür einen beliebigen eingeben und ? schreiben.",
);

/// The warning that the form may be from another day or network. `NOT_TESTED` is the warning that the form's day can't
/// be tested, because letters are lost.
pub const WRONG_DAY: SheetText = (
    (ROTOR_WRONG_DAY, PIN_WRONG_DAY),
    (ROTOR_WRONG_DAY, PIN_WRONG_DAY),
);

const ROTOR_WRONG_DAY: Text = (
    "<p>Letters 3 to 5 are no group of the day: the form is another day’s or another network’s, or a letter is wrong.</p>\n",
    "<p>Buchstabe 3 bis 5 sind keine Kenngruppe des Tages: Der Spruch ist von einem anderen Tag oder aus einem anderen Schlüsselkreis, oder ein Buchstabe ist falsch.</p>\n",
);

const PIN_WRONG_DAY: Text = (
    "<p>The list letters aren’t the day’s: the form is another day’s or another network’s, or a letter is wrong.</p>\n",
    "<p>Die Listenbuchstaben sind nicht die des Tages: Der Spruch ist von einem anderen Tag oder aus einem anderen Schlüsselkreis, oder ein Buchstabe ist falsch.</p>\n",
);

pub const NOT_TESTED: SheetText = (
    (ROTOR_NOT_TESTED, PIN_NOT_TESTED),
    (ROTOR_NOT_TESTED, PIN_NOT_TESTED),
);

const ROTOR_NOT_TESTED: Text = (
    "<p>The day isn’t tested: a letter of the group is lost.</p>\n",
    "<p>Der Tag ist nicht geprüft: In der Kenngruppe fehlt ein Buchstabe.</p>\n",
);

const PIN_NOT_TESTED: Text = (
    "<p>The day isn’t tested: a list letter is lost both times.</p>\n",
    "<p>Der Tag ist nicht geprüft: Ein Listenbuchstabe fehlt beide Male.</p>\n",
);

/// The note that says which letters stand for spaces and punctuation. The M4 has `NAVAL_NOTE` instead.
pub const NOTE: SheetText = ((ENIGMA_NOTE, SENT_NOTE), (ENIGMA_NOTE, RECEIVED_NOTE));

const ENIGMA_NOTE: Text = (
    "<p class=note>Spaces aren’t sent. X often stands for a stop, Q for CH. The last group may be short.</p>\n",
    "<p class=note>Zwischenräume werden nicht gesendet. X steht oft für einen Punkt, Q für CH. Die letzte Gruppe kann kürzer sein.</p>\n",
);

const SENT_NOTE: Text = (
    "<p class=note>Each space is sent as Z; a Z of the text comes back as a space, too. X at the end fills the last group.</p>\n",
    "<p class=note>Jeder Zwischenraum wird als Z gesendet; auch ein Z des Textes kommt als Zwischenraum an. X am Ende füllt die letzte Gruppe.</p>\n",
);

const RECEIVED_NOTE: Text = (
    "<p class=note>The machine prints each Z as a space, a Z of a word, too. X at the end fills the last group.</p>\n",
    "<p class=note>Die Maschine druckt jedes Z als Zwischenraum, auch ein Z eines Wortes. X am Ende füllt die letzte Gruppe.</p>\n",
);

pub const NAVAL_NOTE: Text = (
    "<p class=note>Spaces aren’t sent. X often stands for a stop, Y for a comma. The last group may be short.</p>\n",
    "<p class=note>Zwischenräume werden nicht gesendet. X steht oft für einen Punkt, Y für ein Komma. Die letzte Gruppe kann kürzer sein.</p>\n",
);

/// The warning that one copy of a Converter's indicators has letters that the other copy lost.
pub const COPIES_LOST: Text = (
    "<p>The first and the last indicators complete each other.</p>\n",
    "<p>Die ersten und die letzten Kennbuchstaben ergänzen einander.</p>\n",
);

/// The key of the day, to which a rotor machine has to be set: the text up to the wheels. The value is the reflector.
/// `RINGS` stands before the rings, and `CABLES` before the cables.
pub const REFLECTOR: Text = (
    "<p>The machine has to be on the key of the day. Reflector: <b>~</b>. Wheels: <b>",
    "<p>Die Maschine muss auf dem Tagesschlüssel stehen. Umkehrwalze: <b>~</b>. Walzenlage: <b>",
);

pub const RINGS: Text = ("</b>. Rings: <b>", "</b>. Ringstellung: <b>");

pub const CABLES: Text = ("</b>. Cables: <b>", "</b>. Steckerverbindungen: <b>");

pub const NO_CABLES: Text = ("none", "keine");

/// The sentence which says that a Converter must have the day's pins and lugs. The values are the two letters of the
/// day's `list`.
pub const LIST: Text = (
    "<p>Pins and lugs have to be the day’s. List: <b>~~</b>.",
    "<p>Stifte und Reiter müssen auf dem Tagesschlüssel stehen. Liste: <b>~~</b>.",
);

/// The picture of a rotor machine's windows, up to the windows in its title. `WINDOW` is a window in the picture, with
/// its slot.
pub const WINDOWS: Text = (
    "<figure class=shown><svg role=\"img\" viewBox=\"0 0 600 66\"><title>Windows to set, from the left: ",
    "<figure class=shown><svg role=\"img\" viewBox=\"0 0 600 66\"><title>Fenster, von links einzustellen: ",
);

pub const WINDOW: Text = (
    "<text class=\"label\" x=\"~\" y=\"16\" font-size=\"18\">slot ~</text>\n<rect class=\"set\" x=\"~\" y=\"24\" width=\"40\" height=\"40\"/>\n<text class=\"bold\" x=\"~\" y=\"53\" font-size=\"26\">~</text>\n<text class=\"bold\" x=\"~\" y=\"51\" font-size=\"20\">~</text>\n",
    "<text class=\"label\" x=\"~\" y=\"16\" font-size=\"18\">Platz ~</text>\n<rect class=\"set\" x=\"~\" y=\"24\" width=\"40\" height=\"40\"/>\n<text class=\"bold\" x=\"~\" y=\"53\" font-size=\"26\">~</text>\n<text class=\"bold\" x=\"~\" y=\"51\" font-size=\"20\">~</text>\n",
);

/// The picture of a Converter's wheels, up to the wheels in its title.
pub const WHEELS: Text = (
    "<figure class=shown><svg role=\"img\" viewBox=\"0 0 600 66\"><title>Wheels to set, from the left: ",
    "<figure class=shown><svg role=\"img\" viewBox=\"0 0 600 66\"><title>Räder, von links einzustellen: ",
);
