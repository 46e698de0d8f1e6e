//! The fixed texts of a page for typing on a machine. Texts with words are in English and in German. In a template, a
//! value replaces each sign `~`. In the words of the script, a value replaces each `%s`.

use kd_language::Text;

/// The file's title; the machine's model stands in place of `~`. The next text, `POLICY`, is the content security
/// policy. It names, by their SHA-256, the only script and style sheet that the page may use. The last text, `BODY`, is
/// the start of the body.
pub const TITLE: Text = ("~: typing", "~: Tippen");

pub const POLICY: &str =
    "</title>\n<meta http-equiv=Content-Security-Policy content=\"default-src 'none'; script-src 'sha256-hQVoSE9h/N85GXqRhH+Jdm7nTj5nRGwxOpeJh2obuDQ='; style-src 'sha256-1Xs7RBstJAKd++H97kwyJD8TTsEhQ7iDMZTTNFUVyXk='; base-uri 'none'; form-action 'none'\">\n<style>";

pub const BODY: &str = "</style>\n<body>\n";

/// The head of a rotor machine's page; the machine's model stands in place of `~`. The next text is the head of a
/// Converter's page. The windows or wheels follow the head.
pub const ROTOR_HEAD: Text = (
    "<main class=enigma>\n<header><h1>~ <small>Press a key: a lamp shows the letter.</small></h1></header>\n<p id=off>This page needs JavaScript: without it no key works. If this is a preview, open the file in a browser.</p>\n<div>\n<div class=windows role=group aria-label=\"Windows\">\n",
    "<main class=enigma>\n<header><h1>~ <small>Taste drücken: Die Lampe zeigt den Buchstaben.</small></h1></header>\n<p id=off>Diese Seite braucht JavaScript: Ohne JavaScript wirkt keine Taste. Ist dies nur eine Vorschau, die Datei in einem Browser öffnen.</p>\n<div>\n<div class=windows role=group aria-label=\"Fenster\">\n",
);

pub const PIN_HEAD: Text = (
    "<main class=alphabet>\n<header><h1>~ <small>Press a letter: the machine prints one.</small></h1></header>\n<p id=off>This page needs JavaScript: without it no key works. If this is a preview, open the file in a browser.</p>\n<div>\n<div class=windows role=group aria-label=\"Wheels\">\n",
    "<main class=alphabet>\n<header><h1>~ <small>Buchstaben drücken: Die Maschine druckt einen.</small></h1></header>\n<p id=off>Diese Seite braucht JavaScript: Ohne JavaScript wirkt keine Taste. Ist dies nur eine Vorschau, die Datei in einem Browser öffnen.</p>\n<div>\n<div class=windows role=group aria-label=\"Räder\">\n",
);

/// The start of a slot's window. `LETTERS` follows: the letters that can show, the same in all windows. `WINDOW_END` is
/// the end of the window.
pub const WINDOW: Text = (
    "<div class=wheel><button type=button value=1 aria-label=\"slot ~: next letter\">▲</button><label><span>slot ~</span><select autocomplete=off aria-label=\"slot ~: window\">",
    "<div class=wheel><button type=button value=1 aria-label=\"Platz ~: nächster Buchstabe\">▲</button><label><span>Platz ~</span><select autocomplete=off aria-label=\"Platz ~: Fenster\">",
);

pub const LETTERS: &str =
    "<option>A<option>B<option>C<option>D<option>E<option>F<option>G<option>H<option>I<option>J<option>K<option>L<option>M<option>N<option>O<option>P<option>Q<option>R<option>S<option>T<option>U<option>V<option>W<option>X<option>Y<option>Z";

pub const WINDOW_END: Text = (
    "</select><small></small></label><button type=button value=-1 aria-label=\"slot ~: letter before\">▼</button></div>\n",
    "</select><small></small></label><button type=button value=-1 aria-label=\"Platz ~: voriger Buchstabe\">▼</button></div>\n",
);

/// The start of a pin wheel, before its letters. The next two texts are one letter, and the end of the wheel.
pub const WHEEL: Text = (
    "<div class=wheel><button type=button value=1 aria-label=\"wheel ~: next letter\">▲</button><label><span>wheel ~</span><select autocomplete=off aria-label=\"wheel ~: letter\">",
    "<div class=wheel><button type=button value=1 aria-label=\"Rad ~: nächster Buchstabe\">▲</button><label><span>Rad ~</span><select autocomplete=off aria-label=\"Rad ~: Buchstabe\">",
);

pub const LETTER: &str = "<option>~";

pub const WHEEL_END: Text = (
    "</select><small></small></label><button type=button value=-1 aria-label=\"wheel ~: letter before\">▼</button></div>\n",
    "</select><small></small></label><button type=button value=-1 aria-label=\"Rad ~: voriger Buchstabe\">▼</button></div>\n",
);

/// The closing tag of the windows, and then the lamps.
pub const LAMPS: &str =
    "</div>\n<div id=lamps aria-hidden=true>\n<div class=row><b data-lamp=Q><span>Q</span></b><b data-lamp=W><span>W</span></b><b data-lamp=E><span>E</span></b><b data-lamp=R><span>R</span></b><b data-lamp=T><span>T</span></b><b data-lamp=Z><span>Z</span></b><b data-lamp=U><span>U</span></b><b data-lamp=I><span>I</span></b><b data-lamp=O><span>O</span></b></div>\n<div class=row><b data-lamp=A><span>A</span></b><b data-lamp=S><span>S</span></b><b data-lamp=D><span>D</span></b><b data-lamp=F><span>F</span></b><b data-lamp=G><span>G</span></b><b data-lamp=H><span>H</span></b><b data-lamp=J><span>J</span></b><b data-lamp=K><span>K</span></b></div>\n<div class=row><b data-lamp=P><span>P</span></b><b data-lamp=Y><span>Y</span></b><b data-lamp=X><span>X</span></b><b data-lamp=C><span>C</span></b><b data-lamp=V><span>V</span></b><b data-lamp=B><span>B</span></b><b data-lamp=N><span>N</span></b><b data-lamp=M><span>M</span></b><b data-lamp=L><span>L</span></b></div>\n</div>\n";

/// The closing tag of the pin wheels, then the knob, then the field for the last letters on the printed tape.
pub const KNOB: Text = (
    "</div>\n<fieldset class=knob><legend>Knob</legend><label><input type=radio name=knob value=C autocomplete=off checked><span><b>C</b> encipher</span></label><label><input type=radio name=knob value=D autocomplete=off><span><b>D</b> decipher</span></label></fieldset>\n<div id=strip class=strip aria-hidden=true></div>\n",
    "</div>\n<fieldset class=knob><legend>Knopf</legend><label><input type=radio name=knob value=C autocomplete=off checked><span><b>C</b> verschlüsseln</span></label><label><input type=radio name=knob value=D autocomplete=off><span><b>D</b> entschlüsseln</span></label></fieldset>\n<div id=strip class=strip aria-hidden=true></div>\n",
);

/// The line for the page's reports to the user, and the start of the keys. The next text has a rotor machine's keys.
/// The text after it has a Converter's keys.
pub const KEYS: Text = (
    "<p id=told role=status></p>\n<div id=keys role=group aria-label=\"Keys\">\n",
    "<p id=told role=status></p>\n<div id=keys role=group aria-label=\"Tasten\">\n",
);

pub const ROTOR_KEYS: &str =
    "<div class=row><button type=button value=Q><span>Q</span></button><button type=button value=W><span>W</span></button><button type=button value=E><span>E</span></button><button type=button value=R><span>R</span></button><button type=button value=T><span>T</span></button><button type=button value=Z><span>Z</span></button><button type=button value=U><span>U</span></button><button type=button value=I><span>I</span></button><button type=button value=O><span>O</span></button></div>\n<div class=row><button type=button value=A><span>A</span></button><button type=button value=S><span>S</span></button><button type=button value=D><span>D</span></button><button type=button value=F><span>F</span></button><button type=button value=G><span>G</span></button><button type=button value=H><span>H</span></button><button type=button value=J><span>J</span></button><button type=button value=K><span>K</span></button></div>\n<div class=row><button type=button value=P><span>P</span></button><button type=button value=Y><span>Y</span></button><button type=button value=X><span>X</span></button><button type=button value=C><span>C</span></button><button type=button value=V><span>V</span></button><button type=button value=B><span>B</span></button><button type=button value=N><span>N</span></button><button type=button value=M><span>M</span></button><button type=button value=L><span>L</span></button></div>\n";

pub const PIN_KEYS: &str =
    "<div class=row><button type=button value=A><span>A</span></button><button type=button value=B><span>B</span></button><button type=button value=C><span>C</span></button><button type=button value=D><span>D</span></button><button type=button value=E><span>E</span></button><button type=button value=F><span>F</span></button><button type=button value=G><span>G</span></button><button type=button value=H><span>H</span></button><button type=button value=I><span>I</span></button><button type=button value=J><span>J</span></button><button type=button value=K><span>K</span></button><button type=button value=L><span>L</span></button><button type=button value=M><span>M</span></button><button type=button value=N><span>N</span></button><button type=button value=O><span>O</span></button><button type=button value=P><span>P</span></button><button type=button value=Q><span>Q</span></button><button type=button value=R><span>R</span></button><button type=button value=S><span>S</span></button><button type=button value=T><span>T</span></button><button type=button value=U><span>U</span></button><button type=button value=V><span>V</span></button><button type=button value=W><span>W</span></button><button type=button value=X><span>X</span></button><button type=button value=Y><span>Y</span></button><button type=button value=Z><span>Z</span></button></div>\n";

/// The buttons, the tape, and the field for a whole text, on a rotor machine's page. The next text is for a Converter's
/// page.
pub const ROTOR_TAPE: Text = (
    "</div>\n<p class=buttons><button type=button id=undo>Undo</button><button type=button id=back>To the start</button><button type=button id=copy>Copy</button><button type=button id=clear>Clear</button></p>\n</div>\n<section>\n<h2>Tape <small>letters: <b id=count>0</b></small></h2>\n<div id=tape tabindex=0 role=group aria-label=\"Tape\"></div>\n<details id=whole><summary>Type a whole text</summary>\n<textarea id=text aria-label=\"Text\" autocomplete=off spellcheck=false></textarea>\n<button type=button id=go>Type it</button> <span class=note>A to Z; spaces and line ends are left out.</span></details>\n",
    "</div>\n<p class=buttons><button type=button id=undo>Rückgängig</button><button type=button id=back>Zum Anfang</button><button type=button id=copy>Kopieren</button><button type=button id=clear>Löschen</button></p>\n</div>\n<section>\n<h2>Streifen <small>Buchstaben: <b id=count>0</b></small></h2>\n<div id=tape tabindex=0 role=group aria-label=\"Streifen\"></div>\n<details id=whole><summary>Einen ganzen Text eingeben</summary>\n<textarea id=text aria-label=\"Text\" autocomplete=off spellcheck=false></textarea>\n<button type=button id=go>Eintippen</button> <span class=note>A bis Z; Zwischenräume und Zeilenenden fallen weg.</span></details>\n",
);

pub const PIN_TAPE: Text = (
    "</div>\n<p class=buttons><button type=button id=undo>Undo</button><button type=button id=back>To the start</button><button type=button id=copy>Copy</button><button type=button id=clear>Clear</button></p>\n</div>\n<section>\n<h2>Tape <small>letters: <b id=count>0</b></small></h2>\n<div id=tape tabindex=0 role=group aria-label=\"Tape\"></div>\n<details id=whole><summary>Type a whole text</summary>\n<textarea id=text aria-label=\"Text\" autocomplete=off spellcheck=false></textarea>\n<button type=button id=go>Type it</button> <span class=note>A to Z; at C each space becomes Z, and line ends are left out.</span></details>\n",
    "</div>\n<p class=buttons><button type=button id=undo>Rückgängig</button><button type=button id=back>Zum Anfang</button><button type=button id=copy>Kopieren</button><button type=button id=clear>Löschen</button></p>\n</div>\n<section>\n<h2>Streifen <small>Buchstaben: <b id=count>0</b></small></h2>\n<div id=tape tabindex=0 role=group aria-label=\"Streifen\"></div>\n<details id=whole><summary>Einen ganzen Text eingeben</summary>\n<textarea id=text aria-label=\"Text\" autocomplete=off spellcheck=false></textarea>\n<button type=button id=go>Eintippen</button> <span class=note>A bis Z; bei C wird jeder Zwischenraum zu Z, Zeilenenden fallen weg.</span></details>\n",
);

/// The setting of a rotor machine: the words before its reflector and its wheels. The next text is the word before its
/// cables.
pub const ROTOR_SETTING: Text = (
    "<details><summary>How the machine is set</summary><p>At the start, from the left: ",
    "<details><summary>Wie die Maschine eingestellt ist</summary><p>Am Anfang, von links: ",
);

pub const CABLES: Text = (".<br>Cables: ", ".<br>Steckerverbindungen: ");

/// The setting of a Converter: the words before the letters of its wheels. The next three texts stand before the
/// effective pins, before the pins of each wheel, and before the bars. Then come the text of a bar, and the end of the
/// setting.
pub const PIN_SETTING: Text = (
    "<details><summary>How the machine is set</summary><p>Letters at the start: ",
    "<details><summary>Wie die Maschine eingestellt ist</summary><p>Buchstaben am Anfang: ",
);

pub const PINS: Text = (".<br>Effective pins:", ".<br>Wirksame Stifte:");

pub const WHEEL_PINS: Text = ("<br>wheel ~: ", "<br>Rad ~: ");

pub const BARS: Text = ("<br>Bars:", "<br>Stangen:");

pub const BAR: &str = " <b>~-~</b>";

pub const SETTING_END: &str = ".</p></details>\n</section>\n</main>\n";

/// The start of the data for the script, before the letters that the machine shows. The next two texts are the script's
/// words for a rotor machine, and for a Converter. The table stands after these words.
pub const START: &str = "<script type=\"application/json\" id=data>{\"start\": \"";

pub const ROTOR_WORDS: Text = (
    "\", \"words\": {\"lit\": \"Key %s, lamp %s\", \"blank\": \"space\", \"nokey\": \"The machine has no key “%s”: nothing typed.\", \"space\": \"The machine has no key for a space: leave it out.\", \"bad\": \"Nothing typed: character %s is “%s”. Write Ä as AE, ß as SS, numbers in words.\", \"long\": \"Nothing typed: the text has more than 5000 letters.\", \"empty\": \"There is no letter to type.\", \"typed\": \"Letters typed: %s.\", \"undone\": \"Taken back: %s. The windows show %s.\", \"nothing\": \"The tape has no letter.\", \"back\": \"The windows show %s, as in the file.\", \"cleared\": \"The tape is empty.\", \"copied\": \"Letters copied: %s.\", \"byhand\": \"The browser can’t copy. The letters are marked below.\"}}</script>\n<script type=\"text/plain\" id=table>",
    "\", \"words\": {\"lit\": \"Taste %s, Lampe %s\", \"blank\": \"Zwischenraum\", \"nokey\": \"Die Maschine hat keine Taste „%s“: nichts getippt.\", \"space\": \"Die Maschine hat keine Leertaste: Zwischenraum weglassen.\", \"bad\": \"Nichts getippt: Zeichen %s ist „%s“. Ä als AE, ß als SS, Zahlen in Worten schreiben.\", \"long\": \"Nichts getippt: Der Text hat mehr als 5000 Buchstaben.\", \"empty\": \"Es ist kein Buchstabe zu tippen.\", \"typed\": \"Getastete Buchstaben: %s.\", \"undone\": \"Zurückgenommen: %s. Die Fenster zeigen %s.\", \"nothing\": \"Auf dem Streifen steht kein Buchstabe.\", \"back\": \"Die Fenster zeigen %s, wie in der Datei.\", \"cleared\": \"Der Streifen ist leer.\", \"copied\": \"Kopierte Buchstaben: %s.\", \"byhand\": \"Der Browser kann nicht kopieren. Die Buchstaben sind unten markiert.\"}}</script>\n<script type=\"text/plain\" id=table>",
);

pub const PIN_WORDS: Text = (
    "\", \"words\": {\"lit\": \"Letter %s, printed: %s\", \"blank\": \"space\", \"nokey\": \"The machine has no key “%s”: nothing typed.\", \"space\": \"At D a space is left out.\", \"bad\": \"Nothing typed: character %s is “%s”. Write Ä as AE, ß as SS, numbers in words.\", \"long\": \"Nothing typed: the text has more than 5000 letters.\", \"empty\": \"There is no letter to type.\", \"typed\": \"Letters typed: %s.\", \"undone\": \"Taken back: %s. The windows show %s.\", \"nothing\": \"The tape has no letter.\", \"back\": \"The windows show %s, as in the file.\", \"cleared\": \"The tape is empty.\", \"copied\": \"Letters copied: %s.\", \"byhand\": \"The browser can’t copy. The letters are marked below.\"}}</script>\n<script type=\"text/plain\" id=table>",
    "\", \"words\": {\"lit\": \"Buchstabe %s, gedruckt: %s\", \"blank\": \"Zwischenraum\", \"nokey\": \"Die Maschine hat keine Taste „%s“: nichts getippt.\", \"space\": \"Bei D fällt ein Zwischenraum weg.\", \"bad\": \"Nichts getippt: Zeichen %s ist „%s“. Ä als AE, ß als SS, Zahlen in Worten schreiben.\", \"long\": \"Nichts getippt: Der Text hat mehr als 5000 Buchstaben.\", \"empty\": \"Es ist kein Buchstabe zu tippen.\", \"typed\": \"Getastete Buchstaben: %s.\", \"undone\": \"Zurückgenommen: %s. Die Fenster zeigen %s.\", \"nothing\": \"Auf dem Streifen steht kein Buchstabe.\", \"back\": \"Die Fenster zeigen %s, wie in der Datei.\", \"cleared\": \"Der Streifen ist leer.\", \"copied\": \"Kopierte Buchstaben: %s.\", \"byhand\": \"Der Browser kann nicht kopieren. Die Buchstaben sind unten markiert.\"}}</script>\n<script type=\"text/plain\" id=table>",
);

/// The end of the table, and the start of the script. The next text is the end of the script and of the file.
pub const SCRIPT_HEAD: &str = "</script>\n<script>";

pub const FOOT: &str = "</script>\n";
