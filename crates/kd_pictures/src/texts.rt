//! The fixed texts of a page. Texts with words are in English and in German. In a template, each sign `~` stands for a
//! value.

use kd_language::Text;

/// The code of the language, which stands in the file's head.
pub const LANGUAGE: Text = ("en", "de");

/// The head of the file, up to its title. The next text is the style sheet, which stands after the title.
pub const HEAD: &str =
    "<!DOCTYPE html>\n<html lang=~>\n<meta charset=utf-8>\n<meta name=viewport content=\"width=device-width,initial-scale=1\">\n<title>";

pub const STYLE: &str = "</title>
<style>
:root{--ink:#111;--paper:#fff;--soft:#555;--line:#aaa;--in:#0b4f8a;--out:#9a3412}
*{box-sizing:border-box}
body{margin:0;background:var(--paper);color:var(--ink);font:18px/1.35 system-ui,-apple-system,\"Segoe UI\",Roboto,\"Helvetica Neue\",Arial,sans-serif}
main{max-width:50rem;margin:0 auto;padding:16px}
h1{font-size:1.7em;margin:0}
h2{font-size:1.25em;border-top:1px solid;padding-top:.3em;margin:1.2em 0 .3em}
h2.idle{font-size:1em;margin:.4em 0}
small{white-space:nowrap}
h1 small,h2 small,th small{font-weight:400}
h1 small{font-size:.6em}
h2 small{font-size:.8em}
h2.idle small{font-size:1em}
h2 span{display:none}
p{margin:.3em 0}
ul{list-style:none;margin:0;padding:0}
nav li{display:inline-block;margin-right:1.5em}
a{color:inherit}
figure{margin:.5em 0}
.fields{display:flex}
.fields span{flex:1;border-bottom:1px solid;margin:.9em .6em .3em 0}
.fields span,.note,figcaption,caption{font-size:.85em;color:var(--soft);text-align:left}
label{display:block;padding:.2em 0}
li label{padding-left:1.6em;text-indent:-1.6em}
input{-webkit-appearance:none;-moz-appearance:none;appearance:none;width:1.1em;height:1.1em;border:2px solid var(--ink);border-radius:0;margin:0 .4em 0 0;vertical-align:-.15em;background:none}
input:checked{border-width:.55em}
code,pre{font-family:ui-monospace,Consolas,\"DejaVu Sans Mono\",monospace}
code{font-size:.75em;font-weight:400;color:var(--soft);margin-left:.5em;white-space:nowrap}
pre{font-size:1.1em;line-height:1.5;margin:.4em 0;overflow-x:auto}
table{border-collapse:collapse}
th{text-align:left;font-weight:400}
thead th,.plugs th,.pins th,.set th{font-weight:700}
.beside{display:flex;align-items:flex-start}
.beside figure{flex:0 1 60%;min-width:0}
.beside table{flex:1 0 auto}
.plugs tr,.drum tr{border-bottom:1px solid var(--line)}
.plugs td,.plugs th{padding:0 .5em 0 0;white-space:nowrap}
.plugs code{margin-left:.2em;font-size:.65em}
.pins{width:100%;table-layout:fixed;text-align:center}
.pins th{padding-top:.4em}
.pins td{padding:.1em 0;line-height:1.25}
.pins .set{border:2px solid}
.pins small{font-size:.75em}
.pins td small{font-weight:700}
.pins label{padding:0}
.pins input{margin-right:.2em}
.drum{width:100%;table-layout:fixed}
.drum thead th{width:4.8%}
.drum thead th:first-child{width:6.5%}
.drum thead th:last-child{width:auto}
.drum td,.drum th{padding:0;text-align:center}
.drum thead th:last-child,.drum .set td:nth-child(n+10){text-align:left;padding-left:.4em}
.drum label{padding:0}
.drum code{margin-left:.3em;font-size:.7em}
.letters td,.letters th{padding:0 1.1em 0 0;white-space:nowrap;vertical-align:top}
.letters code{margin:0;display:block}
svg{display:block;width:100%;max-width:640px}
text{fill:var(--ink);text-anchor:middle}
.label{text-anchor:start}
.bold,.on{font-weight:700}
.on{fill:var(--paper)}
rect,circle,path{fill:var(--paper);stroke:var(--ink);stroke-width:1.5}
path{fill:none}
rect.set{stroke-width:3.5}
rect.out{stroke-width:4}
path.out,path.in{stroke-width:2.5}
.out{stroke:var(--out)}
.in{stroke:var(--in)}
circle.in{fill:var(--in)}
.free{fill:var(--ink)}
@media screen and (prefers-color-scheme:dark){:root{--ink:#e8e6e1;--paper:#16181b;--soft:#aaa;--line:#666;--in:#8cc8ff;--out:#ffb38a}}
@media screen{article+article{border-top:4px solid;margin-top:2em;padding-top:.6em}}
@media screen and (max-width:760px){.beside{display:block}}
@media screen and (max-width:700px){
body{font-size:16px}
main{padding:10px}
.pins td{font-size:min(13px,3.5vw);vertical-align:bottom}
.pins br{display:none}
.pins .set input,.pins td small{display:block;margin:auto;line-height:1}
.pins td small{font-size:min(.75em,2.2vw)}
.drum td,.drum th{font-size:min(14px,5vw - 5.5px)}
.drum thead th{width:5.2%;font-size:min(12px,3vw)}
.drum thead th:first-child{width:8%}
.drum input{margin-right:.2em}
.drum code{display:block;margin-left:2em}
.letters code{font-size:.55em;white-space:normal}
.letters td,.letters th{padding-right:.3em}
.letters input{margin-right:.1em}
}
@media print{
body{font-size:11pt;line-height:1.2}
main{padding:0;max-width:none}
a{text-decoration:none}
nav{display:none}
.days{display:block;page-break-after:always;break-after:page}
.days p{font-size:1.5em;font-weight:700}
.days li{display:block;margin:.3em 0}
.days li::before{content:\"\";display:inline-block;width:1.1em;height:1.1em;border:2px solid;margin-right:.6em;vertical-align:-.15em}
h1{font-size:1.5em}
figure{margin:.3em 0}
h2{margin:.4em 0 .1em}
p{margin:.1em 0}
pre{line-height:1.25;margin:.15em 0}
.fields span{margin-top:.7em}
section .fields span{margin:.5em .6em .1em 0}
h2.idle{margin:.2em 0}
h2 span{display:inline;float:right;font-weight:400;font-size:11pt;color:var(--soft)}
label{padding-top:.08em;padding-bottom:.08em}
.plugs label{padding:.04em 0}
.drum thead th{width:3.6%}
.drum thead th:first-child{width:7.4%}
.drum td,.drum th{font-size:9.5pt;white-space:nowrap}
.drum code{font-size:.6em}
.wheels svg{width:100mm}
.beside figure{flex-basis:54%}
[id^=day]>section:nth-of-type(1) ul,[id^=day]>section:nth-of-type(5) ul{columns:2;column-gap:.5em}
[id^=day]>section:nth-of-type(5) li code{font-size:.6em;margin-left:.2em}
article:has(.idle){font-size:10.5pt}
article:has(.idle) h2:not(.idle){margin-top:.25em;padding-top:.15em}
article:has(.idle) .wheels svg{width:78mm}
article:has(.idle) .beside figure{flex-basis:41%}
article:has(.idle) .plugs label{padding:0}
article:has(>section:first-of-type>.idle)>.wheels{float:left;margin-right:4mm}
.wheels~section:nth-of-type(-n+2){display:flow-root}
.wheels~section:nth-of-type(3){clear:left}
article+article{page-break-before:always;break-before:page}
h2{page-break-after:avoid;break-after:avoid}
[id^=day]>section:last-child{page-break-before:avoid;break-before:avoid}
[id^=day]>section:last-child,[id^=day]>section:nth-last-child(2),figure,tr,li,pre,.beside,.pins tbody,.drum{page-break-inside:avoid;break-inside:avoid}
}
@page{margin:9mm 12mm}
";

/// Further lines of the style sheet, for key tables and for messages.
pub const MORE_STYLE: &str = ".shown svg{width:110mm;max-width:100%}
.row{display:flex;align-items:flex-end;border-bottom:1px solid var(--line);padding:.4em 0 .2em}
.groups,.row label,.text,.heading b{font-family:ui-monospace,Consolas,\"DejaVu Sans Mono\",monospace}
.groups{display:flex;flex-wrap:wrap;flex:1}
.groups span{flex:0 0 10%;min-width:0}
section>label{padding-left:1.6em;text-indent:-1.6em}
.row b,.row .groups>span>small,.row i{display:block;line-height:1.2}
.groups small,.row i{font-size:.75em;letter-spacing:.2em;text-indent:.1em;font-weight:400;font-style:normal}
.row .groups>span>small{border-top:1px solid;margin:2.3em .6em 0 0;padding-top:.15em}
.row label{flex:0 0 7.2em;padding:0;font-size:.8em;line-height:1.25}
.row label b{display:inline}
.heading span{display:inline-block;margin-right:2em;font-size:.85em;color:var(--soft)}
.heading b{display:block;font-size:1.47em;line-height:1.3;color:var(--ink)}
.form .groups,.text{font-size:1.25em;line-height:1.6}
.letters{word-break:break-all}
.words{white-space:pre-wrap;overflow-wrap:anywhere}
@media screen and (max-width:820px){
.groups span{flex-basis:20%}
.row .groups{row-gap:.6em;font-size:min(1em,5vw - 5px)}
.row .groups>span>small{margin-right:.4em}
.form .groups{font-size:min(1.15em,5.4vw)}
}
@media print{
.sheets{display:block;margin-bottom:.3em}
.next{page-break-before:always;break-before:page}
.row{page-break-inside:avoid;break-inside:avoid}
.row .groups>span>small{margin:2em .4em 0 0}
.row{padding:.25em 0 .1em}
.row label{line-height:1.15}
.shown{margin:.1em 0 .2em}
}
.wide{max-width:75rem}
.month,.keylist{width:100%;text-align:center;line-height:1.2}
.month td,.keylist td,.month tbody th,.keylist tbody th{font-family:ui-monospace,Consolas,\"DejaVu Sans Mono\",monospace;padding:0 .15em;white-space:nowrap}
.month th,.keylist th{text-align:center;font-weight:700;vertical-align:bottom}
.month small{font-size:.7em;color:var(--soft)}
.month tr,.keylist tr{border-bottom:1px solid var(--line)}
.month thead,.keylist thead,.month tbody tr:nth-last-child(5n+6),.keylist tbody tr:nth-child(9n){border-bottom:2px solid var(--ink)}
.keylist thead tr{border:0}
.month colgroup+colgroup{border-left:1px solid var(--line)}
.list{max-width:50rem}
.list h2,.list pre{text-align:center;border:0}
.list pre{font-size:1.4em}
@media screen and (max-width:1150px){
.month,.month thead,.month tbody,.month tr{display:block}
.month tr{text-align:left;padding:.2em 0}
.month th,.month td,.month tbody th{display:inline-block;text-align:left;padding:0 .7em 0 0}
.month tr>:nth-last-child(3){display:block;white-space:normal}
.month tr>:nth-last-child(2){padding-right:1.6em}
}
@media screen and (max-width:700px){
.keylist{font-size:15px}
.list pre{font-size:1em}
}
@media print{
.sheet{page:sheet}
.sheet header{display:flex;align-items:baseline}
.sheet .fields{flex:1;margin:0 0 .2em 1.5em}
.month{font-size:12pt;line-height:13.4pt}
.month thead{line-height:1.15}
.sheet .note{font-size:9.5pt}
.keylist{font-size:14pt;line-height:1.28}
}
@page sheet{size:landscape;margin:10mm 12mm}
";

/// The end of the style sheet, and the beginning of the page's body. The next text is the foot of the file.
pub const BODY: &str = "</style>\n<body>\n<main>\n";

pub const FOOT: &str = "</main>\n";

/// The title of a page or of a file. The name of the key sheet follows it.
/// - `TITLE_DAY`: for one day. Its values are the model and the day.
/// - `TITLE_DAYS`: for several days. Its values are the model, the first day and the last day.
pub const TITLE_DAY: Text = ("~, day ~, ", "~, Tag ~, ");

pub const TITLE_DAYS: Text = ("~, days ~ to ~, ", "~, Tage ~ bis ~, ");

/// The list of the days, in a file with several days. The file's title stands between `NAV` and `NAV_LIST`. An item of
/// the list is `NAV_DAY`: its values are the day, the day again, and the day's number of settings.
pub const NAV: Text = (
    "<nav class=days aria-label=\"Days\">\n<p>",
    "<nav class=days aria-label=\"Tage\">\n<p>",
);

pub const NAV_LIST: &str = "</p>\n<ul>\n";

pub const NAV_DAY: Text = (
    "<li><a href=\"#day-~\">Day ~</a>, ~\n",
    "<li><a href=\"#day-~\">Tag ~</a>, ~\n",
);

pub const NAV_END: &str = "</ul>\n</nav>\n";

/// The number of settings in words: none, one, or several.
pub const NO_SETTINGS: Text = ("nothing to change", "nichts zu ändern");

pub const ONE_SETTING: Text = ("1 setting", "1 Handgriff");

pub const SETTINGS: Text = (" settings", " Handgriffe");

/// The head of a day. The page's title stands between `DAY` and `DAY_TITLED`. The value of `DAY` is the day, and the
/// value of `DAY_TITLED` is the number of settings. `COMPARE_PIN` says what to compare first on a Converter.
pub const DAY: &str = "<article id=day-~>\n<header>\n<h1>";

pub const DAY_TITLED: Text = (
    " <small>~</small></h1>\n<p class=fields><span>Machine</span><span>Date</span><span>Done by</span></p>\n<p>",
    " <small>~</small></h1>\n<p class=fields><span>Maschine</span><span>Datum</span><span>Ausgeführt von</span></p>\n<p>",
);

pub const COMPARE_PIN: Text = (
    "First compare. Framed pins still stand the other way, all others as drawn; the lugs are at ~ and ~.</p>\n</header>\n",
    "Zuerst vergleichen. Umrahmte Stifte stehen noch umgekehrt, alle übrigen wie gezeichnet; die Reiter sind bei ~ und ~.</p>\n</header>\n",
);

pub const DAY_END: &str = "</article>\n";

/// The head of a step. Its first value is always the step's title.
/// - `STEP`: also has the number of settings. The page's title follows.
/// - `PLAIN_STEP`: has no number of settings. The page's title follows.
/// - `IDLE_STEP`: for a step with nothing to do.
pub const STEP: &str = "<section>\n<h2>~ <small>~</small><span>";

pub const PLAIN_STEP: &str = "<section>\n<h2>~<span>";

pub const STEP_TITLED: &str = "</span></h2>\n";

pub const IDLE_STEP: &str = "<section>\n<h2 class=idle>~ <small>~</small></h2>\n</section>\n";

pub const STEP_END: &str = "</section>\n";

/// A list of checkboxes.
pub const LIST: &str = "<ul>\n";

pub const LIST_END: &str = "</ul>\n</section>\n";

/// The paragraph that lists the wheels and the reflector to take out. These parts go into the box before other parts go
/// into the machine.
pub const BOXED: Text = (
    "<p>Take out, into the box:",
    "<p>Herausnehmen, in den Kasten:",
);

pub const BOXED_WHEEL: &str = " <b>~</b>";

pub const BOXED_REFLECTOR: Text = (" reflector <b>~</b>", " Umkehrwalze <b>~</b>");

pub const BOXED_END: &str = "</p>\n";

/// A list of wheels in the box, with their rings.
/// - `BOX_BEFORE`: the start of the list that gives the rings before the settings.
/// - `BOX_AFTER`: the start of the list that gives the rings after the step that sets rings.
/// - `BOX_WHEEL`: an item of the list, for one wheel.
pub const BOX_BEFORE: Text = (
    "<p>Compare these rings in the box, too:",
    "<p>Auch diese Ringe im Kasten vergleichen:",
);

pub const BOX_AFTER: Text = (
    "<p>Rings of the wheels from the box, after this step:",
    "<p>Ringe der Walzen aus dem Kasten nach diesem Schritt:",
);

pub const BOX_WHEEL: &str = " <b>~</b> (~\u{a0}~)";

/// A checkbox for a ring. The values are the wheel, the letter, the letter's number, and the setting's line.
pub const RING: Text = (
    "<li><label><input type=checkbox> wheel <b>~</b>: set the ring to <b>~\u{a0}~</b> <code>~</code></label>\n",
    "<li><label><input type=checkbox> Walze <b>~</b>: Ring auf <b>~\u{a0}~</b> stellen <code>~</code></label>\n",
);

/// A checkbox to put in a wheel from the box, in three pieces.
/// - `SEAT`: the slot, the slot's name, and the wheel.
/// - `BOX_RING`: the letter on which the wheel's ring has to stand, and this letter's number.
/// - `SEAT_END`: the setting's line.
pub const SEAT: Text = (
    "<li><label><input type=checkbox> slot ~, ~: put in wheel <b>~</b>, from the box",
    "<li><label><input type=checkbox> Platz ~, ~: Walze <b>~</b> einsetzen, aus dem Kasten",
);

pub const BOX_RING: Text = (
    ", with its ring at <b>~\u{a0}~</b>",
    ", Ring auf <b>~\u{a0}~</b>",
);

pub const SEAT_END: &str = " <code>~</code></label>\n";

pub const SEAT_FROM: Text = (
    "<li><label><input type=checkbox> slot ~, ~: put in wheel <b>~</b>, from slot ~ <code>~</code></label>\n",
    "<li><label><input type=checkbox> Platz ~, ~: Walze <b>~</b> einsetzen, aus Platz ~ <code>~</code></label>\n",
);

pub const REFLECTOR: Text = (
    "<li><label><input type=checkbox> put in reflector <b>~</b> <code>~</code></label>\n",
    "<li><label><input type=checkbox> Umkehrwalze <b>~</b> einsetzen <code>~</code></label>\n",
);

pub const PLUG: &str = "<td><label><input type=checkbox> <b>~</b> <code>~</code></label>";

/// A checkbox for a pin: the pin's letter, its mark, and `ON` or `OFF`. The words with which all settings of a wheel's
/// pins begin, such as `PIN 3`, stand in the heading above.
pub const PIN: &str = "<label><input type=checkbox><b>~</b><br>~<small>~</small></label>";

pub const ON: Text = ("ON", "EIN");

pub const OFF: Text = ("OFF", "AUS");

/// A checkbox for a lug, in three pieces.
/// - `LUG`: whether it is the bar's left lug or its right lug.
/// - `LUG_FROM`: the lug's old place.
/// - `LUG_END`: the lug's new place, and the setting's line.
pub const LUG: &str = "<td><label><input type=checkbox> ~";

pub const LEFT_LUG: Text = ("left lug", "linker");

pub const RIGHT_LUG: Text = ("right lug", "rechter");

pub const LUG_FROM: Text = (" from ~", " von ~");

pub const LUG_END: Text = (
    " to <b>~</b> <code>~</code></label>",
    " auf <b>~</b> <code>~</code></label>",
);

/// The line of a setting that turns a wheel. The line stands within the checkbox of the window.
pub const TURN: &str = " <code>~</code>";

/// The windows of a rotor machine, each with a checkbox.
pub const WINDOWS: Text = (
    "<p>Set all of them: typing may have turned the wheels.</p>\n<ul>\n",
    "<p>Alle einstellen: Beim Tippen können sich die Walzen gedreht haben.</p>\n<ul>\n",
);

pub const WINDOW_BOX: Text = (
    "<li><label><input type=checkbox> slot ~: turn the wheel until <b>~\u{a0}~</b> shows",
    "<li><label><input type=checkbox> Platz ~: Walze drehen, bis <b>~\u{a0}~</b> erscheint",
);

pub const WINDOW_BOX_END: &str = "</label>\n";

/// The letters of a Converter's wheels, each with a checkbox.
pub const LETTERS: Text = (
    "<p>Set all of them: enciphering may have turned the wheels.</p>\n<table class=letters>\n<tr><th scope=row>Wheel<th scope=col>1<th scope=col>2<th scope=col>3<th scope=col>4<th scope=col>5<th scope=col>6\n<tr><th scope=row>letter",
    "<p>Alle einstellen: Beim Schlüsseln können sich die Räder gedreht haben.</p>\n<table class=letters>\n<tr><th scope=row>Rad<th scope=col>1<th scope=col>2<th scope=col>3<th scope=col>4<th scope=col>5<th scope=col>6\n<tr><th scope=row>Buchstabe",
);

pub const LETTER_BOX: &str = "<td><label><input type=checkbox> <b>~</b>";

pub const LETTER_BOX_END: &str = "</label>";

pub const LETTERS_END: &str = "\n</table>\n</section>\n";

/// The picture of the wheels, before and after the settings, with a title in words. If nothing changes, the picture
/// shows only the wheels after the settings.
pub const WHEELS: Text = (
    "First compare the machine with <i>before</i>; only windows may differ. Thick frames: to set.</p>\n</header>\n<figure class=wheels><svg role=\"img\" viewBox=\"0 0 600 314\"><title>The wheels, from the left. Before: ",
    "Zuerst die Maschine mit <i>vorher</i> vergleichen; nur die Fenster dürfen abweichen. Dick Umrahmtes ist einzustellen.</p>\n</header>\n<figure class=wheels><svg role=\"img\" viewBox=\"0 0 600 314\"><title>Die Walzen, von links. Vorher: ",
);

pub const WHEELS_THEN: Text = (". After: ", ". Nachher: ");

pub const WHEELS_ONCE: Text = (
    "The machine has to stand as shown; only windows may differ.</p>\n</header>\n<figure class=wheels><svg role=\"img\" viewBox=\"0 0 600 150\"><title>The wheels, from the left: ",
    "Die Maschine muss wie gezeigt stehen; nur die Fenster dürfen abweichen.</p>\n</header>\n<figure class=wheels><svg role=\"img\" viewBox=\"0 0 600 150\"><title>Die Walzen, von links: ",
);

pub const TITLE_END: &str = ".</title>\n";

pub const WHEELS_END: &str = "</svg>\n</figure>\n";

/// The words for a reflector, an empty slot, a wheel, a ring, and a window letter.
pub const REFLECTOR_WORDS: Text = ("reflector ~", "Umkehrwalze ~");

pub const EMPTY_WORDS: Text = ("; slot ~: empty", "; Platz ~: leer");

pub const WHEEL_WORDS: Text = ("; slot ~: wheel ~", "; Platz ~: Walze ~");

pub const RING_WORDS: Text = (", ring ~", ", Ring ~");

pub const WINDOW_WORDS: Text = (", window ~", ", Fenster ~");

/// The name and the labels of a band of the picture. `REFLECTOR_SHOWN` draws an old reflector, and `NEW_REFLECTOR` a
/// new one.
pub const BAND: Text = (
    "<text class=\"label bold\" x=\"2\" y=\"~\" font-size=\"20\">~</text>\n<text class=\"label\" x=\"2\" y=\"~\" font-size=\"18\">wheel</text>\n<text class=\"label\" x=\"2\" y=\"~\" font-size=\"18\">ring</text>\n<text class=\"label\" x=\"2\" y=\"~\" font-size=\"18\">window</text>\n<text x=\"134\" y=\"~\" font-size=\"18\">reflector</text>\n",
    "<text class=\"label bold\" x=\"2\" y=\"~\" font-size=\"20\">~</text>\n<text class=\"label\" x=\"2\" y=\"~\" font-size=\"18\">Walze</text>\n<text class=\"label\" x=\"2\" y=\"~\" font-size=\"18\">Ring</text>\n<text class=\"label\" x=\"2\" y=\"~\" font-size=\"18\">Fenster</text>\n<text x=\"134\" y=\"~\" font-size=\"18\">UKW</text>\n",
);

pub const REFLECTOR_SHOWN: &str =
    "<rect x=\"96\" y=\"~\" width=\"76\" height=\"122\"/>\n<text x=\"134\" y=\"~\" font-size=\"20\">~</text>\n";

pub const NEW_REFLECTOR: &str =
    "<rect class=\"set\" x=\"96\" y=\"~\" width=\"76\" height=\"122\"/>\n<text class=\"bold\" x=\"134\" y=\"~\" font-size=\"20\">~</text>\n";

/// The texts for a slot. `EMPTY` draws a slot without a wheel. The next texts come in pairs: for a wheel, for its ring,
/// and for its window. The first text of a pair draws what is old, and the second what is new.
pub const EMPTY: Text = (
    "<text x=\"~\" y=\"~\" font-size=\"18\">slot ~</text>\n<rect x=\"~\" y=\"~\" width=\"96\" height=\"122\"/>\n<text x=\"~\" y=\"~\" font-size=\"20\">empty</text>\n",
    "<text x=\"~\" y=\"~\" font-size=\"18\">Platz ~</text>\n<rect x=\"~\" y=\"~\" width=\"96\" height=\"122\"/>\n<text x=\"~\" y=\"~\" font-size=\"20\">leer</text>\n",
);

pub const WHEEL: Text = (
    "<text x=\"~\" y=\"~\" font-size=\"18\">slot ~</text>\n<rect x=\"~\" y=\"~\" width=\"96\" height=\"122\"/>\n<text x=\"~\" y=\"~\" font-size=\"20\">~</text>\n",
    "<text x=\"~\" y=\"~\" font-size=\"18\">Platz ~</text>\n<rect x=\"~\" y=\"~\" width=\"96\" height=\"122\"/>\n<text x=\"~\" y=\"~\" font-size=\"20\">~</text>\n",
);

pub const NEW_WHEEL: Text = (
    "<text x=\"~\" y=\"~\" font-size=\"18\">slot ~</text>\n<rect class=\"set\" x=\"~\" y=\"~\" width=\"96\" height=\"122\"/>\n<text class=\"bold\" x=\"~\" y=\"~\" font-size=\"20\">~</text>\n",
    "<text x=\"~\" y=\"~\" font-size=\"18\">Platz ~</text>\n<rect class=\"set\" x=\"~\" y=\"~\" width=\"96\" height=\"122\"/>\n<text class=\"bold\" x=\"~\" y=\"~\" font-size=\"20\">~</text>\n",
);

pub const RING_SHOWN: &str = "<text x=\"~\" y=\"~\" font-size=\"20\">~\u{a0}~</text>\n";

pub const NEW_RING: &str =
    "<rect class=\"set\" x=\"~\" y=\"~\" width=\"76\" height=\"28\"/>\n<text class=\"bold\" x=\"~\" y=\"~\" font-size=\"20\">~\u{a0}~</text>\n";

pub const WINDOW: &str =
    "<rect x=\"~\" y=\"~\" width=\"40\" height=\"40\"/>\n<text x=\"~\" y=\"~\" font-size=\"26\">~</text>\n<text x=\"~\" y=\"~\" font-size=\"20\">~</text>\n";

pub const NEW_WINDOW: &str =
    "<rect class=\"set\" x=\"~\" y=\"~\" width=\"40\" height=\"40\"/>\n<text class=\"bold\" x=\"~\" y=\"~\" font-size=\"26\">~</text>\n<text class=\"bold\" x=\"~\" y=\"~\" font-size=\"20\">~</text>\n";

/// The picture of a plugboard. Its title has the cables in words.
pub const BOARD: Text = (
    "<div class=beside><figure><svg role=\"img\" viewBox=\"0 0 560 336\"><title>The plugboard ~. Cables: ",
    "<div class=beside><figure><svg role=\"img\" viewBox=\"0 0 560 336\"><title>Das Steckerbrett ~. Steckerverbindungen: ",
);

pub const CABLE_WORDS: &str = "~ ~-~";

pub const LOOSE_WORDS: &str = "~ ~";

pub const NO_CABLES: Text = ("none", "keine");

pub const BOARD_END: &str = "</svg>\n<figcaption>";

/// The line of a cable, in pieces. In its lane, the line runs level.
/// - `LEFT_HALF`: leads from a socket into the lane.
/// - `RIGHT_HALF`: leads along the lane to a socket.
/// - `OPEN_END`: leads along the lane to an open end.
pub const LEFT_HALF: &str = "<path~ d=\"M~ ~V~Q~ ~ ~ ~";

pub const RIGHT_HALF: &str = "H~Q~ ~ ~ ~V~\"/>\n";

pub const OPEN_END: &str = "H~\"/>\n";

/// A socket: free, or with a plug that stays, a plug to take out, or a plug to put in.
pub const FREE: &str =
    "<text x=\"~\" y=\"~\" font-size=\"22\">~</text>\n<circle class=\"free\" cx=\"~\" cy=\"~\" r=\"4\"/>\n";

pub const STAYS: &str =
    "<text x=\"~\" y=\"~\" font-size=\"22\">~</text>\n<circle cx=\"~\" cy=\"~\" r=\"15\"/>\n<text x=\"~\" y=\"~\" font-size=\"17\">~</text>\n";

pub const GOES_OUT: &str =
    "<text class=\"bold\" x=\"~\" y=\"~\" font-size=\"22\">~</text>\n<rect class=\"out\" x=\"~\" y=\"~\" width=\"30\" height=\"30\"/>\n<text x=\"~\" y=\"~\" font-size=\"17\">~</text>\n";

pub const GOES_IN: &str =
    "<text class=\"bold\" x=\"~\" y=\"~\" font-size=\"22\">~</text>\n<circle class=\"in\" cx=\"~\" cy=\"~\" r=\"15\"/>\n<text class=\"on\" x=\"~\" y=\"~\" font-size=\"17\">~</text>\n";

/// The captions, which say what a plugboard's marks mean. `PLUGS_OUT` and `PLUGS_IN` also have the head of a table of
/// the plugs to move. `PLUG_ROW` is a row of this table, for one cable.
pub const CAPTION_SAME: Text = (
    "After. Circle: stays. Number: the cable’s.</figcaption></figure>\n",
    "Nachher. Kreis: bleibt. Zahl: Nummer der Schnur.</figcaption></figure>\n",
);

pub const PLUGS_OUT: Text = (
    "Before. Square: take out. Circle: stays. Number: the cable’s.</figcaption></figure>\n<table class=plugs>\n<tr><th scope=col>Cable<th scope=col colspan=2>take out at\n",
    "Vorher. Quadrat: ziehen. Kreis: bleibt. Zahl: Nummer der Schnur.</figcaption></figure>\n<table class=plugs>\n<tr><th scope=col>Schnur<th scope=col colspan=2>ziehen bei\n",
);

pub const PLUGS_IN: Text = (
    "After. Disc: put in. Circle: stays. Number: the cable’s.</figcaption></figure>\n<table class=plugs>\n<tr><th scope=col>Cable<th scope=col colspan=2>put in at\n",
    "Nachher. Gefüllter Kreis: stecken. Kreis: bleibt. Zahl: Nummer der Schnur.</figcaption></figure>\n<table class=plugs>\n<tr><th scope=col>Schnur<th scope=col colspan=2>stecken bei\n",
);

pub const PLUG_ROW: &str = "<tr><th scope=row>~";

pub const ROW_END: &str = "\n";

pub const PLUGS_END: &str = "</table>\n";

pub const BOARD_STEP_END: &str = "</div>\n</section>\n";

/// The table of pins.
/// - `PINS`: the table's caption.
/// - `PIN_WHEEL`: the head of a wheel.
/// - `PIN_LINES`: the beginning of all settings lines of the wheel, such as `PIN 3`.
/// - `CELL`, `SET_CELL`: the cell of a pin to leave, and the framed cell of a pin to change.
pub const PINS: Text = (
    "<table class=pins>\n<caption>Pins after: ~ effective, ~ not. Framed pins are to change: ON makes a pin effective, OFF not.</caption>\n",
    "<table class=pins>\n<caption>Stifte nachher: ~ wirksam, ~ unwirksam. Umrahmte Stifte umstellen: EIN macht wirksam, AUS unwirksam.</caption>\n",
);

pub const PIN_WHEEL: Text = (
    "<tbody>\n<tr><th scope=rowgroup colspan=13>Wheel ~ <small>~</small>",
    "<tbody>\n<tr><th scope=rowgroup colspan=13>Rad ~ <small>~</small>",
);

pub const PIN_LINES: &str = " <code>PIN ~</code>";

pub const PIN_ROW: &str = "\n<tr>";

pub const NO_PIN: &str = "<td>";

pub const CELL: &str = "<td>";

pub const SET_CELL: &str = "<td class=set>";

pub const PIN_SHOWN: &str = "~<br>~";

pub const PINS_END: &str = "</table>\n</section>\n";

/// The table of bars: its caption and head, the head of a bar's row, and the cells of a bar's places. A row without a
/// checkbox ends with `NO_BOXES`, a row with one checkbox with `ONE_BOX`, and a row with two with `BOXES`.
pub const DRUM: Text = (
    "<table class=drum>\n<caption>~ a lug stays here, ~ a lug leaves, ~ a lug comes. Move the lugs of a bar in the order shown.</caption>\n<thead>\n<tr><th scope=col>Bar<th scope=col>1<th scope=col>0L<th scope=col>2<th scope=col>3<th scope=col>4<th scope=col>5<th scope=col>0R<th scope=col>6<th scope=col colspan=2>Lugs to move\n<tbody>\n",
    "<table class=drum>\n<caption>~ Reiter bleibt, ~ Reiter geht, ~ Reiter kommt. Die Reiter einer Stange in der gezeigten Reihenfolge versetzen.</caption>\n<thead>\n<tr><th scope=col>Stange<th scope=col>1<th scope=col>0L<th scope=col>2<th scope=col>3<th scope=col>4<th scope=col>5<th scope=col>0R<th scope=col>6<th scope=col colspan=2>Reiter versetzen\n<tbody>\n",
);

pub const BAR: &str = "<tr><th scope=row>~";

pub const SET_BAR: &str = "<tr class=set><th scope=row>~";

pub const NO_LUG: &str = "<td>";

pub const MARKED_LUG: &str = "<td>~";

pub const NO_BOXES: &str = "<td><td>\n";

pub const ONE_BOX: &str = "<td>\n";

pub const BOXES: &str = "\n";

pub const DRUM_END: &str = "</table>\n</section>\n";

/// The test of the machine after the settings: the keys to press, and the letters that light up or are printed. Then
/// come the letters to set again, and the number of settings.
pub const TEST_ROTOR: Text = (
    "<p>Type the alphabet. The lamps have to give the second line:</p>\n<pre>",
    "<p>Das Alphabet eintippen. Die Lampen müssen die zweite Zeile ergeben:</p>\n<pre>",
);

pub const TEST_PIN: Text = (
    "<p>Set the knob to C, and encipher 26 times A. The machine has to print the second line:</p>\n<pre>",
    "<p>Den Knopf auf C stellen und 26-mal A schlüsseln. Die Maschine muss die zweite Zeile drucken:</p>\n<pre>",
);

pub const TEST_LAMPS: &str = "\n<b>";

pub const TEST_END_ROTOR: Text = (
    "</b></pre>\n<p>Then set the windows to <b>",
    "</b></pre>\n<p>Danach die Fenster wieder auf <b>",
);

pub const TEST_END_PIN: Text = (
    "</b></pre>\n<p>Then set the letters to <b>",
    "</b></pre>\n<p>Danach die Räder wieder auf <b>",
);

pub const AGAIN_ROTOR: &str = "~\u{a0}~";

pub const AGAIN_END_ROTOR: Text = (
    "</b> again.</p>\n<p class=fields><span>Windows when put away</span></p>\n",
    "</b> einstellen.</p>\n<p class=fields><span>Buchstaben in den Fenstern beim Wegräumen</span></p>\n",
);

pub const AGAIN_END_PIN: Text = (
    "</b> again.</p>\n<p class=fields><span>Letters when put away</span></p>\n",
    "</b> einstellen.</p>\n<p class=fields><span>Buchstaben beim Wegräumen</span></p>\n",
);

pub const FEWEST: Text = (
    "<p class=note>~; fewer aren’t possible.</p>\n",
    "<p class=note>~; mit weniger geht es nicht.</p>\n",
);

/// The names of the models.
pub const ENIGMA_I: &str = "Enigma I";

pub const ENIGMA_M3: &str = "Enigma M3";

pub const ENIGMA_M4: &str = "Enigma M4";

pub const CONVERTER: &str = "Converter M-209";

/// The titles of the steps.
pub const RINGS_OUT: Text = (
    "1 Rings: wheels out, and back in",
    "1 Ringstellung: Walzen heraus, danach wieder hinein",
);

pub const RINGS: Text = ("1 Rings", "1 Ringstellung");

pub const SEATS: Text = ("2 Wheels and reflector", "2 Walzenlage und Umkehrwalze");

pub const OUT_STEP: Text = ("3 Plugs out", "3 Stecker ziehen");

pub const IN_STEP: Text = ("4 Plugs in", "4 Stecker stecken");

pub const WINDOW_STEP: Text = ("5 Windows", "5 Fenster");

pub const LAMP_STEP: Text = ("6 Test", "6 Probe");

pub const PIN_STEP: Text = ("1 Pins", "1 Stifte");

pub const LUG_STEP: Text = ("2 Lugs", "2 Reiter");

pub const LETTER_STEP: Text = ("3 Letters", "3 Buchstaben");

pub const PRINT_STEP: Text = ("4 Test", "4 Probe");

/// The names of the slots.
pub const GREEK: Text = ("Greek", "Griechenwalze");

pub const LEFT: Text = ("left", "links");

pub const MIDDLE: Text = ("middle", "Mitte");

pub const RIGHT: Text = ("right", "rechts");

/// The names of the two pictures: of the machine before the settings, and after them. The next three texts are the CSS
/// classes of a cable's line: the cable has a plug to take out, a plug to put in, or no plug to move.
pub const BEFORE: Text = ("before", "vorher");

pub const AFTER: Text = ("after", "nachher");

pub const OUT_CLASS: &str = " class=\"out\"";

pub const IN_CLASS: &str = " class=\"in\"";

pub const PLAIN: &str = "";
