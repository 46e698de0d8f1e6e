//! The fixed texts of a key table. Texts with words are in English and in German. In a template, each sign `~` stands
//! for a value.

use kd_language::Text;

/// The file's title.
pub const TITLE: Text = ("Key table", "Schlüsseltafel");

/// The end of the style sheet, and the beginning of the body. This body is wider than the body of other pages.
pub const WIDE_BODY: &str = "</style>\n<body>\n<main class=wide>\n";

/// The sentence for a sheet without days.
pub const NO_DAYS: Text = (
    "<p>The sheet has no days.</p>\n",
    "<p>Die Schlüsseltafel hat keine Tage.</p>\n",
);

/// The beginning of a month's table, with the model. The next two texts say which days the table has: one day, or the
/// first to the last day.
pub const MONTH: Text = (
    "<article class=sheet>\n<header>\n<h1>~: key table <small>",
    "<article class=sheet>\n<header>\n<h1>~: Schlüsseltafel <small>",
);

pub const ONE_DAY: Text = ("day ~", "Tag ~");

pub const FIRST_TO_LAST: Text = ("days ~ to ~", "Tag ~ bis ~");

/// The head of the columns of a month's table. Wheels and rings have a column for each slot.
pub const COLUMNS: Text = (
    "</small></h1>\n<p class=fields><span>Network</span><span>Month</span><span>Copy</span></p>\n</header>\n<p class=note>After use, cut off the day at the bottom. A\u{a0}01, B\u{a0}02, C\u{a0}03, D\u{a0}04, E\u{a0}05, F\u{a0}06, G\u{a0}07, H\u{a0}08, I\u{a0}09, J\u{a0}10, K\u{a0}11, L\u{a0}12, M\u{a0}13, N\u{a0}14, O\u{a0}15, P\u{a0}16, Q\u{a0}17, R\u{a0}18, S\u{a0}19, T\u{a0}20, U\u{a0}21, V\u{a0}22, W\u{a0}23, X\u{a0}24, Y\u{a0}25, Z\u{a0}26.</p>\n<table class=month>\n<colgroup><colgroup><colgroup span=~><colgroup span=~><colgroup><colgroup><colgroup>\n<thead>\n<tr><th scope=col>Day<br><small lang=de>Tag</small><th scope=col>Reflector<br><small lang=de>Umkehrwalze</small><th scope=col colspan=~>Wheels<br><small lang=de>Walzenlage</small><th scope=col colspan=~>Rings<br><small lang=de>Ringstellung</small><th scope=col>Cables<br><small lang=de>Steckerverbindungen</small><th scope=col>Ground<br><small lang=de>Grundstellung</small><th scope=col>Groups<br><small lang=de>Kenngruppen</small>\n<tbody>\n",
    "</small></h1>\n<p class=fields><span>Schlüsselkreis</span><span>Monat</span><span>Prüfnummer</span></p>\n</header>\n<p class=note>Nach Gebrauch den untersten Tag abschneiden. A\u{a0}01, B\u{a0}02, C\u{a0}03, D\u{a0}04, E\u{a0}05, F\u{a0}06, G\u{a0}07, H\u{a0}08, I\u{a0}09, J\u{a0}10, K\u{a0}11, L\u{a0}12, M\u{a0}13, N\u{a0}14, O\u{a0}15, P\u{a0}16, Q\u{a0}17, R\u{a0}18, S\u{a0}19, T\u{a0}20, U\u{a0}21, V\u{a0}22, W\u{a0}23, X\u{a0}24, Y\u{a0}25, Z\u{a0}26.</p>\n<table class=month>\n<colgroup><colgroup><colgroup span=~><colgroup span=~><colgroup><colgroup><colgroup>\n<thead>\n<tr><th scope=col>Tag<th scope=col>Umkehrwalze<th scope=col colspan=~>Walzenlage<th scope=col colspan=~>Ringstellung<th scope=col>Steckerverbindungen<th scope=col>Grundstellung<th scope=col>Kenngruppen\n<tbody>\n",
);

/// The start of a day's row, with the day's number and the reflector. The next texts are a wheel's cell, a ring's cell,
/// and the start of a cell for cables, ground setting or groups.
pub const ROW: &str = "<tr><th scope=row>~<td>~";

pub const WHEEL: &str = "<td>~";

pub const RING: &str = "<td>~";

pub const CELL: &str = "<td>";

pub const ROW_END: &str = "\n";

pub const MONTH_END: &str = "</table>\n</article>\n";

/// The sign for no cables, or for no groups.
pub const NOTHING: &str = "-";

/// The separator of two words in a cell.
pub const SPACE: &str = " ";

/// The beginning of a Converter's key list, with the model and the day. Then come the two letters that name the list,
/// and `KEY_LIST_COLUMNS`, which names the columns.
pub const KEY_LIST: Text = (
    "<article class=list>\n<header>\n<h1>~, day ~: key list ",
    "<article class=list>\n<header>\n<h1>~, Tag ~: Schlüsselliste ",
);

pub const KEY_LIST_COLUMNS: Text = (
    "</h1>\n<p class=fields><span>Network</span><span>Date</span><span>Copy</span></p>\n</header>\n<table class=keylist>\n<thead>\n<tr><th scope=col rowspan=2>Bar<th scope=col rowspan=2>Lugs<th scope=colgroup colspan=6>Effective pins of wheel\n<tr><th scope=col>1<th scope=col>2<th scope=col>3<th scope=col>4<th scope=col>5<th scope=col>6\n<tbody>\n",
    "</h1>\n<p class=fields><span>Schlüsselkreis</span><span>Datum</span><span>Prüfnummer</span></p>\n</header>\n<table class=keylist>\n<thead>\n<tr><th scope=col rowspan=2>Stange<th scope=col rowspan=2>Reiter<th scope=colgroup colspan=6>Wirksame Stifte von Rad\n<tr><th scope=col>1<th scope=col>2<th scope=col>3<th scope=col>4<th scope=col>5<th scope=col>6\n<tbody>\n",
);

/// The beginning of a bar's row: the bar's number in two digits, and the wheels at the bar's two lugs. `BAR_BELOW_TEN`
/// is for the bars 1 to 9, and `BAR` for all other bars.
pub const BAR_BELOW_TEN: &str = "<tr><th scope=row>0~<td>~-~";

pub const BAR: &str = "<tr><th scope=row>~<td>~-~";

/// The cell of an effective pin, with the pin's letter. The next two texts are the cells for an ineffective pin, and
/// for a place where the wheel has no pin.
pub const EFFECTIVE: &str = "<td>~";

pub const INEFFECTIVE: &str = "<td>-";

pub const NO_PIN: &str = "<td>";

/// The words before the 26-letter check. The next text stands between the check and the day's window letters.
pub const CHECK: Text = (
    "</table>\n<h2>26-letter check</h2>\n<pre><b>",
    "</table>\n<h2>26-Buchstaben-Probe</h2>\n<pre><b>",
);

pub const CHECK_END: Text = (
    "</b></pre>\n<p class=note>Wheels at A A A A A A, knob at C: 26 times A prints the check. Letters of the day: ",
    "</b></pre>\n<p class=note>Räder auf A A A A A A, Knopf auf C: 26-mal A druckt die Probe. Buchstaben des Tages: ",
);

pub const KEY_LIST_END: &str = ".</p>\n</article>\n";

/// The names of the columns of a CSV table. The next text has the names of further columns, for a Converter's key list.
pub const COLUMN_NAMES: &str = "day,model,reflector,wheels,rings,plugs,window,groups";

pub const LIST_COLUMN_NAMES: &str = ",list,pins 1,pins 2,pins 3,pins 4,pins 5,pins 6,bars";

/// The comma between two cells of a CSV table. The next text is the empty cells of a rotor machine's row; a Converter's
/// row has the key list there.
pub const COMMA: &str = ",";

pub const NO_LIST: &str = ",,,,,,,,";

/// The cells of a Converter's day before its window letters: the model, and empty cells. The next text has the empty
/// cell for the groups.
pub const PIN_MODEL: &str = ",M-209,,,,,";

pub const NO_GROUPS: &str = ",,";
