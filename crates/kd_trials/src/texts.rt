//! Machine files, sheets and cards as texts.

/// An Enigma I with reflector B, the wheels I, II and III in the slots, and all rings and letters A.
pub const M1: &str = "version = 1
model = \"Enigma I\"
reflector = \"B\"
slots = [\"I\", \"II\", \"III\"]
rings = \"AAAAA\"
letters = \"AAAAA\"
";

/// `M1` as the desk writes it, with its empty cables.
pub const M1_WRITTEN: &str = "version = 1
model = \"Enigma I\"
reflector = \"B\"
slots = [\"I\", \"II\", \"III\"]
rings = \"AAAAA\"
letters = \"AAAAA\"
cables = [\"\", \"\", \"\", \"\", \"\", \"\", \"\", \"\", \"\", \"\", \"\", \"\", \"\"]
";

/// An Enigma I with ten cables, some of them plugged with the later letter first.
pub const TEN_CABLES: &str = "version = 1
model = \"Enigma I\"
reflector = \"B\"
slots = [\"II\", \"IV\", \"V\"]
rings = \"ABAUL\"
letters = \"ABALA\"
cables = [\"AV\", \"SB\", \"CG\", \"DL\", \"FU\", \"HZ\", \"IN\", \"MK\", \"OW\", \"RX\"]
";

/// `TEN_CABLES` as the desk writes it.
pub const TEN_CABLES_WRITTEN: &str = "version = 1
model = \"Enigma I\"
reflector = \"B\"
slots = [\"II\", \"IV\", \"V\"]
rings = \"ABAUL\"
letters = \"ABALA\"
cables = [\"AV\", \"BS\", \"CG\", \"DL\", \"FU\", \"HZ\", \"IN\", \"KM\", \"OW\", \"RX\", \"\", \"\", \"\"]
";

/// A Converter M-209 with the pins P of wheel 1 and O of wheel 2, and bar 1 at 1-2.
pub const M209: &str = "version = 1
model = \"M-209\"
letters = \"AAAAAA\"
pins = [\"P\", \"O\", \"\", \"\", \"\", \"\"]
bars = [\"1-2\", \"0L-0R\", \"0L-0R\", \"0L-0R\", \"0L-0R\", \"0L-0R\", \"0L-0R\", \"0L-0R\", \"0L-0R\", \"0L-0R\", \"0L-0R\", \"0L-0R\", \"0L-0R\", \"0L-0R\", \"0L-0R\", \"0L-0R\", \"0L-0R\", \"0L-0R\", \"0L-0R\", \"0L-0R\", \"0L-0R\", \"0L-0R\", \"0L-0R\", \"0L-0R\", \"0L-0R\", \"0L-0R\", \"0L-0R\"]
";

/// An M4 with all rings and letters A, and no cables: its thin reflector b with Beta at A acts as B.
pub const M4_AS_ENIGMA: &str = "version = 2
model = \"M4\"
reflector = \"b\"
slots = [\"Beta\", \"I\", \"II\", \"III\"]
rings = \"AAAAAAAAAA\"
letters = \"AAAAAAAAAA\"
";

/// An M4 with ten cables.
pub const M4: &str = "version = 2
model = \"M4\"
reflector = \"b\"
slots = [\"Beta\", \"II\", \"IV\", \"I\"]
rings = \"VAAAAAAAAA\"
letters = \"AJANAAAAVA\"
cables = [\"AT\", \"BL\", \"DF\", \"GJ\", \"HM\", \"NW\", \"OP\", \"QY\", \"RZ\", \"VX\", \"\", \"\", \"\"]
";

/// A Converter M-209 on which the first wheel moves all bars if its acting pin is effective.
pub const ALL_MET: &str = "version = 1
model = \"M-209\"
letters = \"AAAAAA\"
pins = [\"P\", \"\", \"\", \"\", \"\", \"\"]
bars = [\"1-0L\", \"1-0L\", \"1-0L\", \"1-0L\", \"1-0L\", \"1-0L\", \"1-0L\", \"1-0L\", \"1-0L\",
    \"1-0L\", \"1-0L\", \"1-0L\", \"1-0L\", \"1-0L\", \"1-0L\", \"1-0L\", \"1-0L\", \"1-0L\",
    \"1-0L\", \"1-0L\", \"1-0L\", \"1-0L\", \"1-0L\", \"1-0L\", \"1-0L\", \"1-0L\", \"1-0L\",
]
";

/// A Converter M-209 without effective pins, whose lugs are all at the zeros.
pub const WITHOUT_PINS: &str = "version = 1
model = \"M-209\"
letters = \"AAAAAA\"
pins = [\"\", \"\", \"\", \"\", \"\", \"\"]
bars = [\"0L-0R\", \"0L-0R\", \"0L-0R\", \"0L-0R\", \"0L-0R\", \"0L-0R\", \"0L-0R\", \"0L-0R\", \"0L-0R\",
    \"0L-0R\", \"0L-0R\", \"0L-0R\", \"0L-0R\", \"0L-0R\", \"0L-0R\", \"0L-0R\", \"0L-0R\", \"0L-0R\",
    \"0L-0R\", \"0L-0R\", \"0L-0R\", \"0L-0R\", \"0L-0R\", \"0L-0R\", \"0L-0R\", \"0L-0R\", \"0L-0R\",
]
";

/// A day with the settings of `M1`.
pub const PLAIN_DAY: &str = "[[day]]
day = 1
model = \"Enigma I\"
reflector = \"B\"
wheels = [\"I\", \"II\", \"III\"]
rings = \"AAA\"
window = \"AAA\"
plugs = []
groups = [\"ZUG\"]
";

/// The day of a message that was sent on the eastern front in July 1941, on the machine with ten cables.
pub const DAY_OF_1941: &str = "[[day]]
day = 1
model = \"Enigma I\"
reflector = \"B\"
wheels = [\"II\", \"IV\", \"V\"]
rings = [2, 21, 12]
window = \"BLA\"
plugs = [\"AV\", \"BS\", \"CG\", \"DL\", \"FU\", \"HZ\", \"IN\", \"KM\", \"OW\", \"RX\"]
groups = [\"UGZ\"]
";

/// A day with the settings of `M4_AS_ENIGMA`.
pub const DAY_OF_M4: &str = "[[day]]
day = 1
model = \"M4\"
reflector = \"b\"
wheels = [\"Beta\", \"I\", \"II\", \"III\"]
rings = \"AAAA\"
window = \"AAAA\"
plugs = []
groups = [\"ZUG\"]
";

/// A day with the settings of `WITHOUT_PINS`.
pub const DAY_WITHOUT_PINS: &str = "[[day]]
day = 1
model = \"M-209\"
pins = [\"\", \"\", \"\", \"\", \"\", \"\"]
rows = [\"0-0\", \"0-0\", \"0-0\", \"0-0\", \"0-0\", \"0-0\", \"0-0\", \"0-0\", \"0-0\",
    \"0-0\", \"0-0\", \"0-0\", \"0-0\", \"0-0\", \"0-0\", \"0-0\", \"0-0\", \"0-0\",
    \"0-0\", \"0-0\", \"0-0\", \"0-0\", \"0-0\", \"0-0\", \"0-0\", \"0-0\", \"0-0\",
]
window = \"AAAAAA\"
list = \"QV\"
";

/// A day with the settings of `ALL_MET`.
pub const DAY_OF_ALL_MET: &str = "[[day]]
day = 1
model = \"M-209\"
pins = [\"P\", \"\", \"\", \"\", \"\", \"\"]
rows = [\"0-1\", \"0-1\", \"0-1\", \"0-1\", \"0-1\", \"0-1\", \"0-1\", \"0-1\", \"0-1\",
    \"0-1\", \"0-1\", \"0-1\", \"0-1\", \"0-1\", \"0-1\", \"0-1\", \"0-1\", \"0-1\",
    \"0-1\", \"0-1\", \"0-1\", \"0-1\", \"0-1\", \"0-1\", \"0-1\", \"0-1\", \"0-1\",
]
window = \"AAAAAA\"
list = \"QV\"
";

/// A card that makes cables AB and CD the pairs BC and DE.
pub const TWO_CABLES: &str = "CARD 1 DAY 8
PULL 1 A
PULL 2 C
PUT 1 C
PUT 2 E
SETTINGS 4
CABLES 2 2 0 0 0 0 0 0 0 0 0 0 0
PAIRS 0 0 0 0 0 0 0 0 0 0 0 0 0
SUM 4
";

/// A card that moves one lug.
pub const ONE_LUG: &str = "CARD 1 DAY 9
LUG 1 R 6
SETTINGS 1
BARS 1 1 0 0 0 0 0 0 0 0 0 0 0 0 0 0 0 0 0 0 0 0 0 0 0 0 0
ROWS -1 0 0 0 0 0 0 0 0 0 0 0 0 0 0 0 0 0 0 0 0 0 0 0 0 0 0
SUM 1
";

/// A card without settings.
pub const NO_SETTINGS: &str = "CARD 1 DAY 11
SETTINGS 0
CABLES 0 0 0 0 0 0 0 0 0 0 0 0 0
PAIRS 0 0 0 0 0 0 0 0 0 0 0 0 0
SUM 0
";

/// `TWO_CABLES` with prices by kind.
pub const TWO_CABLE_KINDS: &str = "CARD 2 DAY 8
PULL 1 A
PULL 2 C
PUT 1 C
PUT 2 E
SETTINGS 4
CABLE AB 1 2
CABLE CD 1 2
CABLE - 11 0
PAIR BC 1 0
PAIR DE 1 0
PAIR - 11 0
SUM 4
";

/// A card that moves one lug, with prices by kind.
pub const BAR_KINDS: &str = "CARD 2 DAY 9
LUG 1 R 6
SETTINGS 1
BAR 0L-3 1 1
BAR 0L-0R 25 0
BAR 3-0R 1 1
ROW 0-0 25 0
ROW 0-3 1 -1
ROW 3-6 1 0
SUM 1
";

/// A card without settings, with prices by kind.
pub const EMPTY_KINDS: &str = "CARD 2 DAY 11
SETTINGS 0
CABLE - 13 0
PAIR - 13 0
SUM 0
";

/// A card with prices by kind for bars of one kind and rows of one kind.
pub const ALIKE_BARS: &str = "CARD 2 DAY 13
SETTINGS 0
BAR 1-2 27 2
ROW 3-4 27 0
SUM 54
";

/// A card with prices by kind, for cables with one letter and with two. Kinds are in a dictionary's order.
pub const HALF_CABLES: &str = "CARD 2 DAY 31
SETTINGS 0
CABLE A 1 -9999
CABLE AB 1 9999
CABLE B 1 0
CABLE BC 1 0
CABLE YZ 1 0
CABLE Z 1 0
CABLE - 7 0
PAIR AB 12 0
PAIR YZ 1 -12
SUM -12
";

/// A card on which a bar has the highest price allowed and a row the lowest; their sum is 0.
pub const HIGHEST: &str = "CARD 1 DAY 9
LUG 1 R 6
SETTINGS 1
BARS 9999 0 0 0 0 0 0 0 0 0 0 0 0 0 0 0 0 0 0 0 0 0 0 0 0 0 0
ROWS -9999 0 0 0 0 0 0 0 0 0 0 0 0 0 0 0 0 0 0 0 0 0 0 0 0 0 0
SUM 0
";

/// A Converter M-209 without effective pins, whose bars have different standings.
pub const UNLIKE_BARS: &str = "version = 1
model = \"M-209\"
letters = \"AAAAAA\"
pins = [\"\", \"\", \"\", \"\", \"\", \"\"]
bars = [
    \"1-0L\", \"1-2\", \"1-3\", \"1-4\", \"1-5\", \"1-0R\", \"1-6\", \"0L-2\", \"0L-3\",
    \"0L-4\", \"0L-5\", \"0L-0R\", \"0L-6\", \"2-3\", \"2-4\", \"2-5\", \"2-0R\", \"2-6\",
    \"3-4\", \"3-5\", \"3-0R\", \"3-6\", \"4-5\", \"4-0R\", \"4-6\", \"5-0R\", \"5-6\",
]
";

/// A day with the settings of `UNLIKE_BARS`.
pub const DAY_OF_UNLIKE_BARS: &str = "[[day]]
day = 1
model = \"M-209\"
rows = [
    \"0-1\", \"1-2\", \"1-3\", \"1-4\", \"1-5\", \"0-1\", \"1-6\", \"0-2\", \"0-3\",
    \"0-4\", \"0-5\", \"0-0\", \"0-6\", \"2-3\", \"2-4\", \"2-5\", \"0-2\", \"2-6\",
    \"3-4\", \"3-5\", \"0-3\", \"3-6\", \"4-5\", \"0-4\", \"4-6\", \"0-5\", \"5-6\",
]
pins = [\"\", \"\", \"\", \"\", \"\", \"\"]
window = \"AAAAAA\"
list = \"QV\"
";

/// A card without settings, whose prices are all 0.
pub const NO_LUGS: &str = "CARD 1 DAY 1
SETTINGS 0
BARS 0 0 0 0 0 0 0 0 0 0 0 0 0 0 0 0 0 0 0 0 0 0 0 0 0 0 0
ROWS 0 0 0 0 0 0 0 0 0 0 0 0 0 0 0 0 0 0 0 0 0 0 0 0 0 0 0
SUM 0
";

/// `NO_LUGS` for `UNLIKE_BARS`, with prices by kind: each kind has one bar.
pub const UNLIKE_BAR_KINDS: &str = "CARD 2 DAY 1
SETTINGS 0
BAR 1-0L 1 0
BAR 1-2 1 0
BAR 1-3 1 0
BAR 1-4 1 0
BAR 1-5 1 0
BAR 1-0R 1 0
BAR 1-6 1 0
BAR 0L-2 1 0
BAR 0L-3 1 0
BAR 0L-4 1 0
BAR 0L-5 1 0
BAR 0L-0R 1 0
BAR 0L-6 1 0
BAR 2-3 1 0
BAR 2-4 1 0
BAR 2-5 1 0
BAR 2-0R 1 0
BAR 2-6 1 0
BAR 3-4 1 0
BAR 3-5 1 0
BAR 3-0R 1 0
BAR 3-6 1 0
BAR 4-5 1 0
BAR 4-0R 1 0
BAR 4-6 1 0
BAR 5-0R 1 0
BAR 5-6 1 0
ROW 0-0 1 0
ROW 0-1 2 0
ROW 0-2 2 0
ROW 0-3 2 0
ROW 0-4 2 0
ROW 0-5 2 0
ROW 0-6 1 0
ROW 1-2 1 0
ROW 1-3 1 0
ROW 1-4 1 0
ROW 1-5 1 0
ROW 1-6 1 0
ROW 2-3 1 0
ROW 2-4 1 0
ROW 2-5 1 0
ROW 2-6 1 0
ROW 3-4 1 0
ROW 3-5 1 0
ROW 3-6 1 0
ROW 4-5 1 0
ROW 4-6 1 0
ROW 5-6 1 0
SUM 0
";

/// `NO_LUGS` for `ALL_MET`, with prices by kind: all bars are of one kind, and all rows.
pub const ONE_BAR_KIND: &str = "CARD 2 DAY 1
SETTINGS 0
BAR 1-0L 27 0
ROW 0-1 27 0
SUM 0
";

/// A card without settings for a machine that has a cable for each of the day's 13 pairs, with prices by kind.
pub const UNLIKE_CABLE_KINDS: &str = "CARD 2 DAY 11
SETTINGS 0
CABLE AB 1 0
CABLE CD 1 0
CABLE EF 1 0
CABLE GH 1 0
CABLE IJ 1 0
CABLE KL 1 0
CABLE MN 1 0
CABLE OP 1 0
CABLE QR 1 0
CABLE ST 1 0
CABLE UV 1 0
CABLE WX 1 0
CABLE YZ 1 0
PAIR AB 1 0
PAIR CD 1 0
PAIR EF 1 0
PAIR GH 1 0
PAIR IJ 1 0
PAIR KL 1 0
PAIR MN 1 0
PAIR OP 1 0
PAIR QR 1 0
PAIR ST 1 0
PAIR UV 1 0
PAIR WX 1 0
PAIR YZ 1 0
SUM 0
";

/// A sheet with days of an Enigma I and of a Converter M-209.
pub const SHEET: &str = "[[day]]
day = 8
model = \"Enigma I\"
reflector = \"B\"
wheels = [\"I\", \"II\", \"III\"]
rings = \"AAA\"
window = \"AAA\"
plugs = [\"BC\", \"DE\"]

[[day]]
day = 11
model = \"Enigma I\"
reflector = \"B\"
wheels = [\"I\", \"II\", \"III\"]
rings = \"AAA\"
window = \"AAA\"
plugs = []

[[day]]
day = 12
model = \"Enigma I\"
reflector = \"B\"
wheels = [\"I\", \"II\", \"III\"]
rings = \"AAA\"
window = \"AAA\"
plugs = []

[[day]]
day = 15
model = \"M-209\"
rows = [
    \"0-0\", \"0-0\", \"0-0\", \"0-0\", \"0-0\", \"0-0\", \"0-0\", \"0-0\", \"0-0\",
    \"0-0\", \"0-0\", \"0-0\", \"0-0\", \"0-0\", \"0-0\", \"0-0\", \"0-0\", \"0-0\",
    \"0-0\", \"0-0\", \"0-0\", \"0-0\", \"0-0\", \"0-0\", \"0-0\", \"0-0\", \"0-0\",
]
pins = [\"\", \"\", \"\", \"\", \"\", \"\"]
window = \"AAAAAA\"
list = \"QV\"

[[day]]
day = 17
model = \"Enigma I\"
reflector = \"B\"
wheels = [\"I\", \"II\", \"III\"]
rings = \"AAA\"
window = \"AAA\"
plugs = []
groups = [\"ZUG\"]
";

/// The form of a message that was sent on the eastern front in July 1941.
pub const MESSAGE: &str = "PART 1/1 179 WXC KCH
RFUGZ EDPUD NRGYS ZRCXN UYTPO MRMBO FKTBZ REZKM LXLVE FGUEY
SIOZV EQMIK UBPMM YLKLT TDEIS MDICA GYKUA CTCDO MOHWX MUUIA
UBSTS LRNBZ SZWNR FXWFY SSXJZ VIJHI DISHP RKLKA YUPAD TXQSP
INQMA TLPIF SVKDA SCTAC DPBOP VHJK
";
