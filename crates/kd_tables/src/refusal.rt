//! The refusals: their numbers, their names and their texts.
ghost use Rattle.std.specs.Prelude.{◌≡◌, ◌≤◌, ◌+◌, ◌++◌, decimal, length};
ghost use Rattle.arrayvec.specs.ArrayString.{array_string_len};
ghost use Rattle.kd_tables.specs.Refusals.{refusal_name, word_after_space};

use arrayvec::ArrayString;
use itoa::Buffer;

/// The text of a refusal: its number, its name, and sometimes more, such as a line's number or a reason.
pub type RefusalText = ArrayString<64>;

/// The refusals, in the order of their numbers.
#[derive(Clone, Copy)]
pub enum Refusal {
    /// A letter comes twice in a machine's cables, or twice in a day's pairs.
    LetterTwice,
    /// A letter for a pin wheel isn't on this wheel. The program never prints this refusal.
    NotOnWheel,
    /// A machine refuses a setting; the refusal names the reason. The program never prints this refusal.
    Illegal,
    /// A slot is empty, or a cable has exactly one letter.
    NotReady,
    /// The machine and the day are of different models, or a card's prices are for the other sort of machine. Prices of
    /// cables are for Enigmas, and prices of bars are for the Converter.
    OtherModel,
    /// A file, a source or a sink failed.
    Device,
    /// The first line of a card isn't a card's head.
    BadHead,
    /// A line of a list or a card is missing, has a wrong form, or is out of order.
    BadLine,
    /// A list or a card has more than 192 settings.
    TooMany,
    /// A card's prices are missing, too few or too many, or aren't for this machine and day.
    PriceMissing,
    /// A card's number of settings, or its sum of prices, is wrong.
    CardCountWrong,
    /// Bytes follow the last line of a card.
    Trailing,
    /// A machine refuses a line of a list or a card; the refusal names the line and the reason.
    IllegalAt,
    /// After a card's lines are carried out, the machine isn't set as the day says, or doesn't show the day's letters.
    NotTheSheet,
    /// In the table of costs, the prices of a row and a column add up to more than the cost in their cell.
    PriceTooHigh,
    /// The sum of a card's prices isn't the number of the card's lines that change a cable or a bar.
    SumDiffers,
    /// A line of a card isn't needed.
    ///
    /// A line is needed if it changes a cable or a bar, or if it lowers the number of things, such as slots or rings,
    /// that differ from the day.
    NeedlessLine,
    /// A file isn't a TOML document.
    NotToml,
    /// A file names no known model, or a machine file of version 1 names the M4.
    UnknownModel,
    /// A TOML key of a file is missing.
    Missing,
    /// A TOML key of a file has a wrong value.
    BadValue,
    /// A wheel is in two slots.
    WheelTwice,
    /// A wheel is in a slot where the model doesn't allow it.
    WheelNotAllowed,
    /// An item of `bars` isn't a standing such as `1-0R`, or an item of `rows` isn't a reading such as `0-1`.
    BadRow,
    /// A sheet has two entries for one day.
    DayTwice,
    /// Memory ran out.
    NoMemory,
    /// The machine is of another model than the day, or isn't set as the day says. The shown letters don't matter.
    NotOnKey,
    /// A byte isn't allowed at its place, or is missing.
    BadByte,
    /// The text of an order has no letter.
    EmptyText,
    /// An order has too few or too many lines of keys. The refusal says how many are needed, and how many there are.
    PartKeys,
    /// A message's external letter isn't on its pin wheel.
    KeyNotOnWheel,
    /// On an Enigma, a part's group isn't one of the day's groups. On the Converter, a part's two list letters aren't
    /// the day's.
    WrongGroup,
    /// A part of a Converter's message has no internal key. The key's six letters are picked from twelve enciphered
    /// letters, wheel by wheel, but the twelve letters run out too early.
    IndicatorSpent,
    /// A part doesn't begin with a heading of the day's model.
    BadHeading,
    /// A part has more or fewer letters than its heading says.
    PartCountWrong,
    /// A part's last ten letters differ from its first ten, or the first two letters differ from each other.
    IndicatorsDiffer,
    /// A part is missing or out of order, or two headings give different numbers of parts.
    PartOrder,
    /// A source or a file has more bytes than the limit.
    ReadTooLong,
    /// The sheet has no entry for the day.
    NoSuchDay,
    /// The card is for another day.
    OtherDay,
}

impl Refusal {
    /// The refusal's number and name, for example `6 Device`.
    pub fn name(self) -> &'static str
        ensures value { result.now ≡ refusal_name self }
        ensures short { length result.now ≤ 20 }
    {
        match self {
            Refusal::LetterTwice => "1 LetterTwice",
            Refusal::NotOnWheel => "2 NotOnWheel",
            Refusal::Illegal => "3 Illegal",
            Refusal::NotReady => "4 NotReady",
            Refusal::OtherModel => "5 OtherModel",
            Refusal::Device => "6 Device",
            Refusal::BadHead => "7 BadHead",
            Refusal::BadLine => "8 BadLine",
            Refusal::TooMany => "9 TooMany",
            Refusal::PriceMissing => "10 PriceMissing",
            Refusal::CardCountWrong => "11 CountWrong",
            Refusal::Trailing => "12 Trailing",
            Refusal::IllegalAt => "13 IllegalAt",
            Refusal::NotTheSheet => "14 NotTheSheet",
            Refusal::PriceTooHigh => "15 PriceTooHigh",
            Refusal::SumDiffers => "16 SumDiffers",
            Refusal::NeedlessLine => "17 NeedlessLine",
            Refusal::NotToml => "18 NotToml",
            Refusal::UnknownModel => "19 UnknownModel",
            Refusal::Missing => "20 Missing",
            Refusal::BadValue => "21 BadValue",
            Refusal::WheelTwice => "22 WheelTwice",
            Refusal::WheelNotAllowed => "23 WheelNotAllowed",
            Refusal::BadRow => "24 BadRow",
            Refusal::DayTwice => "25 DayTwice",
            Refusal::NoMemory => "26 NoMemory",
            Refusal::NotOnKey => "27 NotOnKey",
            Refusal::BadByte => "28 BadByte",
            Refusal::EmptyText => "29 EmptyText",
            Refusal::PartKeys => "30 PartKeys",
            Refusal::KeyNotOnWheel => "31 KeyNotOnWheel",
            Refusal::WrongGroup => "32 WrongGroup",
            Refusal::IndicatorSpent => "33 IndicatorSpent",
            Refusal::BadHeading => "34 BadHeading",
            Refusal::PartCountWrong => "35 CountWrong",
            Refusal::IndicatorsDiffer => "36 IndicatorsDiffer",
            Refusal::PartOrder => "37 PartOrder",
            Refusal::ReadTooLong => "38 ReadTooLong",
            Refusal::NoSuchDay => "39 NoSuchDay",
            Refusal::OtherDay => "40 OtherDay",
        }
    }

    /// The number and the name of the refusal, without details such as a line's number.
    pub fn text(self) -> RefusalText
        ensures bytes { result.bytes ≡ refusal_name self }
        ensures short { array_string_len result ≤ 20 }
    {
        let mut text = RefusalText::new();
        text.push_str(self.name());
        text
    }

    /// The refusal's number and name, and then `place`: for example, the number of a line or a part.
    pub fn text_at(self, place: usize) -> RefusalText
        ensures bytes { result.bytes ≡ refusal_name self ++ word_after_space (decimal place) }
        ensures short { array_string_len result ≤ 41 }
    {
        let mut text = self.text();
        push_place(&mut text, place);
        text
    }

    /// The refusal's number and name, and then two numbers: for example, of a cable and a column.
    pub fn text_at_both(self, one: usize, other: usize) -> RefusalText
        ensures { result.bytes ≡ refusal_name self ++ word_after_space (decimal one)
            ++ word_after_space (decimal other) }
    {
        let mut text = self.text_at(one);
        push_place(&mut text, other);
        text
    }

    /// The refusal's number and name, and then `word`: the name of a TOML key or of a reason.
    pub fn text_with_word(self, word: &str) -> RefusalText
        requires { length word.now ≤ 22 }
        ensures { result.bytes ≡ refusal_name self ++ word_after_space word.now }
    {
        let mut text = self.text();
        push_word(&mut text, word);
        text
    }

    /// The refusal's number and name, then the number `place`, and then `word`: the name of a reason.
    pub fn text_at_with_word(self, place: usize, word: &str) -> RefusalText
        requires { length word.now ≤ 22 }
        ensures { result.bytes
            ≡ refusal_name self ++ word_after_space (decimal place) ++ word_after_space word.now }
    {
        let mut text = self.text_at(place);
        push_word(&mut text, word);
        text
    }
}

/// Appends a space and `place` in decimal.
fn push_place(text: &mut RefusalText, place: usize)
    requires { array_string_len text.old + 21 ≤ 64 }
    ensures bytes { text.new.bytes ≡ text.old.bytes ++ word_after_space (decimal place) }
    ensures short { array_string_len text.new ≤ array_string_len text.old + 21 }
{
    let mut buffer = Buffer::new();
    text.push_str(" ");
    text.push_str(buffer.format(place));
}

/// Appends a space and `word`, the name of a TOML key or of a reason.
fn push_word(text: &mut RefusalText, word: &str)
    requires { array_string_len text.old + length word.now + 1 ≤ 64 }
    ensures { text.new.bytes ≡ text.old.bytes ++ word_after_space word.now }
{
    text.push_str(" ");
    text.push_str(word);
}
