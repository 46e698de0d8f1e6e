//! `MessageFault`: a fault of an order or a form that can be found without a machine, with its place, and words that
//! explain it.
ghost use Rattle.std.specs.Prelude.{◌≡◌};
ghost use Rattle.kd_look.specs.MessageWords.{letter_words, reason_words, space_words};

use super::order_head::KeyLine;
use crate::texts;
use kd_form::FormFault;
use kd_language::Language;

/// A fault of an order or a form that can be found without a machine.
#[derive(Clone, Copy)]
pub struct MessageFault {
    /// The index of the wrong byte. If no single byte is wrong, it is the index of:
    /// - the first byte of an order's text, for a fault of this text's letters or parts
    /// - the heading of a form's part, for a fault of this part
    /// - the end of the form, if a part is missing there
    pub index: usize,
    pub fault: FormFault,
    pub reason: Reason,
}

/// What is wrong with an order or a form.
#[derive(Clone, Copy)]
pub enum Reason {
    /// The order ends before its text.
    OrderEnds,
    /// A capital letter is missing in a line of keys.
    KeyLetter(KeyLine),
    /// A space is missing in a line of keys.
    KeySpace(KeyLine),
    /// A line of the head, or a heading, doesn't end where it has to.
    LineGoesOn,
    /// A line of the head begins neither with `PART ` nor with `TEXT`.
    LineStart,
    /// An external letter isn't on its pin wheel.
    OffWheel,
    /// The text has a sign that isn't allowed.
    TextSign,
    /// The text has no letter.
    NoLetter,
    /// The text needs more parts than there are lines of keys.
    FewKeys,
    /// The text needs fewer parts than there are lines of keys.
    ManyKeys,
    /// A number is missing in a heading.
    HeadingNumber,
    /// A slash is missing in a heading.
    HeadingSlash,
    /// A heading's part number is above its number of parts, or its number of parts is above 99.
    HeadingParts,
    /// A part can't have the number of letters that its heading gives.
    HeadingCount,
    /// A capital letter is missing in a heading.
    HeadingLetter,
    /// A space is missing in a heading.
    HeadingSpace,
    /// A part is at the wrong place, or gives another number of parts than the first part.
    PartsMixed,
    /// The form has fewer parts than its headings say.
    PartsMissing,
    /// A body has a sign that isn't allowed.
    BodySign,
    /// A body has more or fewer letters than its heading says.
    BodyCount,
}

impl Reason {
    /// What is wrong, in words.
    pub fn words(self, language: Language) -> &'static str
        ensures { result.now ≡ reason_words language self }
    {
        match self {
            Reason::OrderEnds => language.text(texts::ORDER_ENDS),
            Reason::KeyLetter(form) => letter_words(language, form),
            Reason::KeySpace(form) => space_words(language, form),
            Reason::LineGoesOn => language.text(texts::LINE_GOES_ON),
            Reason::LineStart => language.text(texts::LINE_START),
            Reason::OffWheel => language.text(texts::OFF_WHEEL),
            Reason::TextSign => language.text(texts::TEXT_SIGN),
            Reason::NoLetter => language.text(texts::NO_LETTER),
            Reason::FewKeys => language.text(texts::FEW_KEYS),
            Reason::ManyKeys => language.text(texts::MANY_KEYS),
            Reason::HeadingNumber => language.text(texts::HEADING_NUMBER),
            Reason::HeadingSlash => language.text(texts::HEADING_SLASH),
            Reason::HeadingParts => language.text(texts::HEADING_PARTS),
            Reason::HeadingCount => language.text(texts::HEADING_COUNT),
            Reason::HeadingLetter => language.text(texts::HEADING_LETTER),
            Reason::HeadingSpace => language.text(texts::HEADING_SPACE),
            Reason::PartsMixed => language.text(texts::PARTS_MIXED),
            Reason::PartsMissing => language.text(texts::PARTS_MISSING),
            Reason::BodySign => language.text(texts::BODY_SIGN),
            Reason::BodyCount => language.text(texts::BODY_COUNT),
        }
    }
}

/// The words for a missing letter in a line of keys, with an example of a right line.
fn letter_words(language: Language, form: KeyLine) -> &'static str
    ensures { result.now ≡ letter_words language form }
{
    match form {
        KeyLine::ThreeSlots => language.text(texts::LETTER_FOR_THREE),
        KeyLine::FourSlots => language.text(texts::LETTER_FOR_FOUR),
        KeyLine::Converter => language.text(texts::LETTER_FOR_CONVERTER),
    }
}

/// The words for a missing space in a line of keys, with an example of a right line.
fn space_words(language: Language, form: KeyLine) -> &'static str
    ensures { result.now ≡ space_words language form }
{
    match form {
        KeyLine::ThreeSlots => language.text(texts::SPACE_FOR_THREE),
        KeyLine::FourSlots => language.text(texts::SPACE_FOR_FOUR),
        KeyLine::Converter => language.text(texts::SPACE_FOR_CONVERTER),
    }
}
