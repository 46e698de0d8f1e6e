//! `Blame`: the file that a refusal is about, and what the refusal says of it.
ghost use Rattle.std.specs.Prelude.{◌≡◌};
ghost use Rattle.kd_curator.specs.Blame.{remark_words, why_words};

use crate::texts;
use kd_language::Language;
use kd_new_file::WhyUnread;

/// The file that a refusal is about, and the remark on this file.
#[derive(Clone, Copy, Debug, PartialEq, Eq)]
pub struct Blame {
    /// The file's place among the command's files, counted from 0.
    pub place: usize,
    pub remark: Remark,
}

/// A remark on a file: what a refusal says of it.
#[derive(Clone, Copy, Debug, PartialEq, Eq)]
pub enum Remark {
    /// The file can't be opened or read.
    Unread(WhyUnread),
    /// The file has too many bytes.
    TooLong,
    /// The file is the machine file, and has the fault.
    MachineFile,
    /// The file is a key sheet, but a machine file is needed.
    SheetForMachine,
    /// The file is the key sheet, and has the fault.
    KeySheet,
    /// The file is a machine file, but a key sheet is needed.
    MachineForSheet,
    /// The file is the order, and has the fault.
    Order,
    /// The refusal's text already says what is wrong with this file.
    Named,
}

/// The words of a remark. A refusal's text stands before them, and the file's name after them.
pub(crate) fn remark_words(language: Language, remark: Remark) -> &'static str
    ensures { result.now ≡ remark_words language remark }
{
    match remark {
        Remark::Unread(why) => why_words(language, why),
        Remark::TooLong => language.text(texts::TOO_LONG),
        Remark::MachineFile => language.text(texts::MACHINE_FILE),
        Remark::SheetForMachine => language.text(texts::SHEET_FOR_MACHINE),
        Remark::KeySheet => language.text(texts::KEY_SHEET),
        Remark::MachineForSheet => language.text(texts::MACHINE_FOR_SHEET),
        Remark::Order => language.text(texts::ORDER),
        Remark::Named => texts::NAMED,
    }
}

/// The words that say why a file can't be read. The file's name stands after them.
fn why_words(language: Language, why: WhyUnread) -> &'static str
    ensures { result.now ≡ why_words language why }
{
    match why {
        WhyUnread::NotThere => language.text(texts::NOT_THERE),
        WhyUnread::Folder => language.text(texts::FOLDER),
        WhyUnread::NotAllowed => language.text(texts::NOT_ALLOWED),
        WhyUnread::Other => language.text(texts::UNREADABLE),
    }
}
