//! `PartDamage`: why a part of a form can't be read.

/// Why the text of a part can't be read.
///
/// The key letters of a Converter M-209's part are numbered. The chosen letter is number 0. The external letter of a
/// wheel has the wheel's number, from 1 to 6.
#[derive(Clone, Copy, Debug, PartialEq, Eq)]
pub enum PartDamage {
    /// The part doesn't begin with a valid heading of the day's model. A heading may be valid even if letters of its
    /// keys are lost.
    HeadingDamaged,
    /// A letter of the ground setting or of the enciphered message key is lost in the heading.
    HeadingKeyLost,
    /// A byte of the body isn't allowed there: it is no letter, no lost letter, no space, and no part of a line end.
    BadByte,
    /// The body has more or fewer letters than its heading says.
    CountWrong,
    /// The Converter's key letter with this number differs between two copies.
    CopiesDiffer(u8),
    /// The Converter's key letter with this number is lost in all its copies.
    KeyLetterLost(u8),
    /// An external letter isn't on its wheel.
    KeyNotOnWheel,
    /// The twelve enciphered letters, from which the internal key is picked, don't give each wheel a letter.
    NoInternalKey,
}
