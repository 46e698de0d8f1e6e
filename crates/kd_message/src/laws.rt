//! Laws about the rows of a page, whole messages, and templates.
ghost use Rattle.kd_message.specs.Checked.{TemplatesTakeTheirValues};
ghost use Rattle.kd_message.specs.Laws.{FormsReadAreWhole, NothingReadIsHidden, RowsAreDeciphered, RowsAreEnciphered};
ghost use Rattle.kd_message.specs.Laws.{RepetitionsHaveTheLetters, WholeMessagesAreOnThePage, WholeMessagesAreRead};
ghost use Rattle.kd_message.specs.Laws.{SheetsHaveTheirOwnNumbers, WholeMessagesHaveOneTotal};

/// The lamps of a row depend only on the letters that are pressed in the row, and on the windows at the row's start.
///
/// So an operator can encipher a row without enciphering the rows before it.
pub fn rows_are_enciphered()
    ensures { RowsAreEnciphered }
{}

/// On a received part's sheet, the letters below the line to write on are the plaintext of the letters above it.
///
/// For lost letters, the operator may press any keys.
pub fn rows_are_deciphered()
    ensures { RowsAreDeciphered }
{}

/// In both languages, each template has a gap for each value that the pages fill in.
pub fn templates_take_their_values()
    ensures { TemplatesTakeTheirValues }
{}

/// A form that `desk receive` reads is shown as one whole message, with the text that `desk receive` gives.
pub fn forms_read_are_whole()
    ensures { FormsReadAreWhole }
{}

/// If a part can be read, the page shows a text under the part's number. This text has each letter of the part's own
/// text.
pub fn nothing_read_is_hidden()
    ensures { NothingReadIsHidden }
{}

/// In a whole message, all headings give the same number of parts.
///
/// Compare the part that came first with a later part that has the same part number. If both parts are read, they have
/// the same letters, except where a letter was lost.
pub fn whole_messages_agree()
    ensures total { WholeMessagesHaveOneTotal }
    ensures repetitions { RepetitionsHaveTheLetters }
{}

/// The page of a whole message has the complete text of each part: no letter is lost.
pub fn whole_messages_are_on_the_page()
    ensures { WholeMessagesAreOnThePage }
{}

/// If a form is one whole message, `desk receive` gives the text on the message's page from one part for each number.
///
/// These parts are in the order of their numbers. The form must have no lost letter, no small letter, no tab, and no
/// needless blank in a heading.
pub fn whole_messages_are_read()
    ensures { WholeMessagesAreRead }
{}

/// In a file of several orders, each part's sheet has a number of its own.
#[tactic(auto, using(crate::proofs::SheetNumbers::own_sheet_numbers))]
pub fn sheets_have_their_own_numbers()
    ensures { SheetsHaveTheirOwnNumbers }
{}
