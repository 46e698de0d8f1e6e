//! Laws about damaged parts, their ciphers, and forms of one message.
ghost use Rattle.kd_lost.specs.Laws.{CiphersAgreeWhereTextsDo, PartsReadAreShownWhole, PartsReadHaveNumbers};
ghost use Rattle.kd_lost.specs.Laws.{FormsReadAreShownWhole, FormsReadAreTidy, FormsReadHaveTheirParts, RepetitionsAgree};

/// If two texts have the same letter at a place, their ciphertexts under one key have the same letter there.
///
/// The texts may differ at all other places.
#[tactic(auto, using(crate::proofs::Ciphers::ciphers_agree))]
pub fn ciphers_agree_where_texts_do()
    ensures { CiphersAgreeWhereTextsDo }
{}

/// If `receive` reads a part, this crate shows the part's whole text, without a warning.
pub fn parts_read_are_shown_whole()
    ensures shown { PartsReadAreShownWhole }
    ensures numbers { PartsReadHaveNumbers }
{}

/// If `receive` reads a form, this crate shows the text that `receive` gives, without a warning.
///
/// In this form, this crate finds the same parts as `receive`, and drops nothing before the first heading.
pub fn forms_read_are_shown_whole()
    ensures tidy { FormsReadAreTidy }
    ensures parts { FormsReadHaveTheirParts }
    ensures shown { FormsReadAreShownWhole }
{}

/// In a form of one message, take two parts with the same number. At each place that both bodies have, their letters
/// are equal, unless one of the two letters is lost.
#[tactic(auto, using(crate::proofs::OneMessage::repetitions_agree))]
pub fn repetitions_agree()
    ensures { RepetitionsAgree }
{}
