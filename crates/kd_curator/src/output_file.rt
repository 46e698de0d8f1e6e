//! The output file that the option `-o` names. If the file isn't written, the program says why.
ghost use Rattle.std.specs.Prelude.{◌≡◌, ◌≤◌, ◌++◌};
ghost use Rattle.arrayvec.specs.ArrayString.{array_string_len};
ghost use Rattle.kd_tables.specs.Ports.{port};
ghost use Rattle.kd_tables.specs.Refusals.{refusal_name};
ghost use Rattle.kd_host.specs.Ending.{EndsWithLine};
ghost use Rattle.kd_language.specs.Language.{text_in};
ghost use Rattle.kd_curator.specs.OutputFile.{unwritten_line, unwritten_words};
ghost use Rattle.kd_curator.specs.declared.texts.TheConstants.{UNWRITTEN as UNWRITTEN_TEXT};

use crate::error_line::end_named;
use crate::texts::{REFUSED, TAKEN, UNWRITTEN};
use arrayvec::ArrayString;
use kd_language::Language;
use kd_new_file::NewFileFault;
use kd_tables::{Refusal, Sink};

/// The words that say why there is no new file.
type UnwrittenWords = ArrayString<64>;

/// Writes to `errors` why there is no new file `name`, in `language`. Returns the exit status 1.
pub(crate) fn end_unwritten<E: Sink>(
    language: Language,
    name: &str,
    fault: NewFileFault,
    errors: &mut E,
) -> u8
    ensures { EndsWithLine (unwritten_line language name.now fault) 1
        (port E.taken E.has_failed errors.old errors.new) result }
{
    let words = unwritten_words(language, fault);
    end_named(words.as_str(), name, errors)
}

/// The words that say why there is no new file. The file's name stands after them.
fn unwritten_words(language: Language, fault: NewFileFault) -> UnwrittenWords
    ensures { result.bytes ≡ unwritten_words language fault }
{
    let mut words = UnwrittenWords::new();
    words.push_str(language.text(REFUSED));
    match fault {
        NewFileFault::Taken => words.push_str(language.text(TAKEN)),
        NewFileFault::Device => push_unwritten(&mut words, language, Refusal::Device),
        NewFileFault::NoMemory => push_unwritten(&mut words, language, Refusal::NoMemory),
    }
    words
}

/// Appends the number and the name of `refusal`, and the words for a file that can't be written.
#[tactic(auto, using(std::proofs::Common::append_assoc))]
fn push_unwritten(words: &mut UnwrittenWords, language: Language, refusal: Refusal)
    requires { array_string_len words.old ≤ 11 }
    ensures { words.new.bytes
        ≡ words.old.bytes ++ (refusal_name refusal ++ text_in language UNWRITTEN_TEXT) }
{
    words.push_str(refusal.name());
    words.push_str(language.text(UNWRITTEN));
}
