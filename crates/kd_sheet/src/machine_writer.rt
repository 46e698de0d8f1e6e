//! Writes machine files of all models.
ghost use Rattle.std.specs.{Prelude.{◌≡◌, ◌≤◌, ◌||◌, is_err, Ok}, List.{concat}};
ghost use Rattle.arrayvec.specs.ArrayString.{array_string_len};
ghost use Rattle.kd_tables.specs.Writing.{Writes};
ghost use Rattle.kd_state.specs.Machine.{AreLegalRotorParts, AreLegalPinParts};
ghost use Rattle.kd_sheet.specs.{MachineFile.{machine_of}, MachineText.{head_file_lines, machine_text}};

use crate::Key;
use crate::machine_reader::file_version;
use crate::writing::letters::{pin_texts, push_letters_line};
use crate::writing::lines::{FileString, push_list_line, push_number_line, push_text_line};
use kd_state::{Machine, Parts, PinParts, RotorParts};
use kd_tables::{Device, Model, Sink, put_all};

/// Writes the file of `machine`: in version 2 for the M4, otherwise in version 1.
///
/// If the call returns `Device`, the sink has taken a prefix of the text. `read_machine` reads the whole text as
/// `machine`.
#[tactic(auto, using(crate::proofs::ReadBack::parts_are_read_back))]
pub fn write_machine<W: Sink>(sink: &mut W, machine: &Machine) -> Result<(), Device>
    ensures text { Writes (W.taken sink.old) (W.taken sink.new) (machine_text machine.now) result }
    ensures failed { W.has_failed sink.new ≡ (W.has_failed sink.old || is_err result) }
    ensures file { machine_of (machine_text machine.now) ≡ Ok machine.now }
{
    let text = match machine.parts() {
        Parts::Rotor(parts) => rotor_machine_text(parts),
        Parts::Pin(parts) => pin_machine_text(parts),
    };
    put_all(sink, text.as_str().as_bytes())
}

/// Writes the file of a rotor machine.
#[tactic(auto, unfolding(crate::specs::MachineText::machine_text))]
fn rotor_machine_text(parts: &RotorParts) -> FileString
    requires { AreLegalRotorParts parts.now }
    ensures { result.bytes ≡ machine_text (Parts.Rotor parts.now) }
{
    let mut text = head_text(parts.model);
    push_text_line(&mut text, Key::Reflector, parts.reflector.text().as_str());
    push_list_line(&mut text, Key::Slots, parts.slots.as_slice());
    push_letters_line(&mut text, Key::Rings, parts.rings.as_slice());
    push_letters_line(&mut text, Key::Letters, parts.letters.as_slice());
    push_list_line(&mut text, Key::Cables, &parts.cables);
    text
}

/// Writes the file of a Converter M-209.
#[tactic(auto, unfolding(crate::specs::MachineText::machine_text))]
fn pin_machine_text(parts: &PinParts) -> FileString
    requires { AreLegalPinParts parts.now }
    ensures { result.bytes ≡ machine_text (Parts.Pin parts.now) }
{
    let mut text = head_text(Model::M209);
    push_letters_line(&mut text, Key::Letters, &parts.letters);
    push_list_line(&mut text, Key::Pins, &pin_texts(&parts.pins));
    push_list_line(&mut text, Key::Bars, &parts.bars);
    text
}

/// Writes the first two lines of a machine file: the version and the model.
#[tactic(auto, using(crate::proofs::ReadBack::Described::KeyValues::version_has_one_digit))]
fn head_text(model: Model) -> FileString
    ensures bytes { result.bytes ≡ concat (head_file_lines model) }
    ensures len { array_string_len result ≤ 40 }
{
    let mut text = FileString::new();
    push_number_line(&mut text, Key::Version, file_version(model));
    push_text_line(&mut text, Key::Model, model.text().as_str());
    text
}
