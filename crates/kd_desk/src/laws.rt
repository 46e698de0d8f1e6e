//! Laws: how bytes are read as settings, and how the cards of a month set the machine to each day.
ghost use Rattle.std.specs.Prelude.{◌≡◌, All};
ghost use Rattle.kd_state.specs.Machine.{model_of};
ghost use Rattle.kd_state.specs.SheetDay.{day_model};
ghost use Rattle.kd_desk.specs.Laws.{BytesGiveOneList, SettingsHaveNoFault, SettingsHaveOneFault};
ghost use Rattle.kd_desk.specs.Laws.{MonthsSetTheMachine, MonthsAreFewest};
ghost use Rattle.kd_desk.specs.FewCables.{FewCablesServeAMonth};
ghost use Rattle.kd_desk.specs.{Inner.{CanWriteDay}, Month.{CanWriteDays}};
ghost use Rattle.kd_sheet.specs.Sheet.{HasDayOf};

use crate::run_card::with_prices_by_kind;
use kd_card::write_card;
use kd_plan::plan;
use kd_sheet::Sheet;
use kd_sheet::laws::written_files_are_read_back;
pub use kd_state::laws::settings_lead_or_are_refused;
use kd_state::{Machine, SheetDay, carry_all};
use kd_tables::MemorySink;

/// No bytes give two lists of settings, two faults, or a list and a fault.
pub fn bytes_give_one_list_or_one_fault()
    ensures settings { BytesGiveOneList }
    ensures no_fault { SettingsHaveNoFault }
    ensures one_fault { SettingsHaveOneFault }
{}

/// If cards and machine files are written for one day after another, they set the machine to each of these days.
///
/// Each card's settings lead from the machine of one file to the machine of the next file. The next file's machine is
/// set as the card's day says, shows this day's letters, and enciphers as this day asks. No shorter list of settings
/// leads to this day.
pub fn months_set_the_machine()
    ensures { MonthsSetTheMachine }
{}

/// On a rotor machine, a month's cards have the fewest settings in all.
///
/// Other lists that reach these days, in this order and from the same machine, have no fewer settings.
#[tactic(auto, using(crate::proofs::Months::months_are_fewest))]
pub fn months_are_fewest()
    ensures { MonthsAreFewest }
{}

/// If a machine uses only its first `number` cables, these cables suffice for a month with at most `number` pairs a
/// day.
///
/// For example, suppose that a machine uses only its first ten cables, and that each day has at most ten pairs. Then
/// the month's cards name only these cables, and only these cables are used.
pub fn few_cables_serve_a_month()
    ensures { FewCablesServeAMonth }
{}

/// Cards and machine files can be written for days of the machine's model, one day after another.
pub fn months_can_be_written(machine: &Machine, sheet: &Sheet, numbers: &[u8])
    requires { All (HasDayOf (model_of machine.now) sheet.now) numbers.now }
    ensures { CanWriteDays machine.now sheet.now numbers.now }
{
    if let Some((number, rest)) = numbers.split_first() {
        let day = sheet.day(*number).unwrap();
        months_can_be_written(&machine_after_card(machine, day), sheet, rest);
    }
}

/// Plans the card from `machine` to `day`, and returns the machine after the card's settings.
fn machine_after_card(machine: &Machine, day: &SheetDay) -> Machine
    requires { day_model day.now ≡ model_of machine.now }
    ensures model { model_of result ≡ model_of machine.now }
    ensures written { CanWriteDay machine.now day.now result }
{
    settings_lead_or_are_refused();
    written_files_are_read_back();
    let card = with_prices_by_kind(machine, day, &plan(machine, day).unwrap());
    // The contract of `write_card` shows the prover that the card has a text. The sink needn't take any byte of the
    // text.
    let _ = write_card(&mut MemorySink::<0>::new(0), day.day(), &card);
    carry_all(machine, card.settings.as_slice()).unwrap()
}
