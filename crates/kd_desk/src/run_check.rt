//! The command `check`: says whether a card proves itself shortest.
ghost use Rattle.std.specs.Prelude.{◌≡◌, ◌≢◌, ◌||◌, is_err, Err, IsErr};
ghost use Rattle.kd_tables.specs.Writing.{Writes};
ghost use Rattle.kd_desk.specs.OnDay.{IsAnswerOnDay};
ghost use Rattle.kd_tables.specs.Ports.{port};
ghost use Rattle.kd_desk.specs.RunCheck.{Checks, verdict_text};
ghost use Rattle.kd_desk.specs.CallAnswers.{is_device};
ghost use Rattle.kd_desk.specs.declared.fault.DeskFault.TheVariants as faults;

use crate::fault::DeskFault;
use crate::machine_and_day::find_day;
use arrayvec::ArrayString;
use itoa::Buffer;
use kd_card::read_card;
use kd_prices::check;
use kd_state::{Machine, SheetDay};
use kd_tables::{Device, Sink, put_all};
use std::alloc::Global;

/// Checks that `card` proves itself shortest, from the machine in `machine` to day `number` of `sheet`.
///
/// `machine` is a machine file, and `sheet` a key sheet. If the card's prices prove the card shortest, writes a line:
/// SHORTEST and the number of the card's settings. Faults are tested in this order: faults of the machine file, faults
/// of the sheet, `NoSuchDay`, faults of the card, `OtherDay`, `Doubtful`. `Doubtful` has the first reason why the card
/// doesn't prove itself. For all of these faults, nothing is written. For `Device`, only a prefix of the line is
/// written.
pub fn run_check<W: Sink>(
    alloc: Global,
    machine: &[u8],
    sheet: &[u8],
    number: u8,
    card: &[u8],
    sink: &mut W,
) -> Result<(), DeskFault>
    ensures checks { IsAnswerOnDay machine.now sheet.now number
        (λ m s. Checks m s number card.now (port W.taken W.has_failed sink.old sink.new) result) result }
    ensures untouched { IsErr result → result ≢ Err faults.Device → sink.new ≡ sink.old }
    ensures failed { W.has_failed sink.new ≡ (W.has_failed sink.old || is_device result) }
{
    let (machine, day) = find_day(alloc, machine, sheet, number)?;
    check_card(&machine, &day, number, card, sink)
}

/// Does what `run_check` does, for a machine and a day that are already read. Allocates nothing.
pub fn check_card<W: Sink>(
    machine: &Machine,
    day: &SheetDay,
    number: u8,
    card: &[u8],
    sink: &mut W,
) -> Result<(), DeskFault>
    ensures checks { Checks machine.now day.now number card.now
        (port W.taken W.has_failed sink.old sink.new) result }
    ensures untouched { IsErr result → result ≢ Err faults.Device → sink.new ≡ sink.old }
    ensures failed { W.has_failed sink.new ≡ (W.has_failed sink.old || is_device result) }
{
    let (dated, card) = read_card(card)?;
    if dated != number {
        return Err(DeskFault::OtherDay);
    }
    check(machine, day, &card)?;
    write_verdict(sink, card.settings.len())?;
    Ok(())
}

/// Writes the line that says that a card with `number` settings is shortest.
fn write_verdict<W: Sink>(sink: &mut W, number: usize) -> Result<(), Device>
    ensures text { Writes (W.taken sink.old) (W.taken sink.new) (verdict_text number) result }
    ensures failed { W.has_failed sink.new ≡ (W.has_failed sink.old || is_err result) }
{
    let mut buffer = Buffer::new();
    let mut text = ArrayString::<32>::new();
    text.push_str("SHORTEST ");
    text.push_str(buffer.format(number));
    text.push_str("\n");
    put_all(sink, text.as_str().as_bytes())
}
