//! The command `card`: prints a shortest card, whose settings lead from a machine to a day.
ghost use Rattle.std.specs.Prelude.{◌≡◌, ◌≢◌, ◌||◌, Err, IsErr};
ghost use Rattle.kd_card.specs.Proving.{ProvesByNumber};
ghost use Rattle.kd_prices.specs.KindCards.{IsByKind};
ghost use Rattle.kd_state.specs.Machine.{IsMachine};
ghost use Rattle.kd_state.specs.SheetDay.{IsLegalDay, day_number};
ghost use Rattle.kd_desk.specs.OnDay.{IsAnswerOnDay};
ghost use Rattle.kd_tables.specs.Ports.{port};
ghost use Rattle.kd_desk.specs.RunCard.{IsChosenCard, IsShortestCard, Prints};
ghost use Rattle.kd_desk.specs.CallAnswers.{is_device};
ghost use Rattle.kd_desk.specs.declared.fault.DeskFault.TheVariants.{Device};

use crate::fault::DeskFault;
use crate::machine_and_day::find_day;
use kd_card::{Card, Version, write_card};
use kd_plan::plan;
use kd_prices::by_kind;
use kd_prices::laws::alike_prices_are_equal;
use kd_state::{Machine, SheetDay};
use kd_tables::Sink;
use std::alloc::Global;

/// Writes a shortest card from the machine in the file `machine` to day `number` of the sheet `sheet`.
///
/// Faults are tested in this order: faults of the machine file, faults of the sheet, `NoSuchDay`, and `OtherModel`.
/// For all of these faults, nothing is written. For `Device`, only a prefix of the card is written.
pub fn run_card<W: Sink>(
    alloc: Global,
    machine: &[u8],
    sheet: &[u8],
    number: u8,
    sink: &mut W,
) -> Result<(), DeskFault>
    ensures card { IsAnswerOnDay machine.now sheet.now number (λ m s.
        Prints (IsShortestCard m s) m s number
        (port W.taken W.has_failed sink.old sink.new) result) result }
    ensures chosen { IsAnswerOnDay machine.now sheet.now number (λ m s.
        Prints (IsChosenCard m s number) m s number
        (port W.taken W.has_failed sink.old sink.new) result) result }
    ensures untouched { IsErr result → result ≢ Err Device → sink.new ≡ sink.old }
    ensures failed { W.has_failed sink.new ≡ (W.has_failed sink.old || is_device result) }
{
    let (machine, day) = find_day(alloc, machine, sheet, number)?;
    print_card(&machine, &day, sink)
}

/// Does what `run_card` does, for a machine and a day that are already read. Allocates nothing.
pub fn print_card<W: Sink>(machine: &Machine, day: &SheetDay, sink: &mut W) -> Result<(), DeskFault>
    ensures prints { Prints (IsShortestCard machine.now day.now)
        machine.now day.now (day_number day.now)
        (port W.taken W.has_failed sink.old sink.new) result }
    ensures chosen { Prints (IsChosenCard machine.now day.now (day_number day.now))
        machine.now day.now (day_number day.now)
        (port W.taken W.has_failed sink.old sink.new) result }
    ensures untouched { IsErr result → result ≢ Err Device → sink.new ≡ sink.old }
    ensures failed { W.has_failed sink.new ≡ (W.has_failed sink.old || is_device result) }
{
    let card = with_prices_by_kind(machine, day, &plan(machine, day)?);
    write_card(sink, day.day(), &card)?;
    Ok(())
}

/// Returns `card` with prices by kind: one price for all equal cables, bars, pairs or rows.
pub(crate) fn with_prices_by_kind(machine: &Machine, day: &SheetDay, card: &Card) -> Card
    requires machine { IsMachine machine.now }
    requires day { IsLegalDay day.now }
    requires proves { ProvesByNumber machine.now day.now card.now.settings.items card.now.prices }
    ensures { IsByKind machine.now day.now card.now result }
{
    prove!(matches!(card.prices.version(), Version::ByNumber));
    alike_prices_are_equal();
    by_kind(machine, day, card).unwrap()
}
