//! The command `send` for several orders: writes an HTML file with a page for each order.
ghost use Rattle.std.specs.Prelude.{◌≡◌, ◌≤◌, ◌+◌, ◌++◌, ◌||◌, drop, false, length, map, IsErr};
ghost use Rattle.arrayvec.specs.ArrayVec.{array_vec_len};
ghost use Rattle.std.specs.Option.{option_copied};
ghost use Rattle.kd_sheet.specs.Sheet.{day_of};
ghost use Rattle.kd_tables.specs.Ports.{port};
ghost use Rattle.kd_curator_command.specs.CommandLine.{unborrowed_names};
ghost use Rattle.kd_message.specs.SendBooklet.{order_text};
ghost use Rattle.kd_curator.specs.Files.{text_at};
ghost use Rattle.kd_curator.specs.MachineAndSheet.{IsAnswerOnSheet};
ghost use Rattle.kd_curator.specs.Refusals.{is_device};
ghost use Rattle.kd_curator.specs.RunOrders.{SendsOrders, WritesOrders, order_texts};

use crate::fault::{PageFault, Refused};
use crate::files::{FileBytes, text_at};
use crate::machine_and_sheet::{DayFiles, read_both};
use arrayvec::ArrayVec;
use kd_curator_command::MessageTask;
use kd_language::Language;
use kd_message::{OrderFile, PageOptions, write_send_booklet};
use kd_state::{Machine, SheetDay};
use kd_tables::Sink;
use std::alloc::Global;

/// Writes a file with a page for each of `orders`, for sending on the machine of `files`. The machine must be on the
/// day's key.
///
/// Faults are tested as in `run_send`, and the orders are tested one after another. For all faults
/// but `Device`, nothing is written. For `Device`, only a prefix of the file is written.
pub fn run_orders<W: Sink>(
    alloc: Global,
    options: PageOptions,
    files: DayFiles<'_>,
    orders: &[OrderFile<'_>],
    sink: &mut W,
) -> Result<(), Refused>
    requires { length orders.now ≤ 32 }
    ensures pages { IsAnswerOnSheet files.entry.machine.now files.entry.sheet.now
        (λ m month. WritesOrders options.results options.language (day_of month files.entry.number) m
        (map order_text orders.now) (port W.taken W.has_failed sink.old sink.new) result) result }
    ensures untouched { IsErr result → is_device result ≡ false → sink.new ≡ sink.old }
    ensures failed { W.has_failed sink.new ≡ (W.has_failed sink.old || is_device result) }
{
    let (machine, sheet) = read_both(alloc, files.machine, files.sheet)?;
    let day = sheet.day(files.number);
    write_orders(alloc, options, &machine, day, orders, sink)
}

/// Like `run_orders`, but with a machine and a day in place of files. `day` is `None` if the sheet lacks the day.
fn write_orders<W: Sink>(
    alloc: Global,
    options: PageOptions,
    machine: &Machine,
    day: Option<&SheetDay>,
    orders: &[OrderFile<'_>],
    sink: &mut W,
) -> Result<(), Refused>
    requires { length orders.now ≤ 32 }
    ensures pages { WritesOrders options.results options.language (option_copied day.entry) machine.now
        (map order_text orders.now) (port W.taken W.has_failed sink.old sink.new) result }
    ensures untouched { IsErr result → is_device result ≡ false → sink.new ≡ sink.old }
    ensures failed { W.has_failed sink.new ≡ (W.has_failed sink.old || is_device result) }
{
    let Some(day) = day else {
        return Err(Refused::from(PageFault::NoSuchDay));
    };
    match write_send_booklet(alloc, options, machine, day, orders, sink) {
        Ok(()) => Ok(()),
        Err(fault) => Err(Refused::of_orders(fault)),
    }
}

/// Carries out `task` for the orders whose files have the names `names`. `contents` are the bytes of the machine file,
/// of the key sheet, and of these files.
pub(crate) fn send_orders<W: Sink>(
    alloc: Global,
    language: Language,
    task: MessageTask,
    names: &[&str],
    contents: &[FileBytes],
    sink: &mut W,
) -> Result<(), Refused>
    requires few { length names.now ≤ 32 }
    requires many { length contents.now ≡ 2 + length names.now }
    ensures does { SendsOrders language task (text_at contents.now 0) (text_at contents.now 1)
        (order_texts (unborrowed_names names.now) (drop 2 contents.now))
        (port W.taken W.has_failed sink.old sink.new) result }
    ensures untouched { IsErr result → is_device result ≡ false → sink.new ≡ sink.old }
    ensures failed { W.has_failed sink.new ≡ (W.has_failed sink.old || is_device result) }
{
    let mut orders = ArrayVec::new();
    push_orders(&mut orders, names, &contents[2..]);
    let options = PageOptions {
        language,
        results: task.results,
    };
    let files = DayFiles {
        machine: text_at(contents, 0),
        sheet: text_at(contents, 1),
        number: task.day,
    };
    run_orders(alloc, options, files, orders.as_slice(), sink)
}

/// Appends to `orders` a file for each of `names`, with the file's bytes from `contents`.
fn push_orders<'f>(
    orders: &mut ArrayVec<OrderFile<'f>, 32>,
    names: &[&'f str],
    contents: &'f [FileBytes],
)
    requires { array_vec_len orders.old + length names.now ≤ 32 }
    ensures { map order_text orders.new.items
        ≡ map order_text orders.old.items ++ order_texts (unborrowed_names names.now) contents.now }
{
    let Some((name, names)) = names.split_first() else {
        return;
    };
    let Some((content, contents)) = contents.split_first() else {
        return;
    };
    orders.push(OrderFile {
        name: *name,
        bytes: content.as_slice(),
    });
    push_orders(orders, names, contents);
}
