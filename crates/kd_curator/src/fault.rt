//! `Refused`: why a command is refused.
ghost use Rattle.std.specs.Prelude.{◌≡◌, ◌≤◌, length};
ghost use Rattle.kd_curator.specs.Refusals.{day_refusal, order_blame, page_fault_text, refused_among, refused_by};
ghost use Rattle.kd_curator.specs.Refusals.{refused_form, refused_in, refused_message, refused_order, refused_table};
ghost use Rattle.kd_language.specs.Language.{in_language};

use crate::blame::{Blame, Remark};
use crate::texts::{FAULTY_FILE, FAULTY_TABLE, NOT_WHOLE, TOO_MANY_PARTS};
use kd_booklet::{DayFault, NoPlan};
use kd_form::FormFault;
use kd_host::FileFault;
use kd_language::{Language, Text};
use kd_lost::DamagedFormFault;
use kd_message::OrderFault;
use kd_sheet::SheetFault;
use kd_spreadsheet::SpreadsheetFault;
use kd_tables::{Device, Refusal, RefusalText, WriteFault};

/// Why a command is refused. Some of the command's output may already be written.
#[derive(Clone, Copy, Debug, PartialEq, Eq)]
pub enum PageFault {
    /// A file can't be opened or read, or memory ran out.
    Unread(FileFault),
    /// The machine file or the key sheet has this fault, or memory ran out.
    File(SheetFault),
    /// The sheet doesn't have the day.
    NoSuchDay,
    /// The machine and the sheet's day are of different models.
    OtherModel,
    /// A fault of the machine or of the order, such as `NotReady` or `EmptyText`, or lack of memory for the message.
    Message(FormFault),
    /// A spreadsheet's table has faults. Notes on standard error name them.
    FaultyTable,
    /// A file that was looked at has faults. The report names them.
    FaultyFile,
    /// The form has more than 255 parts.
    TooManyParts,
    /// The form isn't one whole message of the day: letters or parts are missing, or parts are from another message or
    /// day. The form's page is written nevertheless.
    NotWhole,
    /// A write failed.
    Device,
}

impl PageFault {
    /// The refusal's number and name. If the fault has values, such as a key, these values follow.
    ///
    /// If notes or a report explain the fault, the text has words in `language` instead, without a number.
    pub fn text(&self, language: Language) -> RefusalText
        ensures { result.bytes ≡ page_fault_text language self.now }
    {
        match self {
            PageFault::Unread(fault) => fault.text(),
            PageFault::File(fault) => fault.text(),
            PageFault::NoSuchDay => Refusal::NoSuchDay.text(),
            PageFault::OtherModel => Refusal::OtherModel.text(),
            PageFault::Message(fault) => fault.text(),
            PageFault::FaultyTable => worded_text(language, FAULTY_TABLE),
            PageFault::FaultyFile => worded_text(language, FAULTY_FILE),
            PageFault::TooManyParts => worded_text(language, TOO_MANY_PARTS),
            PageFault::NotWhole => worded_text(language, NOT_WHOLE),
            PageFault::Device => Refusal::Device.text(),
        }
    }
}

/// The text of a refusal without a number: the words in `language`.
fn worded_text(language: Language, words: Text) -> RefusalText
    requires english { length words.0.now ≤ 64 }
    requires german { length words.1.now ≤ 64 }
    ensures { result.bytes ≡ in_language language words.entry.0.now words.entry.1.now }
{
    let mut text = RefusalText::new();
    text.push_str(language.text(words));
    text
}

/// Why a command is refused: the first fault, in the order of testing.
#[derive(Clone, Copy, Debug, PartialEq, Eq)]
pub struct Refused {
    /// If the command is for several days, and is refused for one of them, this day. Otherwise `None`.
    pub day: Option<u8>,
    /// The file that the refusal is about, if there is one.
    pub blame: Option<Blame>,
    pub fault: PageFault,
}

impl Refused {
    /// The refusal of a day that can't be planned. If the command is for `several` days, the refusal names the day.
    pub(crate) fn of_day(fault: DayFault, several: bool) -> Refused
        ensures { result ≡ day_refusal several fault }
    {
        Refused {
            day: several.then_some(fault.day),
            blame: None,
            fault: PageFault::from(fault.why),
        }
    }

    /// The refusal for `fault`, with `remark` on the command's file at place `place`.
    pub(crate) fn of_file(fault: PageFault, place: usize, remark: Remark) -> Refused
        ensures { result ≡ refused_in place remark fault }
    {
        Refused {
            day: None,
            blame: Some(Blame { place, remark }),
            fault,
        }
    }

    /// The refusal for a fault of an order, or of the machine that enciphers the order. The order is at place `place`
    /// among the command's files.
    pub(crate) fn of_order(place: usize, fault: FormFault) -> Refused
        ensures { result ≡ refused_order place fault }
    {
        Refused {
            day: None,
            blame: order_blame(place, fault),
            fault: PageFault::Message(fault),
        }
    }

    /// The refusal for a fault of an order, or of the machine that enciphers or deciphers a message. The order is the
    /// command's third file.
    pub(crate) fn of_message(fault: FormFault) -> Refused
        ensures { result ≡ refused_message fault }
    {
        Refused::of_order(2, fault)
    }

    /// The refusal of the command `send` for the fault `fault`.
    pub(crate) fn of_send(fault: WriteFault<FormFault>) -> Refused
        ensures { result ≡ refused_by refused_message fault }
    {
        match fault {
            WriteFault::Unwritten(fault) => Refused::of_message(fault),
            WriteFault::Device => Refused::from(PageFault::Device),
        }
    }

    /// The refusal of the command `send` with several orders, for the fault `fault`. The first
    /// order is the command's third file.
    pub(crate) fn of_orders(fault: WriteFault<OrderFault>) -> Refused
        ensures { result ≡ refused_by refused_among fault }
    {
        match fault {
            WriteFault::Unwritten(fault) => {
                Refused::of_order(usize::from(fault.place) + 2, fault.why)
            }
            WriteFault::Device => Refused::from(PageFault::Device),
        }
    }

    /// The refusal of the command `receive` for the fault `fault`.
    pub(crate) fn of_receive(fault: WriteFault<DamagedFormFault>) -> Refused
        ensures { result ≡ refused_by refused_form fault }
    {
        match fault {
            WriteFault::Unwritten(DamagedFormFault::NoMemory) => {
                Refused::from(SheetFault::NoMemory)
            }
            WriteFault::Unwritten(DamagedFormFault::TooManyParts) => {
                Refused::of_file(PageFault::TooManyParts, 2, Remark::Named)
            }
            WriteFault::Device => Refused::from(PageFault::Device),
        }
    }

    /// The refusal of the command `sheet` for the fault `fault`.
    pub(crate) fn of_sheet(fault: WriteFault<SpreadsheetFault>) -> Refused
        ensures { result ≡ refused_by refused_table fault }
    {
        match fault {
            WriteFault::Unwritten(SpreadsheetFault::Refused) => {
                Refused::of_file(PageFault::FaultyTable, 0, Remark::Named)
            }
            WriteFault::Unwritten(SpreadsheetFault::NoMemory) => {
                Refused::from(SheetFault::NoMemory)
            }
            WriteFault::Device => Refused::from(PageFault::Device),
        }
    }
}

/// The remark on the file that has the fault: the machine file, which is the command's first file, or the order at
/// place `place` among the command's files. `None` if memory ran out.
fn order_blame(place: usize, fault: FormFault) -> Option<Blame>
    ensures { result ≡ order_blame place fault }
{
    match fault {
        FormFault::NoMemory => None,
        FormFault::NotReady | FormFault::NotOnKey => Some(Blame {
            place: 0,
            remark: Remark::MachineFile,
        }),
        _ => Some(Blame {
            place,
            remark: Remark::Order,
        }),
    }
}

impl From<NoPlan> for PageFault {
    ghost use Rattle.std.specs.Prelude.{◌≡◌};
    ghost use Rattle.kd_curator.specs.Refusals.{fault_of_plan};

    ghost from_gives = { λ why page. page ≡ fault_of_plan why };

    fn from(why: NoPlan) -> PageFault {
        match why {
            NoPlan::NoSuchDay => PageFault::NoSuchDay,
            NoPlan::OtherModel => PageFault::OtherModel,
        }
    }
}

impl From<SheetFault> for PageFault {
    ghost use Rattle.std.specs.Prelude.{◌≡◌};
    ghost use Rattle.kd_curator.specs.declared.fault.PageFault.TheVariants.{File};

    ghost from_gives = { λ fault page. page ≡ File fault };

    fn from(fault: SheetFault) -> PageFault {
        PageFault::File(fault)
    }
}

impl From<PageFault> for Refused {
    ghost use Rattle.std.specs.Prelude.{◌≡◌};
    ghost use Rattle.kd_curator.specs.Refusals.{refused_whole};

    ghost from_gives = { λ fault refused. refused ≡ refused_whole fault };

    fn from(fault: PageFault) -> Refused {
        Refused {
            day: None,
            blame: None,
            fault,
        }
    }
}

impl From<SheetFault> for Refused {
    ghost use Rattle.std.specs.Prelude.{◌≡◌};
    ghost use Rattle.kd_curator.specs.Refusals.{refused_whole};
    ghost use Rattle.kd_curator.specs.declared.fault.PageFault.TheVariants.{File};

    ghost from_gives = { λ fault refused. refused ≡ refused_whole (File fault) };

    fn from(fault: SheetFault) -> Refused {
        Refused::from(PageFault::from(fault))
    }
}

impl From<Device> for Refused {
    ghost use Rattle.std.specs.Prelude.{◌≡◌};
    ghost use Rattle.kd_curator.specs.Refusals.{refused_whole};
    ghost use Rattle.kd_curator.specs.declared.fault.PageFault.TheVariants as faults;

    ghost from_gives = { λ _ refused. refused ≡ refused_whole faults.Device };

    fn from(_: Device) -> Refused {
        Refused::from(PageFault::Device)
    }
}
