//! `DeskFault`: why a command is refused.
ghost use Rattle.std.specs.Prelude.{◌≡◌, Some};
ghost use Rattle.kd_desk.specs.FaultText.{desk_fault_text};

use kd_card::CardFault;
use kd_form::FormFault;
use kd_plan::OtherModel;
use kd_prices::Doubt;
use kd_sheet::SheetFault;
use kd_state::{IllegalAt, ListFault};
use kd_tables::{Device, Refusal, RefusalText};
use std::alloc::AllocError;
use std::fmt;
use thiserror::Error;

/// Why the desk refuses a command: the first fault, in the order of testing.
#[derive(Clone, Copy, Debug, PartialEq, Eq, Error)]
pub enum DeskFault {
    /// A machine file or a key sheet has this fault, or memory ran out.
    File(SheetFault),
    /// A list of settings has this fault.
    List(ListFault),
    /// A card has this fault.
    Card(CardFault),
    /// The machine refuses this line of a list or a card, after the lines before it were carried out.
    Illegal(IllegalAt),
    /// The machine and the sheet's day are of different models.
    OtherModel,
    /// A read from a source or a write to a sink failed.
    Device,
    /// A source or a file has more than `READ_LIMIT` bytes.
    ReadTooLong,
    /// The key sheet has no day with the command's day number.
    NoSuchDay,
    /// The card is for another day than the command.
    OtherDay,
    /// The card doesn't prove itself shortest, for this reason.
    Doubtful(Doubt),
    /// Why a text can't be typed, why an order can't be sent, or why a form can't be received.
    Message(FormFault),
}

impl DeskFault {
    /// The refusal's number and name, and then any values of the fault, such as a line or a key.
    pub fn text(&self) -> RefusalText
        ensures { result.bytes ≡ desk_fault_text self.now }
    {
        match self {
            DeskFault::File(fault) => fault.text(),
            DeskFault::List(fault) => fault.text(),
            DeskFault::Card(fault) => fault.text(),
            DeskFault::Illegal(fault) => fault.text(),
            DeskFault::OtherModel => Refusal::OtherModel.text(),
            DeskFault::Device => Refusal::Device.text(),
            DeskFault::ReadTooLong => Refusal::ReadTooLong.text(),
            DeskFault::NoSuchDay => Refusal::NoSuchDay.text(),
            DeskFault::OtherDay => Refusal::OtherDay.text(),
            DeskFault::Doubtful(doubt) => doubt.text(),
            DeskFault::Message(fault) => fault.text(),
        }
    }
}

impl fmt::Display for DeskFault {
    ghost output = { λ fault. Some (desk_fault_text fault) };

    fn fmt<W: fmt::Write>(&self, f: &mut fmt::Formatter<W>) -> fmt::Result {
        f.write_str(self.text().as_str())
    }
}

impl From<SheetFault> for DeskFault {
    ghost use Rattle.std.specs.Prelude.{◌≡◌};
    ghost use Rattle.kd_desk.specs.declared.fault.DeskFault.TheVariants as faults;

    ghost from_gives = { λ fault desk. desk ≡ faults.File fault };

    fn from(fault: SheetFault) -> DeskFault {
        DeskFault::File(fault)
    }
}

impl From<AllocError> for DeskFault {
    ghost use Rattle.std.specs.Prelude.{◌≡◌};
    ghost use Rattle.kd_desk.specs.declared.fault.DeskFault.TheVariants as faults;
    ghost use Rattle.kd_sheet.specs.declared.fault.SheetFault.TheVariants.{NoMemory};

    ghost from_gives = { λ _ desk. desk ≡ faults.File NoMemory };

    fn from(_: AllocError) -> DeskFault {
        DeskFault::File(SheetFault::NoMemory)
    }
}

impl From<CardFault> for DeskFault {
    ghost use Rattle.std.specs.Prelude.{◌≡◌};
    ghost use Rattle.kd_desk.specs.declared.fault.DeskFault.TheVariants as faults;

    ghost from_gives = { λ fault desk. desk ≡ faults.Card fault };

    fn from(fault: CardFault) -> DeskFault {
        DeskFault::Card(fault)
    }
}

impl From<IllegalAt> for DeskFault {
    ghost use Rattle.std.specs.Prelude.{◌≡◌};
    ghost use Rattle.kd_desk.specs.declared.fault.DeskFault.TheVariants as faults;

    ghost from_gives = { λ fault desk. desk ≡ faults.Illegal fault };

    fn from(fault: IllegalAt) -> DeskFault {
        DeskFault::Illegal(fault)
    }
}

impl From<OtherModel> for DeskFault {
    ghost use Rattle.std.specs.Prelude.{◌≡◌};
    ghost use Rattle.kd_desk.specs.declared.fault.DeskFault.TheVariants as faults;

    ghost from_gives = { λ _ desk. desk ≡ faults.OtherModel };

    fn from(_: OtherModel) -> DeskFault {
        DeskFault::OtherModel
    }
}

impl From<Doubt> for DeskFault {
    ghost use Rattle.std.specs.Prelude.{◌≡◌};
    ghost use Rattle.kd_desk.specs.declared.fault.DeskFault.TheVariants as faults;

    ghost from_gives = { λ doubt desk. desk ≡ faults.Doubtful doubt };

    fn from(doubt: Doubt) -> DeskFault {
        DeskFault::Doubtful(doubt)
    }
}

impl From<Device> for DeskFault {
    ghost use Rattle.std.specs.Prelude.{◌≡◌};
    ghost use Rattle.kd_desk.specs.declared.fault.DeskFault.TheVariants as faults;

    ghost from_gives = { λ _ desk. desk ≡ faults.Device };

    fn from(_: Device) -> DeskFault {
        DeskFault::Device
    }
}

impl From<FormFault> for DeskFault {
    ghost use Rattle.std.specs.Prelude.{◌≡◌};
    ghost use Rattle.kd_desk.specs.Messages.{fault_of_message};

    ghost from_gives = { λ fault desk. desk ≡ fault_of_message fault };

    fn from(fault: FormFault) -> DeskFault {
        match fault {
            FormFault::Device => DeskFault::Device,
            FormFault::ReadTooLong => DeskFault::ReadTooLong,
            fault => DeskFault::Message(fault),
        }
    }
}
