//! `FormFault`: why a text, an order or a form is refused.
ghost use Rattle.std.specs.Prelude.{◌≡◌, Some};
ghost use Rattle.kd_form.specs.FaultText.{form_fault_text};

use kd_state::NotReady;
use kd_tables::{Device, Refusal, RefusalText};
use std::fmt;
use thiserror::Error;

/// Why a typed text, an order or a form is refused. Bytes and parts are counted from 1.
#[derive(Clone, Copy, Debug, PartialEq, Eq, Error)]
pub enum FormFault {
    /// A slot of the machine is empty, or a cable has only one letter.
    NotReady,
    /// A read from the source or a write to the sink failed.
    Device,
    /// There was no memory for the form or the text that the call returns.
    NoMemory,
    /// The machine isn't on the day's key: it isn't set as the day says.
    NotOnKey,
    /// The byte at this position of the message isn't allowed there, or is missing.
    BadByte(usize),
    /// The order's text has no letter.
    EmptyText,
    /// The text needs `needed` parts, but the order has `given` lines of keys.
    PartKeys { needed: usize, given: usize },
    /// One of the external letters isn't on its pin wheel.
    KeyNotOnWheel,
    /// This part's group isn't one of the day's groups. On the Converter M-209, this part's list letters aren't the
    /// day's.
    WrongGroup(u8),
    /// This part's chosen and external letters give no internal key.
    IndicatorSpent(u8),
    /// This part doesn't begin with a valid heading for the day's model.
    BadHeading(u8),
    /// This part has more or fewer letters than its heading says.
    CountWrong(u8),
    /// The indicators at this part's start and end differ, or the part's first two letters aren't equal.
    IndicatorsDiffer(u8),
    /// Parts are out of order or missing, or their headings give different numbers of parts.
    PartOrder,
    /// The source has more than `READ_LIMIT` bytes.
    ReadTooLong,
}

impl FormFault {
    /// The refusal's text, such as `28 BadByte 5`: the refusal's number and name, and then the variant's fields.
    pub fn text(&self) -> RefusalText
        ensures { result.bytes ≡ form_fault_text self.now }
    {
        match *self {
            FormFault::NotReady => Refusal::NotReady.text(),
            FormFault::Device => Refusal::Device.text(),
            FormFault::NoMemory => Refusal::NoMemory.text(),
            FormFault::NotOnKey => Refusal::NotOnKey.text(),
            FormFault::BadByte(position) => Refusal::BadByte.text_at(position),
            FormFault::EmptyText => Refusal::EmptyText.text(),
            FormFault::PartKeys { needed, given } => Refusal::PartKeys.text_at_both(needed, given),
            FormFault::KeyNotOnWheel => Refusal::KeyNotOnWheel.text(),
            FormFault::WrongGroup(part) => Refusal::WrongGroup.text_at(usize::from(part)),
            FormFault::IndicatorSpent(part) => Refusal::IndicatorSpent.text_at(usize::from(part)),
            FormFault::BadHeading(part) => Refusal::BadHeading.text_at(usize::from(part)),
            FormFault::CountWrong(part) => Refusal::PartCountWrong.text_at(usize::from(part)),
            FormFault::IndicatorsDiffer(part) => Refusal::IndicatorsDiffer.text_at(usize::from(
                part,
            )),
            FormFault::PartOrder => Refusal::PartOrder.text(),
            FormFault::ReadTooLong => Refusal::ReadTooLong.text(),
        }
    }
}

impl fmt::Display for FormFault {
    ghost output = { λ fault. Some (form_fault_text fault) };

    fn fmt<W: fmt::Write>(&self, f: &mut fmt::Formatter<W>) -> fmt::Result {
        f.write_str(self.text().as_str())
    }
}

impl From<NotReady> for FormFault {
    ghost use Rattle.std.specs.Prelude.{◌≡◌};
    ghost use Rattle.kd_form.specs.declared.fault.FormFault.TheVariants as faults;

    ghost from_gives = { λ _ fault. fault ≡ faults.NotReady };

    fn from(_: NotReady) -> FormFault {
        FormFault::NotReady
    }
}

impl From<Device> for FormFault {
    ghost use Rattle.std.specs.Prelude.{◌≡◌};
    ghost use Rattle.kd_form.specs.declared.fault.FormFault.TheVariants as faults;

    ghost from_gives = { λ _ fault. fault ≡ faults.Device };

    fn from(_: Device) -> FormFault {
        FormFault::Device
    }
}
