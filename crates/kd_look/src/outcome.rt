//! `Outcome`: the first fault of some files, if they have any.
ghost use Rattle.std.specs.Prelude.{◌≡◌};
ghost use Rattle.kd_look.specs.Look.{or_later};

use kd_form::FormFault;
use kd_sheet::SheetFault;

/// What was found in files: no fault, or the first fault.
#[derive(Clone, Copy, Debug, PartialEq, Eq)]
pub enum Outcome {
    /// No file has a fault.
    Faultless,
    /// The first fault of the first file that has a fault.
    Faulty(FoundFault),
}

/// A fault that was found in a file.
#[derive(Clone, Copy, Debug, PartialEq, Eq)]
pub enum FoundFault {
    /// A fault in a file that is neither an order nor a form, such as a key sheet.
    File(SheetFault),
    /// A fault in an order or a form.
    Message(FormFault),
}

impl Outcome {
    /// This outcome or, if it is `Faultless`, the outcome `later` of the later files.
    pub fn or(self, later: Outcome) -> Outcome
        ensures { result ≡ or_later self later }
    {
        match self {
            Outcome::Faultless => later,
            faulty => faulty,
        }
    }
}
