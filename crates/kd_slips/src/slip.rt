//! `Slip`: the reason why a value of a file is refused, in words.
ghost use Rattle.std.specs.Prelude.{IfErr, IsErr, None, Some};
ghost use Rattle.kd_slips.specs.Items.{HasFault};

use kd_sheet::SheetFault;
use std::alloc::AllocError;

/// The reason why a value is refused.
#[derive(Drop)]
pub enum Slip {
    /// The fault that the desk names, the number of a list item, and words about this item. If the words aren't about a
    /// list item, the number is `None`.
    Fault(SheetFault, Option<usize>, String),
    /// Memory ran out.
    NoMemory,
}

impl From<AllocError> for Slip {
    ghost use Rattle.std.specs.Prelude.{◌≡◌};
    ghost use Rattle.kd_slips.specs.declared.slip.Slip.TheVariants as slips;

    ghost from_gives = { λ _ slip. slip ≡ slips.NoMemory };

    fn from(_: AllocError) -> Slip {
        Slip::NoMemory
    }
}

/// Refuses a value: returns a slip with the fault `fault` and the words `words`.
pub fn refuse<T>(fault: SheetFault, words: Result<String, AllocError>) -> Result<T, Slip>
    ensures refused { IsErr result }
    ensures slip { IfErr result (HasFault fault None) }
{
    Err(Slip::Fault(fault, None, words?))
}

/// Refuses item number `item` of a list, counted from 1: returns a slip with the fault `fault` and the words `words`.
pub fn refuse_item<T>(
    fault: SheetFault,
    item: usize,
    words: Result<String, AllocError>,
) -> Result<T, Slip>
    ensures refused { IsErr result }
    ensures slip { IfErr result (HasFault fault (Some item)) }
{
    Err(Slip::Fault(fault, Some(item), words?))
}
