//! Why reading a message stops before its end: the message is refused, or a device failed.
use crate::fault::FormFault;
use kd_tables::Device;

/// Why reading a message stops before its end.
#[derive(Clone, Copy)]
pub(crate) enum Interruption {
    /// A read from the source or a write to the sink failed.
    Device,
    /// The message is refused.
    Refused(FormFault),
}

impl From<Interruption> for FormFault {
    ghost use Rattle.std.specs.Prelude.{◌≡◌};
    ghost use Rattle.kd_form.specs.StreamSteps.{fault_of_interruption};

    ghost from_gives = { λ stop fault. fault ≡ fault_of_interruption stop };

    fn from(stop: Interruption) -> FormFault {
        match stop {
            Interruption::Device => FormFault::Device,
            Interruption::Refused(fault) => fault,
        }
    }
}

impl From<FormFault> for Interruption {
    ghost use Rattle.std.specs.Prelude.{◌≡◌};
    ghost use Rattle.kd_form.specs.declared.stream.interruption.Interruption.TheVariants as stops;

    ghost from_gives = { λ fault stop. stop ≡ stops.Refused fault };

    fn from(fault: FormFault) -> Interruption {
        Interruption::Refused(fault)
    }
}

impl From<Device> for Interruption {
    ghost use Rattle.std.specs.Prelude.{◌≡◌};
    ghost use Rattle.kd_form.specs.declared.stream.interruption.Interruption.TheVariants as stops;

    ghost from_gives = { λ _ stop. stop ≡ stops.Device };

    fn from(_: Device) -> Interruption {
        Interruption::Device
    }
}
