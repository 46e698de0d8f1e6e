//! Tests of the texts of faults that no run of the program says.
use kd_desk::DeskFault::{self, Doubtful, File, Message};
use kd_form::FormFault::{self, PartKeys};
use kd_prices::Doubt::PriceTooHigh;
use kd_sheet::Key;
use kd_sheet::SheetFault::{self, BadValue, Missing};

/// Faults with their texts.
///
/// The first three come of no file: these keys may be missing, and each row has a fault of its own. Want of memory
/// depends on the host. Of the faults that runs say, two with two places are printed here too.
static FAULTS: [(DeskFault, &str); 7] = [
    (File(Missing(Key::Cables)), "20 Missing cables"),
    (File(Missing(Key::Groups)), "20 Missing groups"),
    (File(BadValue(Key::Rows)), "21 BadValue rows"),
    (File(SheetFault::NoMemory), "26 NoMemory"),
    (Message(FormFault::NoMemory), "26 NoMemory"),
    (Doubtful(PriceTooHigh(13, 2)), "15 PriceTooHigh 13 2"),
    (
        Message(PartKeys {
            needed: 100,
            given: 99,
        }),
        "30 PartKeys 100 99",
    ),
];

#[test]
fn says_why_it_refuses(rt: HostRuntime) {
    for (fault, text) in &FAULTS {
        let said = format!(in rt.alloc(); "{fault}").ok();
        assert_eq!(rt; said.expect(&rt, "memory").as_str(), *text);
        assert_eq!(rt; fault.text().as_str(), *text);
    }
}
