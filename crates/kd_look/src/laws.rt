//! Laws: without a machine, this crate judges an order as `send` does, and a form as `receive` does. The groups that
//! this crate names are the message's own.
ghost use Rattle.kd_look.specs.Laws.{FaultlessFormsAreReceived, FaultlessOrdersAreSent, FormFaultsAreThoseOfReceive};
ghost use Rattle.kd_look.specs.Laws.{FormsAreForTheirMachine, FormsBeginWithHeadings, OrdersAreForTheirMachine};
ghost use Rattle.kd_look.specs.Laws.{FormsAreSeenWithoutLetters, OrdersAreNoForms};
ghost use Rattle.kd_look.specs.Laws.{HeadFaultsAreThoseOfSend, HeadsEndWhereSendEndsThem, OrderFaultsAreThoseOfSend};
ghost use Rattle.kd_look.specs.Laws.{ConverterFormsHaveNoGroups, FormGroupsAreThoseOfBodies};
ghost use Rattle.kd_look.specs.Laws.{OrderGroupsAreThoseOfKeys};

/// For an order's head, this crate and `send` find the same end, or the same first wrong byte.
///
/// This holds on each day for a machine whose lines of keys have the form that this crate looks for.
pub fn heads_are_read_as_send_reads_them()
    ensures faults { HeadFaultsAreThoseOfSend }
    ensures ends { HeadsEndWhereSendEndsThem }
{}

/// If this crate finds a fault in an order, `send` refuses the order with this fault. Otherwise, `send` makes a form
/// of the order.
///
/// The day is for the machine that the order is for. `send` may instead name a fault that can be found only with the
/// day: a wrong group, or keys without an internal key.
pub fn orders_are_judged_as_send_judges_them()
    ensures faults { OrderFaultsAreThoseOfSend }
    ensures faultless { FaultlessOrdersAreSent }
{}

/// If this crate finds a fault in a form, `receive` refuses the form with this fault. Otherwise,
/// `receive` reads the form.
///
/// The day is for the machine that the form's first heading is for. `receive` may instead name a
/// fault of a part's letters: of the group, or of the indicators.
pub fn forms_are_judged_as_receive_judges_them()
    ensures faults { FormFaultsAreThoseOfReceive }
    ensures faultless { FaultlessFormsAreReceived }
{}

/// For an order without a fault, this crate names the order's own groups.
///
/// Each line of keys gives its group, in the order of the lines. A Converter's order has no groups.
pub fn groups_of_orders_are_those_of_their_keys()
    ensures groups { OrderGroupsAreThoseOfKeys }
{}

/// For a form without a fault, this crate names the form's own groups.
///
/// Each part gives the group in its body, in the order of the parts. A Converter's form has no groups.
pub fn groups_of_forms_are_those_of_their_bodies()
    ensures groups { FormGroupsAreThoseOfBodies }
    ensures none { ConverterFormsHaveNoGroups }
{}

/// This crate judges a form as `receive` would without deciphering the form's letters.
///
/// So the law also covers forms whose letters have a fault.
pub fn forms_are_judged_without_their_letters()
    ensures { FormsAreSeenWithoutLetters }
{}

/// This crate names the right machine for a message.
///
/// If `send` makes a form of the order, or `receive` reads the form, this crate names the day's machine.
pub fn messages_are_taken_for_their_machine()
    ensures orders { OrdersAreForTheirMachine }
    ensures forms { FormsAreForTheirMachine }
{}

/// This crate takes a text for a form exactly if the text begins like a heading line.
///
/// If `send` makes a form of an order, this crate takes the order for an order.
pub fn messages_are_taken_for_their_kind()
    ensures forms { FormsBeginWithHeadings }
    ensures orders { OrdersAreNoForms }
{}
