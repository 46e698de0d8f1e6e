//! Laws about tables. They follow from the definitions of ciphers and tables alone, not from the code.
ghost use Rattle.kd_typing.specs.Laws.{PinTablesAreRead, RotorTablesAreRead, TypingOnPinTable, TypingOnRotorTable};

/// Typing on the table of a rotor machine gives the machine's own ciphertext, whatever letters the windows show at the
/// start.
#[tactic(auto, using(crate::proofs::RotorTyping::typing_on_rotor_table))]
pub fn tables_type_as_rotor_machines()
    ensures { TypingOnRotorTable }
{}

/// Typing on the table of a Converter gives the Converter's own ciphertext, whatever letters the wheels show at the
/// start.
#[tactic(auto, using(crate::proofs::PinTyping::typing_on_pin_table))]
pub fn tables_type_as_converters()
    ensures { TypingOnPinTable }
{}

/// A table that is written as text is read back as the same table.
#[tactic(auto, using(crate::proofs::ReadTables::rotor_tables_are_read, crate::proofs::ReadTables::pin_tables_are_read))]
pub fn texts_of_tables_are_read()
    ensures rotor { RotorTablesAreRead }
    ensures pin { PinTablesAreRead }
{}
