//! Laws of machines, settings and days.
ghost use Rattle.kd_state.specs.Laws.{LinesDetermineSettings, TextsDetermineLists, ListsHaveNoFault, OneListFault};
ghost use Rattle.kd_state.specs.Laws.{SettingsKeepMachines, ListsKeepMachines, ListsHaveOneResult, SamePartsAreEqual};
ghost use Rattle.kd_state.specs.Laws.{EngineEnciphersAsMachine, TurnedEngineEnciphersAsMachine, ReadsAsDayIsReady};
ghost use Rattle.kd_state.specs.Laws.{ReadsAsDayEnciphersAsDay, OnKeyIsReady, OnKeyEnciphersByDaysKey};
ghost use Rattle.kd_state.specs.Laws.{TurnedStaysOnKey, TurningChangesOnlyLetters, TurnedEnciphersByDaysKey};
ghost use Rattle.kd_state.specs.Laws.{MachinesCanBeTurned, EquallySetDecipher, DaysEngineDeciphersItself};
ghost use Rattle.kd_state.specs.Laws.{CipherOfChunks, KeyAfterChunks};
ghost use Rattle.kd_state.specs.{Laws.{LeadsOrRefuses}, OneChange.{SettingsChangeOneThing}};

/// The operator `==` is true for two wheels, or for two reflectors, exactly if they are the same.
pub fn same_parts_are_equal()
    ensures { SamePartsAreEqual }
{}

/// Different settings have different lines, and different lists have different texts.
///
/// The text of a list has no fault, and no text has two faults. For a text that isn't a list, `read_list` returns
/// the fault.
pub fn texts_determine_settings()
    ensures setting { LinesDetermineSettings }
    ensures list { TextsDetermineLists }
    ensures no_fault { ListsHaveNoFault }
    ensures one_fault { OneListFault }
{}

/// After a setting or a list of settings is carried out, the machine's parts are still legal.
pub fn settings_keep_machines()
    ensures one { SettingsKeepMachines }
    ensures lists { ListsKeepMachines }
{}

/// A machine carries a setting out exactly if it has no reason to refuse the setting. The setting then sets one item,
/// such as a ring.
///
/// Nothing else changes, not even the rings and letters of wheels in the box. The exception is `Setting::Seat`, which
/// also empties the wheel's old slot.
#[tactic(auto, using(crate::proofs::OneChange::settings_change_one_thing))]
pub fn settings_change_one_thing()
    ensures { SettingsChangeOneThing }
{}

/// Carrying out a list of settings has only one result.
#[tactic(auto, using(crate::proofs::Carrying::leads_unique))]
pub fn lists_have_one_result()
    ensures { ListsHaveOneResult }
{}

/// If settings lead from one machine to another, no setting is refused on the way.
pub fn settings_lead_or_are_refused()
    ensures { LeadsOrRefuses }
{}

/// An engine made from a machine enciphers as the machine does.
///
/// The engine and the machine still encipher alike after both are turned to the same letters.
#[tactic(auto, using(crate::proofs::Keys::engine_cipher, crate::proofs::Keys::turned_engine))]
pub fn engines_encipher_as_their_machines()
    ensures standing { EngineEnciphersAsMachine }
    ensures turned { TurnedEngineEnciphersAsMachine }
{}

/// If a machine is set as the day says and shows the day's letters, it is ready. It enciphers as the day asks.
#[tactic(auto, using(crate::proofs::Keys::reading_ready, crate::proofs::Keys::reading_cipher))]
pub fn reads_as_day_enciphers_as_day()
    ensures ready { ReadsAsDayIsReady }
    ensures cipher { ReadsAsDayEnciphersAsDay }
{}

/// A machine on the day's key is ready. It enciphers by the day's key, starting from the letters that it shows.
#[tactic(auto, using(crate::proofs::Keys::on_key_ready, crate::proofs::Keys::on_key_cipher))]
pub fn on_key_enciphers_by_days_key()
    ensures ready { OnKeyIsReady }
    ensures cipher { OnKeyEnciphersByDaysKey }
{}

/// If a machine is turned to other letters, only the letters in its key change.
///
/// A machine on the day's key stays on the key when it is turned. It then enciphers by the day's key, starting from the
/// letters that it shows.
#[tactic(auto, using(crate::proofs::Keys::turned_key, crate::proofs::Keys::turned_on_key, crate::proofs::Keys::turned_cipher))]
pub fn turning_keeps_the_key()
    ensures key { TurningChangesOnlyLetters }
    ensures on_key { TurnedStaysOnKey }
    ensures cipher { TurnedEnciphersByDaysKey }
{}

/// A ready machine can be turned to any window.
///
/// A window is one letter for each slot; or, on a Converter, one letter of each pin wheel.
#[tactic(auto, using(crate::proofs::WheelsInSlots::can_be_turned))]
pub fn ready_machines_can_be_turned()
    ensures { MachinesCanBeTurned }
{}

/// If two machines on the day's key show the same letters, each deciphers the other's ciphertext.
///
/// If an engine on the day's key is turned back to the letters that it showed first, it deciphers its own ciphertext.
pub fn equally_set_machines_decipher()
    ensures another { EquallySetDecipher }
    ensures itself { DaysEngineDeciphersItself }
{}

/// A text can be enciphered in two chunks. The second chunk starts from the engine's key after the first chunk.
#[tactic(auto, using(crate::proofs::Keys::cipher_in_turn, crate::proofs::Keys::key_in_turn))]
pub fn chunks_are_enciphered_in_turn()
    ensures cipher { CipherOfChunks }
    ensures after { KeyAfterChunks }
{}
