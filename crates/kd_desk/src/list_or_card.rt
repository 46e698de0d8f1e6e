//! Reads settings from a list or from a card.
ghost use Rattle.std.specs.Prelude.{MatchResult};
ghost use Rattle.kd_desk.specs.Settings.{AreSettings, IsSettingsFault};

use crate::fault::DeskFault;
use kd_card::{Card, read_card};
use kd_state::{Settings, read_list};

/// The first bytes of every card.
const CARD: &[u8] = b"CARD ";

/// Reads `bytes` as a card if they begin with `CARD `, otherwise as a list with one setting a line.
///
/// The card may be for any day, and have any prices.
pub fn read_settings(bytes: &[u8]) -> Result<Settings, DeskFault>
    ensures { MatchResult result
        (λ settings. AreSettings bytes.now settings.items)
        (IsSettingsFault bytes.now) }
{
    if bytes.starts_with(CARD) {
        match read_card(bytes) {
            Ok((_, Card { settings, .. })) => Ok(settings),
            Err(fault) => Err(DeskFault::Card(fault)),
        }
    } else {
        read_list(bytes).map_err(DeskFault::List)
    }
}
