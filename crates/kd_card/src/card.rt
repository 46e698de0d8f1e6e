//! A card: a list of settings, and prices that can prove that no shorter list reaches the day.
use super::prices::Prices;
use kd_state::Settings;

/// A card: settings, in the order in which they are carried out, and prices.
///
/// If the card proves itself, no shorter list of settings reaches the day.
#[derive(Drop)]
pub struct Card {
    pub settings: Settings,
    pub prices: Prices,
}
