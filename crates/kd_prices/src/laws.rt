//! Laws of cards that prove themselves, and of the first doubt about any other card.
ghost use Rattle.kd_prices.specs.Laws.{ProvingCardsAreInNoDoubt, OneDoubt, RestIsShortest, AlikePricesAreEqual};

/// If a card proves itself, there is no doubt about the card. No card has two different first doubts.
pub fn a_card_is_in_one_doubt_at_most()
    ensures none { ProvingCardsAreInNoDoubt }
    ensures one { OneDoubt }
{}

/// Suppose that a card proves itself, and that its first lines are carried out. The remaining lines are then a
/// shortest list to the day.
pub fn rest_of_a_card_is_shortest()
    ensures { RestIsShortest }
{}

/// If a card with prices by number proves itself, equal cables, columns, bars or rows have equal prices.
///
/// Prices are *by number* if each cable, column, bar or row has its own price. Cables are equal if they have the same
/// letters. Bars are equal if their lugs are at the same places. Rows of the sheet are equal if they have the same
/// reading. All empty columns (those without a pair) are equal.
#[tactic(auto, using(crate::proofs::AlikePrices::alike_prices_are_equal))]
pub fn alike_prices_are_equal()
    ensures { AlikePricesAreEqual }
{}
