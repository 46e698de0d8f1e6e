//! Laws about the texts of cards, the least number of settings, and cards that prove themselves.
ghost use Rattle.kd_card.specs.Laws.{TextsDetermineCards, NoCardBeginsAnother, ReadingGivesCards, CardsHaveNoFault};
ghost use Rattle.kd_card.specs.Laws.{OneCardFault, LooseThingsAreCounted, AsFewAreNeeded, FittingPricesBoundLists};
ghost use Rattle.kd_card.specs.Laws.{ProvingCardsAreAsLong, ProvingCardsAreShortest, ProvingPricesAreTight};
ghost use Rattle.kd_card.specs.Laws.{ProvingPricesShow, ShownListsAreShortest};
ghost use Rattle.kd_card.specs.Months.{CardsAreFewestInAll};

/// Different cards have different texts, and no card's text is a proper prefix of another card's text.
///
/// The text of a card has no fault. Bytes that aren't a card have only one first fault, which `read_card` returns.
pub fn no_two_cards_have_one_text()
    ensures card { TextsDetermineCards }
    ensures prefix { NoCardBeginsAnother }
    ensures reading { ReadingGivesCards }
    ensures no_fault { CardsHaveNoFault }
    ensures one_fault { OneCardFault }
{}

/// The list of settings for a machine's loose things has one setting for each of these things.
///
/// A thing such as a ring or a pin is loose if it isn't as the day says. Cables and bars are never loose.
#[tactic(auto, using(crate::proofs::Leading::loose_things_are_counted))]
pub fn loose_things_are_counted()
    ensures { LooseThingsAreCounted }
{}

/// Prices that fit give a lower bound for the length of each list of settings that reaches the day.
///
/// This bound is the sum of the prices plus the number of loose things. A thing is loose if it isn't as the day says.
/// Cables and bars are never loose.
#[tactic(auto, using(crate::proofs::Months::fitting_prices_bound_lists))]
pub fn fitting_prices_bound_lists()
    ensures { FittingPricesBoundLists }
{}

/// If a list reaches the day and has few enough unpriced settings, each setting of the list is needed.
///
/// A setting is *unpriced* if it changes no cable and no bar. *Few enough* means at most as many as there are loose
/// things. An unpriced setting is needed if it lowers the number of loose things by one. A priced setting always counts
/// as needed.
#[tactic(auto, using(crate::proofs::Months::as_few_are_needed))]
pub fn as_few_are_needed()
    ensures { AsFewAreNeeded }
{}

/// Suppose that a card with prices by number proves itself. Its number of settings is the sum of its prices plus the
/// number of loose things.
///
/// Prices are *by number* if each cable and each column, or each bar and each row, has its own price. A thing is
/// *loose* if it isn't as the day says. Cables and bars are never loose.
#[tactic(auto, using(crate::proofs::Months::proving_cards_are_as_long))]
pub fn proving_cards_are_as_long()
    ensures { ProvingCardsAreAsLong }
{}

/// No list that reaches the day has fewer settings than a card that proves itself.
pub fn proving_cards_are_shortest()
    ensures { ProvingCardsAreShortest }
{}

/// Prices by kind can show that no shorter list of settings reaches the day.
///
/// The prices show this if they fit, and if their sum plus the number of loose things is the number of the list's
/// settings.
pub fn shown_lists_are_shortest()
    ensures { ShownListsAreShortest }
{}

/// If a card with prices by kind proves itself, its prices show that no shorter list reaches the day.
pub fn proving_prices_show()
    ensures { ProvingPricesShow }
{}

/// If a card with prices by number proves itself, no price can be raised alone: the prices would no longer fit.
///
/// The reason: each row and each column of the table of costs has a tight cell. In a tight cell, the prices of row and
/// column add up to exactly the cost.
#[tactic(auto, using(crate::proofs::Months::proving_prices_are_tight))]
pub fn proving_prices_are_tight()
    ensures { ProvingPricesAreTight }
{}

/// If a rotor machine's cards for several days prove themselves, they have the fewest settings in total.
///
/// Each card starts from the machine that the previous card has reached. Other lists that reach these days, in this
/// order and from the same first machine, have no fewer settings.
#[tactic(auto, using(crate::proofs::Months::cards_are_fewest_in_all))]
pub fn cards_are_fewest_in_all()
    ensures { CardsAreFewestInAll }
{}
