//! Costs: the least number of settings that give a cable a day's pair, or give a bar a day's reading.

pub(crate) mod tables;

ghost use Rattle.std.specs.Prelude.{◌≡◌, ◌≢◌, ◌≤◌, ◌∷◌, Some};
ghost use Rattle.std.specs.Option.{option_to_list};
ghost use Rattle.kd_tables.specs.{Pairs.has_letter, Places.place_rank};
ghost use Rattle.kd_state.specs.Setting.{is_same_place};
ghost use Rattle.kd_state.specs.Costs as costs;
ghost use Rattle.kd_state.specs.Costs.{column_letters};

use crate::machine::cable::{Cable, lies_in};
use kd_tables::{Letter, Place, Reading, Standing};

/// The cost of giving `cable` the pair `column`, or of emptying the cable if `column` is `None`.
///
/// The cost is the number of letters that are in the cable or in the pair, but not in both.
#[tactic(auto, using(crate::proofs::CostTable::at_most_four, crate::proofs::CostTable::counted_more))]
pub fn cable_cost(cable: Cable, column: Option<(Letter, Letter)>) -> u8
    ensures cost { result ≡ costs.cable_cost cable column }
    ensures bound { result ≤ 4 }
{
    let (cable, column) = (&cable, &column);
    let mut cost = 0;
    for index in 0..26 {
        let letter = Letter::new(index).unwrap();
        cost += u8::from(lies_in(cable, letter) != lies_in_column(*column, letter));
    }
    cost
}

/// Whether `letter` is in the pair `column`. False if `column` is `None`.
pub fn lies_in_column(column: Option<(Letter, Letter)>, letter: Letter) -> bool
    ensures { result ≡ has_letter (column_letters column) letter }
{
    match column {
        Some((one, other)) => one == letter || other == letter,
        None => false,
    }
}

/// The cost of giving a bar at `standing` the reading `row`: the least number of lugs to move.
pub fn bar_cost(standing: Standing, row: Reading) -> u8
    ensures cost { result ≡ costs.bar_cost standing row }
    ensures bound { result ≤ 2 }
{
    lugs_moved(standing, nearest_standing(standing, row))
}

/// Of all standings with the reading `row`, the one nearest to `standing`: the fewest lugs have to move.
///
/// If two standings are equally near, the result is the first of them in the order of standings.
#[tactic(auto, using(crate::proofs::Prelude::nat_tests))]
pub fn nearest_standing(standing: Standing, row: Reading) -> Standing
    ensures nearest { costs.nearest_standing standing row ≡ Some result }
    ensures cost { costs.lugs_moved standing result ≡ costs.bar_cost standing row }
{
    match standings_of(row) {
        (first, Some(second)) if lugs_moved(standing, second) < lugs_moved(standing, first) => {
            second
        }
        (first, _) => first,
    }
}

/// The standings with the reading `row`, in order: two if exactly one number of `row` is 0, otherwise one.
#[tactic(auto, using(crate::proofs::CostTable::standings_of_zeros, crate::proofs::CostTable::one_zero, crate::proofs::CostTable::no_zero))]
fn standings_of(row: Reading) -> (Standing, Option<Standing>)
    ensures { costs.standings_as row ≡ result.0 ∷ option_to_list result.1 }
{
    let (smaller, larger) = row.numbers();
    if larger == 0 {
        (standing_across(Place::ZeroLeft, Place::ZeroRight), None)
    } else if smaller == 0 {
        let place = place_of_pin_wheel(larger);
        let first = standing_across(Place::ZeroLeft, place);
        (first, Some(standing_across(place, Place::ZeroRight)))
    } else {
        (
            standing_across(place_of_pin_wheel(smaller), place_of_pin_wheel(larger)),
            None,
        )
    }
}

/// The standing whose two lugs are at the places `one` and `other`; either place may be the left one.
fn standing_across(one: Place, other: Place) -> Standing
    requires { place_rank one ≢ place_rank other }
    ensures { result ≡ costs.standing_across one other }
{
    if one < other {
        Standing::new(one, other).unwrap()
    } else {
        Standing::new(other, one).unwrap()
    }
}

/// The place on a bar where pin wheel `number` acts.
fn place_of_pin_wheel(number: u8) -> Place
    requires { (1 ≤ number) × (number ≤ 6) }
    ensures { result ≡ costs.place_of_pin_wheel number }
{
    match number {
        1 => Place::One,
        2 => Place::Two,
        3 => Place::Three,
        4 => Place::Four,
        5 => Place::Five,
        _ => Place::Six,
    }
}

/// The number of lugs, 0 to 2, whose places differ between the standings `standing` and `other`.
fn lugs_moved(standing: Standing, other: Standing) -> u8
    ensures value { result ≡ costs.lugs_moved standing other }
    ensures bound { result ≤ 2 }
{
    lug_cost(standing.left(), other.left()) + lug_cost(standing.right(), other.right())
}

/// 1 if the places differ, else 0.
fn lug_cost(place: Place, other: Place) -> u8
    ensures value { result ≡ costs.one_unless (is_same_place place other) }
    ensures bound { result ≤ 1 }
{
    if place == other { 0 } else { 1 }
}
