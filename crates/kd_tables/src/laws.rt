//! Laws of published tables, pin wheels, permutations, orderings and the read limit.
ghost use Rattle.std.specs.Prelude.{◌≡◌, ℕ, Contains};
ghost use Rattle.std.specs.Ordering.{ordering_then, nat_cmp};
ghost use Rattle.kd_tables.specs.Places.{place_rank};
ghost use Rattle.kd_tables.specs.Ports.{read_limit};
ghost use Rattle.kd_tables.specs.Tables.{all_models};
ghost use Rattle.kd_tables.specs.declared.model.TheConstants.Model.{ALL};
ghost use Rattle.kd_tables.specs.declared.ports.limit.TheConstants.{READ_LIMIT};
ghost use Rattle.kd_tables.specs.Laws.{WiringsArePermutations, ReflectorsArePermutations, ReflectorsAreOwnInverses};
ghost use Rattle.kd_tables.specs.Laws.{ReflectorsMoveEachLetter, ProductsByLetter, InversesByLetter, ShiftsByLetter};
ghost use Rattle.kd_tables.specs.Laws.{ProductsArePermutations, InversesArePermutations, ShiftsArePermutations};
ghost use Rattle.kd_tables.specs.Laws.{InverseUndoesAfter, InverseUndoesBefore, InversesOfProducts, InversesOfShifts};
ghost use Rattle.kd_tables.specs.Laws.{LettersLeadToPlaces, PlacesLeadToLetters};

use super::letter::Letter;
use super::model::Model;
use super::place::Place;
use super::reading::Reading;
use super::standing::Standing;

/// The published wirings of wheels and reflectors are permutations. A reflector exchanges letters in pairs.
#[tactic(auto, using(crate::proofs::Wirings::reflector_returns, crate::proofs::Wirings::reflector_moves))]
pub fn tables_are_permutations()
    ensures wheels { WiringsArePermutations }
    ensures reflectors { ReflectorsArePermutations }
    ensures own_inverse { ReflectorsAreOwnInverses }
    ensures none_fixed { ReflectorsMoveEachLetter }
{}

/// How products, inverses and shifts of permutations map one letter.
pub fn permutations_by_letter()
    ensures product { ProductsByLetter }
    ensures inverse { InversesByLetter }
    ensures shifts { ShiftsByLetter }
{}

/// Products and inverses of permutations are permutations, and so are shifts of the alphabet.
pub fn products_are_permutations()
    ensures product { ProductsArePermutations }
    ensures inverse { InversesArePermutations }
    ensures shifts { ShiftsArePermutations }
{}

/// A permutation and its inverse, one after the other, map each letter to itself.
///
/// The inverse of a product is the product of the inverses in reverse order. If `k` is at most 26, the inverse of the
/// shift by `k` is the shift by `26 - k`.
#[tactic(auto, using(crate::proofs::Products::product_inverse, crate::proofs::Products::inverse_product, crate::proofs::Products::inverse_of_product, crate::proofs::Products::inverse_of_shift))]
pub fn inverse_undoes()
    ensures after { InverseUndoesAfter }
    ensures before { InverseUndoesBefore }
    ensures products { InversesOfProducts }
    ensures shifts { InversesOfShifts }
{}

/// `place_on` gives the place of each letter on a pin wheel. If `place_on` gives a place for a letter, the wheel has
/// this letter at this place.
pub fn letters_and_places_undo()
    ensures places { LettersLeadToPlaces }
    ensures letters { PlacesLeadToLetters }
{}

/// Letters are ordered as in the alphabet. Readings are ordered by their smaller number, then by their larger number.
pub fn letters_and_readings_have_their_order()
    ensures letters { (one other : ℕ) → ⟦<Letter as Ord>⟧.cmp one other ≡ nat_cmp one other }
    ensures readings { (one other : ℕ × ℕ) → ⟦<Reading as Ord>⟧.cmp one other
        ≡ ordering_then (nat_cmp one.0 other.0) (nat_cmp one.1 other.1) }
{}

/// Places are ordered from left to right. Standings are ordered by the left lug's place, then by the right lug's place.
#[tactic(auto, using(crate::proofs::Orders::place_order, crate::proofs::Orders::standing_order))]
pub fn places_and_standings_have_their_order()
    ensures places { (one other : Place) → ⟦<Place as Ord>⟧.cmp one other
        ≡ nat_cmp (place_rank one) (place_rank other) }
    ensures standings { (one other : Place × Place) → ⟦<Standing as Ord>⟧.cmp one other
        ≡ ordering_then (nat_cmp (place_rank one.0) (place_rank other.0))
        (nat_cmp (place_rank one.1) (place_rank other.1)) }
{}

/// The code's constant `READ_LIMIT` equals `read_limit` in the definitions.
pub fn the_limit_is_the_definitions()
    ensures { READ_LIMIT ≡ read_limit }
{}

/// The code's constant `Model::ALL` is the definitions' list `all_models`. The list has each model.
pub fn all_models_are_listed()
    ensures constant { ALL ≡ all_models }
    ensures each { (model : Model) → Contains all_models model }
{}
