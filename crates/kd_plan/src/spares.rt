//! Assigns pairs first to cables in use. Only the remaining pairs go to spare cables, which have no letter.
ghost use Rattle.std.specs.Prelude.{◌≡◌, ℕ, ◌<◌, ◌≤◌, length, slice_index, IsTrue, MatchOption};
ghost use Rattle.kd_assign.specs.Assignment.{IsOneToOne, assignment_cost};
ghost use Rattle.kd_plan.specs.Spares.{is_spare, comes_before, SparesComeLast};
ghost use Rattle.kd_state.specs.Costs.{cable_cost, columns_of, costs_by};

use kd_state::Cable;
use kd_tables::Letter;

/// Changes the assignment `to`, so that a spare cable has a pair only if each cable before it has a pair.
///
/// Cables in use come before spare cables, and spare cables are in the order of their numbers. In each step, a spare
/// cable swaps its pair for the empty column of a cable before it. The spare cable's cost falls from 2 to 0, and the
/// other cable's cost grows by at most 2. So the total cost doesn't grow.
pub(crate) fn keep_spares_free(cables: &[Cable; 13], pairs: &[(Letter, Letter)], to: &mut [u8; 13])
    requires { IsOneToOne to.old }
    ensures one_to_one { IsOneToOne to.new }
    ensures cost { let costs = costs_by cable_cost cables.now (columns_of pairs.now) in
        assignment_cost costs to.new ≤ assignment_cost costs to.old }
    ensures spares { SparesComeLast cables.now (length pairs.now) to.new }
{
    for spare in (0..13).rev() {
        if is_spare(&cables[spare]) && usize::from(to[spare]) < pairs.len() {
            match find_cable_without_pair(spare, cables, pairs.len(), to) {
                Some(place) => to.swap(spare, place),
                None => return,
            }
        }
    }
}

/// Of the cables that come before the spare cable `spare`, finds the first that gets no pair.
///
/// A cable comes before `spare` if it is in use, or has a lower number. Cables are counted from 0. `pairs` is the
/// number of pairs.
fn find_cable_without_pair(
    spare: usize,
    cables: &[Cable; 13],
    pairs: usize,
    to: &[u8; 13],
) -> Option<usize>
    ensures { MatchOption result
        ((place : ℕ) → place < 13 → IsTrue (comes_before cables.now place spare)
        → slice_index to.now place < pairs)
        (λ place. (place < 13) × IsTrue (comes_before cables.now place spare)
        × (pairs ≤ slice_index to.now place)) }
{
    for place in 0..13 {
        let comes_before = place < spare || !is_spare(&cables[place]);
        if comes_before && usize::from(to[place]) >= pairs {
            return Some(place);
        }
    }
    None
}

fn is_spare(cable: &Cable) -> bool
    ensures { result ≡ is_spare cable.now }
{
    cable.0.is_none() && cable.1.is_none()
}
