//! A wheel in its slot, with its permutations for all 26 window letters.
ghost use Rattle.std.specs.Prelude.{◌≡◌, ◌<◌};
ghost use Rattle.kd_tables.specs.Permutation.{followed_by};
ghost use Rattle.kd_enigma.specs.CurrentPath.{around_wheel};
ghost use Rattle.kd_enigma.specs.Rotor.{offset, rotor, wiring_turned_by};

use super::map::Map;
use kd_tables::{Letter, Wheel, unwiring, wiring};
use std::marker::Model;

/// A wheel with its ring, and with a board to its right: the plugboard, or a permutation that changes nothing.
///
/// For each window letter, a `Rotor` keeps two permutations: the current's way in, and its way back.
#[derive(Drop)]
pub(crate) struct Rotor {
    wheel: Wheel,
    ring: Letter,
    board: Map,
    ways: [(Map, Map); 26],
}

impl Model for Rotor {
    ghost use Rattle.std.specs.Prelude.{◌≡◌};
    ghost use Rattle.kd_enigma.specs.CurrentPath.{SeatedWheel, ways_by_window};

    ghost Value = { SeatedWheel };

    ghost view = { λ r. record { wheel = r.wheel; ring = r.ring; board = r.board } };

    ghost invariant = { λ r. r.ways ≡ ways_by_window r.wheel r.ring r.board };
}

impl Rotor {
    pub(crate) fn new(wheel: Wheel, ring: Letter, board: Map) -> Self
        ensures { result ≡ record { wheel = wheel; ring = ring; board = board } }
    {
        let (there, back) = (
            Map::from_table(&wiring(wheel)),
            Map::from_table(&unwiring(wheel)),
        );
        let ways = std::array::from_fn(
            |window: usize|
                requires { window < 26 }
                ensures inward { result.0
                    ≡ followed_by board (wiring_turned_by (offset ring window) there) }
                ensures outward { result.1
                    ≡ followed_by (wiring_turned_by (offset ring window) back) board }
            {
                let inward = board.then(turn_map(there, ring, window));
                (inward, turn_map(back, ring, window).then(board))
            },
        );
        Rotor {
            wheel,
            ring,
            board,
            ways,
        }
    }

    /// The current's path while the letter `window` shows: in to `core`, through `core`, and back.
    ///
    /// The way in leads through the board and the wheel. `core` is the path through the parts to the left of the wheel:
    /// to the reflector, and back.
    pub(crate) fn enclose(&self, core: Map, window: Letter) -> Map
        ensures { result ≡ around_wheel self.now.board core (rotor self.now.wheel self.now.ring window) }
    {
        let (inward, outward) = &self.ways[window.index()];
        inward.then(core).then(*outward)
    }
}

/// The permutation of a wheel with the wiring `map` and the ring `ring`, while the window shows letter `window`.
#[tactic(auto, unfolding(crate::specs::Rotor::wiring_turned_by))]
fn turn_map(map: Map, ring: Letter, window: usize) -> Map
    requires { window < 26 }
    ensures { result ≡ wiring_turned_by (offset ring window) map }
{
    let by = Letter::at(window as u8).back(ring).index() as u8;
    Map::shift(by).then(map).then(Map::shift(26 - by))
}
