//! Makes a table: for each set of wheels, how many bars have a lug at a wheel of the set.
ghost use Rattle.std.specs.Prelude.{◌≡◌, ◌≤◌, ◌||◌};
ghost use Rattle.kd_drum.specs.Counts.{AreCounts, is_in_set, bars_met_by};

use kd_tables::Reading;

/// Counts, for each set of wheels, the bars that have a lug at a wheel of the set.
///
/// A set is a sum: 1 for wheel 1, 2 for wheel 2, 4 for wheel 3, and so on. For example, 5 is the set of wheels 1 and 3.
pub(crate) fn count_bars_met(bars: &[Reading; 27]) -> [u8; 64]
    ensures { AreCounts bars.now result }
{
    let mut counts = [0; 64];
    for wheels in 0..64 {
        counts[wheels] = bars_met_by(bars, wheels);
    }
    counts
}

/// Counts the bars that have a lug at a wheel of the set `wheels`.
fn bars_met_by(bars: &[Reading; 27], wheels: usize) -> u8
    ensures { result ≡ bars_met_by bars.now wheels }
{
    let mut met = 0;
    for bar in bars {
        if is_met(*bar, wheels) {
            met += 1;
        }
    }
    met
}

/// Whether a bar with the reading `bar` has a lug at a wheel of the set `wheels`.
fn is_met(bar: Reading, wheels: usize) -> bool
    ensures { result ≡ (is_in_set wheels bar.0 || is_in_set wheels bar.1) }
{
    let (smaller, larger) = bar.numbers();
    is_in_set(wheels, smaller) || is_in_set(wheels, larger)
}

/// Whether `wheel` is from 1 to 6 and in the set `wheels`.
fn is_in_set(wheels: usize, wheel: u8) -> bool
    ensures { result ≡ is_in_set wheels wheel }
{
    1 <= wheel && wheel <= 6 && (wheels >> (wheel - 1)) % 2 == 1
}
