//! Tests of minimum-cost assignments.
ghost use Rattle.std.specs.Prelude.{◌≤◌};
ghost use Rattle.kd_assign.specs.Prices.{AreCostsAtMost};

use kd_assign::assign;
use std::process::Abort;

/// Checks that `assign` returns the assignment `to`, this total cost and this number of comparisons.
fn is_answered<const N: usize>(
    rt: &impl Abort,
    cost: &[[u8; N]; N],
    to: [u8; N],
    total: u16,
    scans: u32,
)
    requires some { 1 ≤ N }
    requires few { N ≤ 32 }
    requires costs { AreCostsAtMost 4 cost.now }
{
    let solution = assign(cost);
    assert!(rt; solution.to == to);
    assert_eq!(rt; (solution.total, solution.scans.count()), (total, scans));
}

/// In the second table, row 0 moves to another column to make room for row 1. In the others, each row finds a
/// free column at once.
#[test]
fn answers_small_tables(rt: HostRuntime) {
    is_answered(&rt, &[[4]], [0], 4, 1);
    is_answered(&rt, &[[0, 1], [0, 2]], [1, 0], 1, 5);
    is_answered(&rt, &[[0, 1], [1, 0]], [0, 1], 0, 4);
}

#[test]
fn answers_three_rows(rt: HostRuntime) {
    let solution = assign(&[[0, 1, 1], [0, 2, 1], [1, 2, 0]]);
    assert_eq!(rt; solution.to, [1, 0, 2]);
    assert_eq!(rt; solution.total, 1);
}

/// The total cost of the assignment that `assign` finds if all costs in the table are `each`.
fn total_of_all<const N: usize>(each: u8) -> u16
    requires some { 1 ≤ N }
    requires few { N ≤ 32 }
    requires small { each ≤ 4 }
{
    assign(&[[each; N]; N]).total
}

#[test]
fn answers_the_largest_tables(rt: HostRuntime) {
    assert_eq!(rt; total_of_all::<32>(4), 128);
    assert_eq!(rt; total_of_all::<32>(0), 0);
}
