//! For each column, the nearest row of a growing tree: the row that offers the lowest price for the column.
ghost use Rattle.std.specs.Prelude.{◌≡◌, ℕ, ◌+◌, ◌^◌, ◌<◌, ◌≢◌, ◌⊎◌, false, if◌then◌else◌, Some, IfSome, IsSomeAnd};
ghost use Rattle.std.specs.Prelude.{All};
ghost use Rattle.std.specs.Prelude.{length, count_by, slice_index, ℤ, pos, neg_ℤ, ◌+ℤ◌, ◌-ℤ◌, ◌≤ℤ◌};
ghost use Rattle.kd_assign.specs.Prices.{AreCostsAtMost, cost_at, price_at};
ghost use Rattle.kd_assign.specs.Tree.{AreWithinCeilings, AreCompared, IsCompared, IsNearest, has_column, room_at};

use crate::scans::Scans;

/// For each column, the nearest row of a tree, and the price that this row offers for the column.
#[derive(Drop)]
pub struct Nearest<const N: usize> {
    pub row: [usize; N],
    /// The ceiling of each column: the lowest price that a row of the tree offers for it.
    ///
    /// A column's room is its ceiling minus its price. In each round, the column outside the tree with the least room
    /// joins the tree. If this column is free, the growth ends instead. Let `r` be the room of the free column. Each
    /// column of the tree with less room than `r` then gets a lower price, so that its room becomes `r`.
    pub ceiling: [i16; N],
}

impl<const N: usize> Nearest<N> {
    /// Creates the state before any comparison: every ceiling is `i16::MAX`.
    pub fn new() -> Self
        ensures far { All (λ s. s ≡ pos 32767) result.ceiling }
    {
        Nearest {
            row: [0; N],
            ceiling: [i16::MAX; N],
        }
    }

    /// Adds `row` to the tree, and compares the row's offer with the ceiling of each column outside the tree.
    ///
    /// A column's ceiling is the lowest price that a row of the tree has offered for the column so far.
    pub fn join(
        &mut self,
        reached: &[bool; N],
        cost: &[[u8; N]; N],
        row: usize,
        level: i16,
        scans: &mut Scans,
    )
        requires row { row < N }
        requires costs { AreCostsAtMost 4 cost.now }
        requires low { neg_ℤ (pos 256) ≤ℤ level }
        requires high { level ≤ℤ pos 4 }
        requires room { scans.old + N < 2 ^ 32 }
        ensures rows { length self.new.row ≡ N }
        ensures ceilings { length self.new.ceiling ≡ N }
        ensures compared { AreCompared N cost.now reached.now row level
            self.old.row self.old.ceiling self.new.row self.new.ceiling }
        ensures counted { scans.new + count_by (λ r. r) reached.now ≡ scans.old + N }
    {
        for column in 0..N {
            let offer = level + i16::from(cost[row][column]);
            self.compare(reached[column], row, column, offer, scans);
        }
    }

    /// If `offer` is below the ceiling of `column`, makes `offer` the column's ceiling, and `row` the column's nearest
    /// row.
    ///
    /// A column of the tree (`reached`) stays as it is. A column's ceiling is the lowest offer so far.
    fn compare(&mut self, reached: bool, row: usize, column: usize, offer: i16, scans: &mut Scans)
        requires column { column < N }
        requires room { scans.old < 4294967295 }
        ensures rows { length self.new.row ≡ N }
        ensures ceilings { length self.new.ceiling ≡ N }
        ensures compared { IsCompared reached row offer
            (slice_index self.old.row column) (price_at self.old.ceiling column)
            (slice_index self.new.row column) (price_at self.new.ceiling column) }
        ensures other_rows { (j : ℕ) → j ≢ column →
            slice_index self.new.row j ≡ slice_index self.old.row j }
        ensures other_ceilings { (j : ℕ) → j ≢ column →
            price_at self.new.ceiling j ≡ price_at self.old.ceiling j }
        ensures counted { scans.new + (if reached then 1 else 0) ≡ scans.old + 1 }
    {
        if !reached && scans.closer(self.ceiling[column], offer) {
            self.row[column] = row;
            self.ceiling[column] = offer;
        }
    }

    /// The room of `column`: the column's ceiling minus its price.
    pub fn room(&self, prices: &[i16; N], column: usize) -> i16
        requires column { column < N }
        requires close { AreWithinCeilings N prices.now self.now.ceiling }
        ensures { result ≡ room_at self.now.ceiling prices.now column }
    {
        self.ceiling[column] - prices[column]
    }

    /// The level of `row`, which holds `column`: the column's ceiling minus the cost in the cell of `row` and `column`.
    ///
    /// A row of the tree offers a price for each column: the row's level plus the cost in their cell.
    pub fn level(&self, cost: &[[u8; N]; N], row: usize, column: usize) -> i16
        requires row { row < N }
        requires column { column < N }
        requires costs { AreCostsAtMost 4 cost.now }
        requires low { neg_ℤ (pos 128) ≤ℤ price_at self.now.ceiling column }
        requires high { price_at self.now.ceiling column ≤ℤ pos 4 }
        ensures low { neg_ℤ (pos 256) ≤ℤ result }
        ensures high { result ≤ℤ pos 4 }
        ensures value { result ≡ price_at self.now.ceiling column -ℤ pos (cost_at cost.now row column) }
    {
        self.ceiling[column] - i16::from(cost[row][column])
    }

    /// The nearest column: the column outside the tree with the least room (its ceiling minus its price).
    pub fn column(
        &self,
        reached: &[bool; N],
        prices: &[i16; N],
        holders: &[Option<usize>; N],
    ) -> usize
        requires close { AreWithinCeilings N prices.now self.now.ceiling }
        requires some { (j : ℕ) × (j < N) × (has_column reached.now j ≡ false) }
        ensures { IsNearest N prices.now reached.now self.now.ceiling result }
    {
        let mut least = None;
        for column in 0..N {
            least = self.nearer(reached, prices, holders, least, column);
        }
        least.unwrap()
    }

    /// The column with less room (ceiling minus price): `first` or `second`.
    ///
    /// If the tree has `second` already, the result is `first`. If both columns have equal room, `second` wins exactly
    /// if it is free, because a free column ends the tree's growth. The contract leaves this choice open.
    fn nearer(
        &self,
        reached: &[bool; N],
        prices: &[i16; N],
        holders: &[Option<usize>; N],
        first: Option<usize>,
        second: usize,
    ) -> Option<usize>
        requires close { AreWithinCeilings N prices.now self.now.ceiling }
        requires first { IfSome first (λ j. j < N) }
        requires second { second < N }
        ensures one { (first ≡ result)
            ⊎ ((has_column reached.now second ≡ false) × (result ≡ Some second)) }
        ensures first { (s : ℤ) → IsSomeAnd first (λ j. room_at self.now.ceiling prices.now j ≤ℤ s) →
            IsSomeAnd result (λ j. room_at self.now.ceiling prices.now j ≤ℤ s) }
        ensures second { has_column reached.now second ≡ false → IsSomeAnd result (λ j.
            room_at self.now.ceiling prices.now j ≤ℤ room_at self.now.ceiling prices.now second) }
    {
        if reached[second] {
            return first;
        }
        let Some(column) = first else {
            return Some(second);
        };
        let (held, room) = (self.room(prices, column), self.room(prices, second));
        if held < room || (held == room && holders[second].is_some()) {
            first
        } else {
            Some(second)
        }
    }
}
