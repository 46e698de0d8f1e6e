//! Cuts lists into rows and groups.
ghost use Rattle.std.specs.Prelude.{◌≡◌, ◌+◌, ◌≤◌, ◌∷◌, length};
ghost use Rattle.kd_part_sheet.specs.Rows.{pieces};

/// Splits `items` after the first `size` items, or at the end if there are fewer.
#[tactic(auto, using(crate::proofs::Pieces::first_pieces))]
pub fn first_piece<T>(items: &[T], size: usize) -> (&[T], &[T])
    requires size { 1 ≤ size }
    requires some { 1 ≤ length items.now }
    ensures pieces { pieces size items.now ≡ result.0.now ∷ pieces size result.1.now }
    ensures some { 1 ≤ length result.0.now }
    ensures len { length result.0.now + length result.1.now ≡ length items.now }
{
    items.split_at(items.len().min(size))
}
