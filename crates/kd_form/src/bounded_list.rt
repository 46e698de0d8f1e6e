//! Two functions that append to a list of bounded length: `push_if_room` and `append_letters`.
ghost use Rattle.std.specs.Prelude.{◌≡◌, ◌≤◌, ◌+◌, [], ◌∷◌, ◌++◌, length, take};

use arrayvec::ArrayVec;
use kd_tables::Letter;

/// Appends `item`, if there is room for it.
pub fn push_if_room<T: Copy, const N: usize>(items: &mut ArrayVec<T, N>, item: T)
    ensures { items.new.items ≡ take N (items.old.items ++ item ∷ []) }
{
    if !items.is_full() {
        items.push(item);
    }
}

/// Appends the letters `more` to `letters`, which must have room for them.
pub(crate) fn append_letters<const N: usize>(letters: &mut ArrayVec<Letter, N>, more: &[Letter])
    requires { length letters.old.items + length more.now ≤ N }
    ensures { letters.new.items ≡ letters.old.items ++ more.now }
{
    letters.try_extend_from_slice(more).unwrap();
}
