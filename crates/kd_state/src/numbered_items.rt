//! Gets and sets elements of slices, by a number counted from 1 or by a place counted from 0.
ghost use Rattle.std.specs.Prelude.{◌≡◌, ◌-◌, ◌<◌, ◌≤◌, length, slice_set};
ghost use Rattle.kd_state.specs.SameParts.{numbered_item};

/// Element `number` of `things`, counted from 1. `None` if there is no such element.
pub(crate) fn numbered_item<T: Copy>(things: &[T], number: u8) -> Option<T>
    ensures { result ≡ numbered_item things.now number }
{
    if number == 0 {
        return None;
    }
    things.get(usize::from(number) - 1).copied()
}

/// Sets `things[place]` to `thing`.
pub(crate) fn set_item<T: Copy>(things: &mut [T], place: usize, thing: T)
    requires { place < length things.old }
    ensures value { things.new ≡ slice_set things.old place thing }
    ensures len { length things.new ≡ length things.old }
{
    things[place] = thing;
}

/// Sets element `number` of `things` to `thing`. The first element is number 1.
pub(crate) fn set_numbered_item<T: Copy>(things: &mut [T], number: u8, thing: T)
    requires first { 1 ≤ number }
    requires last { number ≤ length things.old }
    ensures { things.new ≡ slice_set things.old (number - 1) thing }
{
    things[usize::from(number) - 1] = thing;
}
