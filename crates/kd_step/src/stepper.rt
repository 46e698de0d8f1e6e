//! The wheels of a rotor machine, and how a key press moves them.
ghost use Rattle.std.specs.Prelude.{◌≡◌, ◌<◌, ◌≤◌, length, map, slice_index};
ghost use Rattle.kd_step.specs.Stepper.{IsStep, with_last_moved, next_letter, next_window};

use super::notches::notches;
use kd_tables::{Letter, Wheel};
use std::marker::Model;

/// The wheels in their slots and the letters in their windows, from the left.
#[derive(Drop)]
pub struct Stepper<const S: usize> {
    wheels: [Wheel; S],
    window: [Letter; S],
    /// Whether the middle wheel is at a notch, for each letter that the wheel can show.
    middle: [bool; 26],
    /// Whether the right wheel is at a notch, for each letter that the wheel can show.
    right: [bool; 26],
}

impl<const S: usize> Model for Stepper<S> {
    ghost use Rattle.std.specs.Prelude.{◌≡◌, ◌≤◌};
    ghost use Rattle.kd_step.specs.Stepper.{Stepping};
    ghost use Rattle.kd_step.specs.Notches.{IsNotchTableAt};

    ghost Value = { Stepping };

    ghost view = { λ s. record { wheels = s.wheels; window = s.window } };

    ghost invariant = { λ s. (3 ≤ S) × (S ≤ 4)
        × IsNotchTableAt s.wheels 1 s.middle × IsNotchTableAt s.wheels 0 s.right };
}

impl<const S: usize> Stepper<S> {
    /// Creates a stepper of three or four wheels that show the letters `window`. Wheels and letters are listed from the
    /// left.
    pub fn new(wheels: [Wheel; S], window: [Letter; S]) -> Self
        requires least { 3 ≤ S }
        requires most { S ≤ 4 }
        ensures { result ≡ record { wheels = wheels.entry; window = window.entry } }
    {
        let middle = notches(wheels[S - 2]);
        let right = notches(wheels[S - 1]);
        Stepper {
            wheels,
            window,
            middle,
            right,
        }
    }

    /// Moves the wheels as one key press does.
    pub fn step(&mut self)
        ensures step { IsStep self.old.wheels self.old.window self.new.window }
        ensures window { self.new.window ≡ next_window self.old.wheels self.old.window }
        ensures wheels { self.new.wheels ≡ self.old.wheels }
    {
        let shown = &self.window[..];
        let (middle, right) = (shown[S - 2].index(), shown[S - 1].index());
        match (self.middle[middle], self.right[right]) {
            (true, _) => move_last(&mut self.window, 3),
            (_, true) => move_last(&mut self.window, 2),
            _ => move_last(&mut self.window, 1),
        }
    }

    /// The letters in the windows, from the left.
    pub fn window(&self) -> [Letter; S]
        ensures { result ≡ self.now.window }
    {
        let Stepper { window, .. } = self;
        *window
    }

    /// The letter in the window of `slot`. Slots are counted from 0, from the left.
    pub fn shown(&self, slot: usize) -> Letter
        requires { slot < S }
        ensures value { result ≡ slice_index self.now.window slot }
        ensures size { length self.now.window ≡ S }
    {
        let Stepper { window, .. } = self;
        window[slot]
    }
}

/// Moves each of the last `count` letters on to the next letter: A becomes B, and Z becomes A.
fn move_last(window: &mut [Letter], count: usize)
    requires { count ≤ length window.old }
    ensures { window.new ≡ with_last_moved count window.old }
{
    let first = window.len() - count;
    advance(&mut window[first..]);
}

/// Moves each letter on to the next letter: A becomes B, and Z becomes A.
fn advance(letters: &mut [Letter])
    ensures { letters.new ≡ map next_letter letters.old }
{
    for letter in letters.iter_mut() {
        *letter = letter.next();
    }
}
