//! The record of the file names that a program asked for.
ghost use Rattle.std.specs.Prelude.{◌≡◌, ◌<◌, [], ◌∷◌, ◌++◌, length};

use arrayvec::ArrayVec;
use std::marker::Model;

/// The file names that a program asked for, in order. A flag beside each name says whether the file could be read or
/// opened.
///
/// There are at most 34 names: no command names more files.
#[derive(Drop)]
pub struct AskedNames<'n> {
    names: ArrayVec<(&'n str, bool), 34>,
}

impl<'n> Model for AskedNames<'n> {
    ghost use Rattle.std.specs.Prelude.{List, map};
    ghost use Rattle.kd_host.specs.Files.{AskedName};

    ghost Value = { List AskedName };

    ghost view = { λ asked. map (λ one. (one.0.now, one.1)) asked.names.items };
}

impl<'n> AskedNames<'n> {
    /// Creates a record without names.
    pub fn new() -> Self
        ensures { result ≡ [] }
    {
        AskedNames {
            names: ArrayVec::new(),
        }
    }

    /// Records that the program asked for `name`; `had` says whether the file could be read or opened.
    pub fn add(&mut self, name: &'n str, had: bool)
        requires { length self.old < 34 }
        ensures { self.new ≡ self.old ++ (name.now, had) ∷ [] }
    {
        self.names.push((name, had));
    }
}
