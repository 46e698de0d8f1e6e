//! The keys of machine files and key sheets.
ghost use Rattle.std.specs.Prelude.{◌≡◌, ◌≤◌, length};
ghost use Rattle.kd_sheet.specs.Key.{key_name};

/// A key of a machine file or a key sheet.
#[derive(Clone, Copy, Debug, PartialEq, Eq)]
pub enum Key {
    Version,
    Model,
    Reflector,
    Slots,
    Rings,
    Letters,
    Cables,
    Pins,
    Bars,
    Day,
    Wheels,
    Window,
    Plugs,
    Groups,
    Rows,
    List,
}

impl Key {
    /// The key's name in a file.
    pub fn name(self) -> &'static str
        ensures value { result.now ≡ key_name self }
        ensures short { length result.now ≤ 9 }
    {
        match self {
            Key::Version => "version",
            Key::Model => "model",
            Key::Reflector => "reflector",
            Key::Slots => "slots",
            Key::Rings => "rings",
            Key::Letters => "letters",
            Key::Cables => "cables",
            Key::Pins => "pins",
            Key::Bars => "bars",
            Key::Day => "day",
            Key::Wheels => "wheels",
            Key::Window => "window",
            Key::Plugs => "plugs",
            Key::Groups => "groups",
            Key::Rows => "rows",
            Key::List => "list",
        }
    }
}
