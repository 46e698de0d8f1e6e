//! Macros for a table that pairs each value of an enum with its name.
ghost use Rattle.std.specs.Prelude.{◌≡◌, ◌↔◌, IsTrue};

/// Whether `text` has exactly the bytes of `name`.
pub(crate) fn is_name(text: &[u8], name: &str) -> bool
    ensures { IsTrue result ↔ (name.now ≡ text.now) }
{
    name.as_bytes() == text
}

/// Finds the name of `$value` in a table of values and names.
macro_rules! name_of {
    ($value:expr, { $($variant:path => $name:literal,)* }) => {
        match $value {
            $($variant => $name,)*
        }
    };
}

/// Finds the value with the name `$text` in a table of values and names; `None` if there is none.
macro_rules! named {
    ($text:expr, { $($variant:path => $name:literal,)* }) => {
        match $text {
            $(text if $crate::variant_names::is_name(text, $name) => Some($variant),)*
            _ => None,
        }
    };
}

pub(crate) use name_of;
pub(crate) use named;
