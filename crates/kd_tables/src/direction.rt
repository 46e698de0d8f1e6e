//! `Direction`: whether a message is sent or received.
ghost use Rattle.std.specs.Prelude.{◌≡◌};
ghost use Rattle.kd_tables.specs.Direction.{direction_word};

/// Whether a message is sent or received.
#[derive(Clone, Copy, Debug, PartialEq, Eq)]
pub enum Direction {
    /// The message's file is an order: keys and a plaintext. The order becomes a form.
    Send,
    /// The message's file is a form. Its ciphertext becomes the plaintext.
    Receive,
}

impl Direction {
    /// The name of the argument for the message's file: ORDER or FORM.
    pub fn file_word(self) -> &'static str
        ensures { result.now ≡ direction_word self }
    {
        match self {
            Direction::Send => "ORDER",
            Direction::Receive => "FORM",
        }
    }
}
