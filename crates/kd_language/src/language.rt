//! `Language`: English or German, the languages in which texts are written.
ghost use Rattle.std.specs.Prelude.{◌≡◌};
ghost use Rattle.kd_language.specs.Language.{in_language};

/// A text in English and in German.
pub type Text = (&'static str, &'static str);

/// The language in which a text is written.
#[derive(Clone, Copy, Debug, PartialEq, Eq)]
pub enum Language {
    English,
    German,
}

impl Language {
    /// The English or the German text of the pair `text`, as this language says.
    pub fn text(self, text: Text) -> &'static str
        ensures { result.now ≡ in_language self text.entry.0.now text.entry.1.now }
    {
        match self {
            Language::English => text.0,
            Language::German => text.1,
        }
    }
}
