//! `Page`: the values that the page of a day shows.
use crate::spots::{Spot, count_at};
use kd_language::Language;
use kd_state::{Machine, Setting};
use kd_tables::Model;

/// A day's page: the name of a key sheet's file, a day, the machine before and after the settings, and the settings.
#[derive(Drop)]
pub struct Page<'a> {
    language: Language,
    sheet: &'a str,
    day: u8,
    before: &'a Machine,
    after: &'a Machine,
    settings: &'a [Setting],
}

impl<'a> std::marker::Model for Page<'a> {
    ghost use Rattle.std.specs.Prelude.{◌≤◌, length};
    ghost use Rattle.kd_page.specs.Page.{Page};

    ghost Value = { Page };

    ghost view = { λ page. record {
      language = page.language;
      sheet = page.sheet.now;
      day = page.day;
      before = page.before.now;
      after = page.after.now;
      settings = page.settings.now;
    } };

    ghost invariant = { λ page. length page.settings.now ≤ 192 };
}

impl<'a> Page<'a> {
    ghost use Rattle.std.specs.Prelude.{◌≡◌, ◌≤◌, length};
    ghost use Rattle.kd_state.specs.Machine.{model_of};
    ghost use Rattle.kd_page.specs.Page.{page_of};
    ghost use Rattle.kd_page.specs.Spots.{count_at};

    /// The page of day `day` of the key sheet in the file `sheet`. `settings` turn the machine `before` into the
    /// machine `after`.
    pub fn new(
        language: Language,
        sheet: &'a str,
        day: u8,
        before: &'a Machine,
        after: &'a Machine,
        settings: &'a [Setting],
    ) -> Self
        requires { length settings.now ≤ 192 }
        ensures { result ≡ page_of language sheet.now day before.now after.now settings.now }
    {
        Page {
            language,
            sheet,
            day,
            before,
            after,
            settings,
        }
    }

    pub(crate) fn language(&self) -> Language
        ensures { result ≡ self.now.language }
    {
        self.language
    }

    pub(crate) fn sheet(&self) -> &'a str
        ensures { result.now ≡ self.now.sheet }
    {
        self.sheet
    }

    pub(crate) fn day(&self) -> u8
        ensures { result ≡ self.now.day }
    {
        self.day
    }

    pub(crate) fn before(&self) -> &'a Machine
        ensures { result.now ≡ self.now.before }
    {
        self.before
    }

    pub(crate) fn after(&self) -> &'a Machine
        ensures { result.now ≡ self.now.after }
    {
        self.after
    }

    pub(crate) fn settings(&self) -> &'a [Setting]
        ensures value { result.now ≡ self.now.settings }
        ensures few { length result.now ≤ 192 }
    {
        self.settings
    }

    pub(crate) fn model(&self) -> Model
        ensures { result ≡ model_of self.now.after }
    {
        self.after.model()
    }

    /// How many settings have their checkboxes at `spot`.
    pub(crate) fn count_at(&self, spot: &Spot) -> u8
        ensures { result ≡ count_at spot.now self.now.settings }
    {
        count_at(spot, self.settings)
    }
}
