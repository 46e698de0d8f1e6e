//! `Results`: whether a page for a message shows the results, or has worksheets.
ghost use Rattle.std.specs.Prelude.{◌≡◌};
ghost use Rattle.kd_pictures.specs.Results.{are_open};

/// Whether a page for a message shows the results.
///
/// The results are the letters that the machine gives, and the letters in its windows after a row of the page.
#[derive(Clone, Copy, Debug, PartialEq, Eq)]
pub enum Results {
    /// The page shows the results.
    Shown,
    /// The results are left open: the page has worksheets.
    LeftOpen,
}

impl Results {
    /// Whether the page leaves the results open, that is, has worksheets.
    pub fn are_open(self) -> bool
        ensures { result ≡ are_open self }
    {
        match self {
            Results::Shown => false,
            Results::LeftOpen => true,
        }
    }
}
