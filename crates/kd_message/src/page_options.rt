//! `PageOptions`: how the page of a message is written.
use kd_language::Language;
use kd_pictures::Results;

/// How the page of a message is written: in which language, and whether with the results.
#[derive(Clone, Copy)]
pub struct PageOptions {
    /// The language of the page.
    pub language: Language,
    /// Whether the page shows the results. If they are left open, the page has worksheets.
    pub results: Results,
}
