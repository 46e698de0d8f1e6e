//! Laws about a table's words and templates, and about the days of a month.
ghost use Rattle.std.specs.Prelude.{◌≡◌, reverse};
ghost use Rattle.std.specs.List.{range_with_len};
ghost use Rattle.kd_printed_sheet.specs.Plain.{TemplatesTakeTheirValues, WordsArePlain};
ghost use Rattle.kd_printed_sheet.specs.ReadAgain.{TablesAreReadBack};
ghost use Rattle.kd_printed_sheet.specs.declared.days.TheConstants.{DAYS, LAST_DAY_FIRST};

/// The words that a table takes from a sheet consist of letters, so they have no markup.
///
/// By the law `kd_pictures::laws::values_are_plain`, the values of templates don't have markup, either.
#[tactic(auto, using(crate::proofs::PlainWords::words_are_plain))]
pub fn words_are_plain()
    ensures { WordsArePlain }
{}

/// In both languages, each template has a gap for each value that the tables fill in.
pub fn templates_take_their_values()
    ensures { TemplatesTakeTheirValues }
{}

/// A month has the days 1 to 31. On a page, a month's table has its days in falling order. A CSV table has its days in
/// rising order, and key lists stand in the rising order of their days.
pub fn days_are_a_months()
    ensures days { DAYS ≡ range_with_len 1 31 }
    ensures last_first { LAST_DAY_FIRST ≡ reverse (range_with_len 1 31) }
{}

/// The CSV table of a sheet is read back as exactly the sheet's days.
///
/// If the sheet has no days, its table is refused.
#[tactic(auto, using(crate::proofs::ReadAgain::tables_are_read_back))]
pub fn tables_are_read_back()
    ensures { TablesAreReadBack }
{}
