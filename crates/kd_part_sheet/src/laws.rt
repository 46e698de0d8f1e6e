//! Laws about worksheets, and about the templates of a part's sheet.
ghost use Rattle.kd_part_sheet.specs.Checked.{TemplatesTakeTheirValues};
ghost use Rattle.kd_part_sheet.specs.Worksheets.{WorksheetsHideResults};

/// A worksheet doesn't tell the letters that the machine gives.
pub fn worksheets_hide_results()
    ensures { WorksheetsHideResults }
{}

/// In both languages, each template has a gap for each value that a sheet fills in.
pub fn templates_take_their_values()
    ensures { TemplatesTakeTheirValues }
{}
