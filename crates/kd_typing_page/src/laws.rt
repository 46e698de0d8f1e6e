//! A law about the page's templates.
ghost use Rattle.kd_typing_page.specs.Plain.{TemplatesTakeTheirValues};

/// In both languages, each template has a gap for each value that the page fills in.
///
/// By the law `kd_pictures::laws::values_are_plain`, the values have no markup.
#[tactic(auto, using(crate::proofs::TemplatesChecked::templates_take_their_values))]
pub fn templates_take_their_values()
    ensures { TemplatesTakeTheirValues }
{}
