//! Laws about the values in templates, the lines of cables, and the numbers of cables, slots, wheels and bars.
ghost use Rattle.std.specs.Prelude.{◌≡◌};
ghost use Rattle.std.specs.List.{range_with_len};
ghost use Rattle.kd_pictures.specs.declared.numbers.TheConstants.{BARS, CABLES, LATER_WHEELS, PIN_WHEELS, SLOTS};
ghost use Rattle.kd_pictures.specs.Sockets.{LinesAreApart};
ghost use Rattle.kd_pictures.specs.Checked.{TemplatesTakeTheirValues, WordsTellWhatToDo};
ghost use Rattle.kd_pictures.specs.Plain.{ValuesArePlain};
ghost use Rattle.kd_pictures.specs.SheetName.{SheetNamesArePlain};

/// The values that a page takes from files have no markup. These values are letters, numbers, and the names of models,
/// wheels, reflectors, key sheets and orders.
#[tactic(auto, using(crate::proofs::PlainValues::values_are_plain, crate::proofs::PlainValues::names_are_plain))]
pub fn values_are_plain()
    ensures values { ValuesArePlain }
    ensures names { SheetNamesArePlain }
{}

/// In both languages, each template has a gap for each value that pages fill in. The words that tell an operator what
/// to do are right in both languages.
pub fn languages_say_the_same()
    ensures templates { TemplatesTakeTheirValues }
    ensures words { WordsTellWhatToDo }
{}

/// The cable lines to the sockets of two different letters never lie on each other: the lines are at least 10 units of
/// the picture apart.
#[tactic(auto, using(crate::proofs::LinesApart::lines_are_apart))]
pub fn lines_are_apart()
    ensures { LinesAreApart }
{}

/// Cables, slots, pin wheels and bars are numbered from 1. `LATER_WHEELS` begins with 2.
pub fn parts_are_numbered_from_1()
    ensures cables { CABLES ≡ range_with_len 1 13 }
    ensures slots { SLOTS ≡ range_with_len 1 4 }
    ensures pin_wheels { PIN_WHEELS ≡ range_with_len 1 6 }
    ensures later_wheels { LATER_WHEELS ≡ range_with_len 2 5 }
    ensures bars { BARS ≡ range_with_len 1 27 }
{}
