//! Laws about a day's page.
ghost use Rattle.kd_page.specs.Marks.{AllMarksHaveSettings};
ghost use Rattle.kd_page.specs.PageOrder.{PinBoxesAreTheSettings, RotorBoxesAreTheSettings};
ghost use Rattle.kd_page.specs.ShownBoxes.{PinPageHasTheBoxes, RotorPageHasTheBoxes};

/// If settings are in a page's order, the page has the checkboxes of exactly these settings.
///
/// From the top of the page, the checkboxes are in the order of the settings.
pub fn boxes_are_the_settings()
    ensures rotor { RotorBoxesAreTheSettings }
    ensures pin { PinBoxesAreTheSettings }
{}

/// The text of a day's page has the checkbox of each setting of the page, in the order of the settings.
pub fn pages_have_the_boxes()
    ensures rotor { RotorPageHasTheBoxes }
    ensures pin { PinPageHasTheBoxes }
{}

/// If a page marks a part of the machine as changed, a setting of the page sets this part.
pub fn marks_have_settings()
    ensures { AllMarksHaveSettings }
{}
