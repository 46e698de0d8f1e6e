//! Laws about the order of a day's settings, and about the changes that the settings make.
ghost use Rattle.kd_booklet.specs.HandOrder.{HandOrderIsPermutation, HandOrderLeads};
ghost use Rattle.kd_booklet.specs.SettingChanges.{DaySettingsChangeThings};

/// The order that suits an operator keeps all settings of a list, and adds none.
///
/// Suppose that a list seats all its wheels before it turns a window. Then the operator's order leads to the same
/// machine as the list's own order.
pub fn hand_order_leads_alike()
    ensures same { HandOrderIsPermutation }
    ensures leads { HandOrderLeads }
{}

/// Each setting of a day's list makes a change that lasts to the end of the list.
pub fn settings_change_things()
    ensures { DaySettingsChangeThings }
{}
