//! The pages of several days, in one file.
ghost use Rattle.std.specs.Prelude.{◌≡◌, ◌||◌, ◌≤◌, ◌+◌, ℕ, List, [], ◌∷◌, ◌++◌, map, length, is_err};
ghost use Rattle.arrayvec.specs.ArrayVec.{array_vec_len};
ghost use Rattle.kd_page.specs.DayPage.{day_text};
ghost use Rattle.kd_page.specs.Drawing.{Draws};
ghost use Rattle.kd_page.specs.Head.{head_text};
ghost use Rattle.kd_page.specs.Page.{page_of};
ghost use Rattle.kd_state.specs.Machine.{model_of};
ghost use Rattle.kd_state.specs.Setting.{Leads};
ghost use Rattle.kd_tables.specs.Writing.{Writes};
ghost use Rattle.kd_booklet.specs.Booklet.{ArePages, AreDrawable, IsBooklet, IsDrawable, listed_day};

use crate::day_plan::DayPlan;
use arrayvec::ArrayVec;
use kd_language::Language;
use kd_page::{FileDays, ListedDay, Page, draw_day, draw_foot, draw_head};
use kd_pictures::draw;
use kd_state::{Machine, Parts, carry_all};
use kd_tables::{Device, Sink};

/// Writes a file with the pages of the planned days `first` and `others`, in `language`.
///
/// `sheet` is the name of the key sheet's file.
pub fn write_pages<W: Sink>(
    sink: &mut W,
    language: Language,
    sheet: &str,
    machine: &Machine,
    first: &DayPlan,
    others: &[DayPlan],
) -> Result<(), Device>
    requires days { AreDrawable machine.now (first.now ∷ others.now) }
    requires few { length others.now ≤ 31 }
    ensures pages { (text : List ℕ) × IsBooklet language sheet.now machine.now first.now others.now text
        × Writes (W.taken sink.old) (W.taken sink.new) text result }
    ensures failed { W.has_failed sink.new ≡ (W.has_failed sink.old || is_err result) }
{
    draw_pages(sink, language, sheet, machine, first, others);
    if sink.failed() { Err(Device) } else { Ok(()) }
}

/// Draws the file: its head with the list of days, the pages, and the foot.
fn draw_pages<W: Sink>(
    sink: &mut W,
    language: Language,
    sheet: &str,
    machine: &Machine,
    first: &DayPlan,
    others: &[DayPlan],
)
    requires days { AreDrawable machine.now (first.now ∷ others.now) }
    requires few { length others.now ≤ 31 }
    ensures { (text : List ℕ) × IsBooklet language sheet.now machine.now first.now others.now text
        × Draws W.taken W.has_failed sink.old sink.new text }
{
    draw_listed(sink, language, sheet, machine, first, others);
    let after = draw_plan(sink, language, sheet, machine, first);
    draw_plans(sink, language, sheet, &after, others);
    draw_foot(sink);
}

/// Draws the head of the file, with the list of the days.
fn draw_listed<W: Sink>(
    sink: &mut W,
    language: Language,
    sheet: &str,
    machine: &Machine,
    first: &DayPlan,
    others: &[DayPlan],
)
    requires { length others.now ≤ 31 }
    ensures { Draws W.taken W.has_failed sink.old sink.new
        (head_text language (model_of machine.now) sheet.now (listed_day first.now)
        (map listed_day others.now)) }
{
    let mut listed = ArrayVec::new();
    list_days(&mut listed, others);
    let days = FileDays {
        language,
        model: machine.model(),
        sheet,
        first: listed_day(first),
        others: listed.as_slice(),
    };
    draw_head(sink, &days);
}

fn list_days(listed: &mut ArrayVec<ListedDay, 31>, plans: &[DayPlan])
    requires { array_vec_len listed.old + length plans.now ≤ 31 }
    ensures { listed.new.items ≡ listed.old.items ++ map listed_day plans.now }
{
    if let Some((plan, rest)) = plans.split_first() {
        listed.push(listed_day(plan));
        list_days(listed, rest);
    }
}

/// The entry for a planned day in the list of days: the day's number, and how many settings the day has.
fn listed_day(plan: &DayPlan) -> ListedDay
    ensures { result ≡ listed_day plan.now }
{
    ListedDay {
        day: plan.day,
        settings: plan.settings.as_slice().len() as u8,
    }
}

/// Draws a day's page, for `machine`. Returns the machine after the day's settings.
fn draw_plan<W: Sink>(
    sink: &mut W,
    language: Language,
    sheet: &str,
    machine: &Machine,
    plan: &DayPlan,
) -> Machine
    requires { (n : Parts) × IsDrawable machine.now plan.now n }
    ensures leads { Leads machine.now plan.now.settings.items result }
    ensures draws { Draws W.taken W.has_failed sink.old sink.new
        (day_text (page_of language sheet.now plan.now.day machine.now result plan.now.settings.items)) }
{
    let settings = plan.settings.as_slice();
    let after = carry_all(machine, settings).unwrap();
    let page = Page::new(language, sheet, plan.day, machine, &after, settings);
    draw_day(sink, &page);
    after
}

/// Draws the pages of planned days. The first page is for `machine`.
fn draw_plans<W: Sink>(
    sink: &mut W,
    language: Language,
    sheet: &str,
    machine: &Machine,
    plans: &[DayPlan],
)
    requires { AreDrawable machine.now plans.now }
    ensures { (text : List ℕ) × ArePages language sheet.now machine.now plans.now text
        × Draws W.taken W.has_failed sink.old sink.new text }
{
    if let Some((plan, rest)) = plans.split_first() {
        let after = draw_plan(sink, language, sheet, machine, plan);
        draw_plans(sink, language, sheet, &after, rest);
    } else {
        draw(sink, "");
    }
}
