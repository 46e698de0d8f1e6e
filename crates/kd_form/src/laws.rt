//! Laws: each order and each form has one result or one fault. A form gives back its order's letters.
ghost use Rattle.kd_form.specs.Laws.{OrderIsAnswered, OrdersHaveOneAnswer, OrdersStayRefused, FormIsAnswered};
ghost use Rattle.kd_form.specs.Laws.{FormsHaveOneAnswer, FormsStayRefused, OrdersGiveLetters, FormsGiveTheirOrders};

use super::receiving::form_reader::FormReader;
use super::sending::order_reader::OrderReader;
use super::stream::whole_message::check_message;
use kd_state::SheetDay;

/// An order has at most one form and at most one fault, and never both.
pub fn orders_have_one_answer()
    ensures { OrdersHaveOneAnswer }
{}

/// Every order has a form or a fault. The body of this function reads `order`, and finds its form or its fault.
pub fn orders_have_an_answer(day: &SheetDay, order: &[u8])
    ensures { OrderIsAnswered day.now order.now }
{
    let _answer = check_message::<OrderReader>(day, order);
}

/// A fault that is found before the end of an order remains the order's fault, whatever bytes follow.
pub fn orders_stay_refused()
    ensures { OrdersStayRefused }
{}

/// A form has at most one text and at most one fault, and never both.
pub fn forms_have_one_answer()
    ensures { FormsHaveOneAnswer }
{}

/// A fault that is found before the end of a form remains the form's fault, whatever bytes follow.
pub fn forms_stay_refused()
    ensures { FormsStayRefused }
{}

/// Every form has a text or a fault. The body of this function reads `form`, and finds its text or its fault.
pub fn forms_have_an_answer(day: &SheetDay, form: &[u8])
    ensures { FormIsAnswered day.now form.now }
{
    let _answer = check_message::<FormReader>(day, form);
}

/// Deciphering an order's form gives back the letters of the order's text.
///
/// On the Converter M-209, X fills the last group of five letters. The received text has a space for each Z.
pub fn forms_give_their_orders()
    ensures letters { OrdersGiveLetters }
    ensures back { FormsGiveTheirOrders }
{}
