//! The pages of several orders, in one file.
ghost use Rattle.std.specs.Prelude.{◌≡◌, ◌+◌, ◌≤◌, ◌++◌, ◌||◌, ℕ, List, All, IfErr, IfOk, false, flat_map, length, map, IsErr};
ghost use Rattle.kd_tables.specs.{Ports.{port}, WriteFault.{is_device}};
ghost use Rattle.kd_pictures.specs.Drawing.{Draws};
ghost use Rattle.kd_message.specs.SendBooklet.{AreOrderPages, CanBeSent, IsBookletAnswer, IsFirstRefusal, IsOrderPage};
ghost use Rattle.kd_message.specs.SendBooklet.{IsSendBooklet, OrderText, booklet_head, listed_orders, order_text};
ghost use Rattle.kd_message.specs.SendPage.{HasForm};

use crate::page_options::PageOptions;
use crate::sending::{draw_sheets_of, draw_title};
use crate::texts::{
    ARTICLE_END, LISTED_ORDER, LISTED_ORDER_END, ORDER_NAME_END, ORDER_PAGE, ORDERS, TITLE_TO_SEND,
};
use kd_form::{FormFault, send};
use kd_language::Language;
use kd_pictures::draw;
use kd_pictures::sheet_name::draw_sheet_name;
use kd_pictures::template::{Value, fill, fill_in};
use kd_pictures::texts::{FOOT, NAV_END};
use kd_state::{Machine, SheetDay};
use kd_tables::{Sink, WriteFault};
use std::alloc::Global;

/// An order's file.
#[derive(Clone, Copy, Default)]
pub struct OrderFile<'a> {
    pub name: &'a str,
    pub bytes: &'a [u8],
}

/// The first order that is refused.
#[derive(Clone, Copy, Debug, PartialEq, Eq)]
pub struct OrderFault {
    /// The order's place among the orders, counted from 0.
    pub place: u8,
    pub why: FormFault,
}

/// Writes a file with a page for each order. A page shows how to encipher its order by hand on
/// `machine`, as `write_send_page` does. Each page begins on a new sheet of paper, with the name of
/// the order's file.
///
/// If an order is refused, nothing is written. The fault is `Device`, or names the first order that `send` refuses.
pub fn write_send_booklet<W: Sink>(
    alloc: Global,
    options: PageOptions,
    machine: &Machine,
    day: &SheetDay,
    orders: &[OrderFile<'_>],
    sink: &mut W,
) -> Result<(), WriteFault<OrderFault>>
    requires { length orders.now ≤ 32 }
    ensures pages { IsBookletAnswer options.results options.language machine.now day.now
        (map order_text orders.now) (port W.taken W.has_failed sink.old sink.new) result }
    ensures untouched { IsErr result → is_device result ≡ false → sink.new ≡ sink.old }
    ensures failed { W.has_failed sink.new ≡ (W.has_failed sink.old || is_device result) }
{
    if let Err(fault) = check_orders(alloc, machine, day, 0, orders) {
        return Err(WriteFault::Unwritten(fault));
    }
    draw_booklet(sink, options, day, orders);
    if sink.failed() {
        Err(WriteFault::Device)
    } else {
        Ok(())
    }
}

/// Tests whether all orders can be sent. The first order has the place `place`.
fn check_orders(
    alloc: Global,
    machine: &Machine,
    day: &SheetDay,
    place: u8,
    orders: &[OrderFile<'_>],
) -> Result<(), OrderFault>
    requires { place + length orders.now ≤ 32 }
    ensures sent { IfOk result (λ done. All (λ (order : OrderText). CanBeSent machine.now day.now order.bytes)
        (map order_text orders.now)) }
    ensures refused { IfErr result
        (IsFirstRefusal machine.now day.now place (map order_text orders.now)) }
{
    let Some((order, rest)) = orders.split_first() else {
        return Ok(());
    };
    if let Err(why) = send(alloc, machine, day, order.bytes) {
        return Err(OrderFault { place, why });
    }
    check_orders(alloc, machine, day, place + 1, rest)
}

/// Writes the file of orders that `send` accepts.
fn draw_booklet<W: Sink>(
    sink: &mut W,
    options: PageOptions,
    day: &SheetDay,
    orders: &[OrderFile<'_>],
)
    requires good { All (λ (order : OrderText). HasForm day.now order.bytes) (map order_text orders.now) }
    requires few { length orders.now ≤ 32 }
    ensures { (text : List ℕ)
        × IsSendBooklet options.results options.language day.now (map order_text orders.now) text
        × Draws W.taken W.has_failed sink.old sink.new text }
{
    draw_booklet_head(sink, options.language, day, orders);
    draw_order_pages(sink, options, day, 1, orders);
    draw(sink, FOOT);
}

/// Writes the head of the file, with the list of the orders.
fn draw_booklet_head<W: Sink>(
    sink: &mut W,
    language: Language,
    day: &SheetDay,
    orders: &[OrderFile<'_>],
)
    requires { length orders.now ≤ 32 }
    ensures { Draws W.taken W.has_failed sink.old sink.new
        (booklet_head language day.now (map order_text orders.now)) }
{
    draw_title(sink, language, TITLE_TO_SEND, day);
    fill_in(
        sink,
        language,
        ORDERS,
        &[
            Value::Model(day.model()),
            Value::Number(u16::from(day.day())),
            Value::Number(orders.len() as u16),
        ],
    );
    draw_listed_orders(sink, language, 1, orders);
    draw(sink, NAV_END);
}

/// Writes lines of the list of the orders, from order number `number` on.
fn draw_listed_orders<W: Sink>(
    sink: &mut W,
    language: Language,
    number: u8,
    orders: &[OrderFile<'_>],
)
    requires { number + length orders.now ≤ 33 }
    ensures { Draws W.taken W.has_failed sink.old sink.new
        (listed_orders number (map order_text orders.now)) }
{
    if let Some((order, rest)) = orders.split_first() {
        fill(
            sink,
            language,
            LISTED_ORDER,
            &[Value::Number(u16::from(number))],
        );
        draw_sheet_name(sink, order.name);
        draw(sink, LISTED_ORDER_END);
        draw_listed_orders(sink, language, number + 1, rest);
    } else {
        draw(sink, "");
    }
}

/// Writes the pages of orders that `send` accepts, from order number `number` on.
fn draw_order_pages<W: Sink>(
    sink: &mut W,
    options: PageOptions,
    day: &SheetDay,
    number: u8,
    orders: &[OrderFile<'_>],
)
    requires good { All (λ (order : OrderText). HasForm day.now order.bytes) (map order_text orders.now) }
    requires few { number + length orders.now ≤ 33 }
    ensures { (pages : List (List ℕ))
        × AreOrderPages options.results options.language day.now number
        (map order_text orders.now) pages
        × Draws W.taken W.has_failed sink.old sink.new (flat_map (λ page. page) pages) }
{
    if let Some((order, rest)) = orders.split_first() {
        draw_order_page(sink, options, day, number, order);
        draw_order_pages(sink, options, day, number + 1, rest);
    } else {
        draw(sink, "");
    }
}

/// Writes the page of an order that `send` accepts: its name, and then its sheets.
fn draw_order_page<W: Sink>(
    sink: &mut W,
    options: PageOptions,
    day: &SheetDay,
    number: u8,
    order: &OrderFile<'_>,
)
    requires { HasForm day.now order.now.bytes.now }
    ensures { (page : List ℕ)
        × IsOrderPage options.results options.language day.now number (order_text order.now) page
        × Draws W.taken W.has_failed sink.old sink.new page }
{
    fill(
        sink,
        options.language,
        ORDER_PAGE,
        &[Value::Number(u16::from(number))],
    );
    draw_sheet_name(sink, order.name);
    draw(sink, ORDER_NAME_END);
    draw_sheets_of(sink, options, day, Some(number), order.bytes);
    draw(sink, ARTICLE_END);
}
