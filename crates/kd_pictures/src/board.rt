//! The picture of a plugboard.
ghost use Rattle.std.specs.Prelude.{◌≡◌, ◌+◌, ◌*◌, ◌<◌, ◌≤◌, ◌++◌, IsTrue, flat_map, is_some, nat_lt, option_map};
ghost use Rattle.std.specs.List.{list_all, list_any};
ghost use Rattle.kd_pictures.specs.Drawing.{Draws};
ghost use Rattle.kd_pictures.specs.Board.{all_cables, bend, board_head, board_text, cable_line, cable_of};
ghost use Rattle.kd_pictures.specs.Board.{cable_holding};
ghost use Rattle.kd_pictures.specs.Board.{cable_after, cable_words, cables_after, is_plugged, left_half, open_end};
ghost use Rattle.kd_pictures.specs.Board.{right_half, end_moves, free_socket, has_cables, has_plug, lane};
ghost use Rattle.kd_pictures.specs.Board.{line_between, line_class, line_text, moving_class, moving_plug, open_line};
ghost use Rattle.kd_pictures.specs.Board.{picture_name, round_plug, socket_holding, socket_text};

use crate::drawing::{draw, draw_in};
use crate::numbers::CABLES;
use crate::sockets::{KEYBOARD, label_y, line_x, socket_x, socket_y};
use crate::template::{Value, fill, fill_in};
use crate::texts::{
    BOARD, BOARD_END, CABLE_WORDS, FREE, GOES_IN, GOES_OUT, LEFT_HALF, LOOSE_WORDS, NO_CABLES,
    OPEN_END, RIGHT_HALF, STAYS, TITLE_END,
};
use crate::words::{Class, Word};
use kd_language::Language;
use kd_state::{Cable, Machine, lies_in};
use kd_tables::{Letter, Sink};

/// The plugs that are marked in a picture of the plugboard.
/// - `Out`: plugs to take out. The picture shows the machine before the settings.
/// - `In`: plugs to put in. The picture shows the machine after the settings.
#[derive(Clone, Copy)]
pub enum Plugs {
    Out,
    In,
}

/// Writes the plugboard of `machine`. A plug is marked if `other` doesn't have this plug at the same letter.
pub fn draw_board<W: Sink>(
    sink: &mut W,
    language: Language,
    plugs: Plugs,
    machine: &Machine,
    other: &Machine,
)
    ensures { Draws W.taken W.has_failed sink.old sink.new
        (board_text language plugs machine.now other.now) }
{
    draw_board_head(sink, language, plugs);
    draw_all_cables(sink, language, machine);
    draw(sink, TITLE_END);
    draw_lines(sink, language, plugs, machine, other, &CABLES);
    draw_sockets(sink, language, plugs, machine, other, &KEYBOARD);
    draw(sink, BOARD_END);
}

#[tactic(auto, unfolding(crate::specs::Board::board_head))]
fn draw_board_head<W: Sink>(sink: &mut W, language: Language, plugs: Plugs)
    ensures { Draws W.taken W.has_failed sink.old sink.new (board_head language plugs) }
{
    fill_in(sink, language, BOARD, &[Value::Word(picture_name(plugs))]);
}

fn picture_name(plugs: Plugs) -> Word
    ensures { result ≡ picture_name plugs }
{
    match plugs {
        Plugs::Out => Word::Before,
        Plugs::In => Word::After,
    }
}

/// Writes each cable that has a plug, in words such as `1 A-B`. If no cable has a plug, says so.
#[tactic(auto, unfolding(crate::specs::Board::all_cables))]
pub fn draw_all_cables<W: Sink>(sink: &mut W, language: Language, machine: &Machine)
    ensures { Draws W.taken W.has_failed sink.old sink.new (all_cables language machine.now) }
{
    if has_cables(machine, &CABLES) {
        draw_cables_after(sink, language, "", machine, &CABLES);
    } else {
        draw_in(sink, language, NO_CABLES);
    }
}

/// Whether one of the cables in `numbers` has a plug.
pub fn has_cables(machine: &Machine, numbers: &[u8]) -> bool
    ensures { result ≡ has_cables machine.now numbers.now }
{
    match numbers {
        [number, ..] if is_plugged(machine, *number) => true,
        [_, rest @ ..] => has_cables(machine, rest),
        [] => false,
    }
}

fn is_plugged(machine: &Machine, number: u8) -> bool
    ensures { result ≡ is_plugged machine.now number }
{
    let (one, _) = cable_of(machine, number);
    one.is_some()
}

/// Writes each of the cables `numbers` that has a plug, in words such as `1 A-B`. `separator` stands before the first
/// of these cables, and a comma before each later one.
fn draw_cables_after<W: Sink>(
    sink: &mut W,
    language: Language,
    separator: &str,
    machine: &Machine,
    numbers: &[u8],
)
    ensures { Draws W.taken W.has_failed sink.old sink.new
        (cables_after separator.now machine.now numbers.now) }
{
    match numbers {
        [number, rest @ ..] if is_plugged(machine, *number) => {
            draw_cable_after(sink, language, separator, machine, *number);
            draw_cables_after(sink, language, ", ", machine, rest);
        }
        [_, rest @ ..] => draw_cables_after(sink, language, separator, machine, rest),
        [] => draw(sink, ""),
    }
}

/// Writes `separator`, and then a cable that has a plug, in words.
fn draw_cable_after<W: Sink>(
    sink: &mut W,
    language: Language,
    separator: &str,
    machine: &Machine,
    number: u8,
)
    ensures { Draws W.taken W.has_failed sink.old sink.new
        (cable_after separator.now machine.now number) }
{
    draw(sink, separator);
    draw_cable_words(sink, language, number, cable_of(machine, number));
}

fn draw_cable_words<W: Sink>(sink: &mut W, language: Language, number: u8, cable: Cable)
    ensures { Draws W.taken W.has_failed sink.old sink.new (cable_words number cable) }
{
    let number = Value::Number(u16::from(number));
    match cable {
        (Some(one), Some(other)) => fill(
            sink,
            language,
            CABLE_WORDS,
            &[number, Value::Letter(one), Value::Letter(other)],
        ),
        (Some(one), None) => fill(sink, language, LOOSE_WORDS, &[number, Value::Letter(one)]),
        (None, _) => draw(sink, ""),
    }
}

fn cable_of(machine: &Machine, number: u8) -> Cable
    ensures { result ≡ cable_of machine.now number }
{
    machine.cable(number).unwrap_or((None, None))
}

fn has_plug(machine: &Machine, number: u8, letter: Letter) -> bool
    ensures { result ≡ has_plug machine.now number letter }
{
    lies_in(&cable_of(machine, number), letter)
}

fn draw_lines<W: Sink>(
    sink: &mut W,
    language: Language,
    plugs: Plugs,
    machine: &Machine,
    other: &Machine,
    numbers: &[u8],
)
    ensures { Draws W.taken W.has_failed sink.old sink.new
        (flat_map (line_text plugs machine.now other.now) numbers.now) }
{
    if let [number, rest @ ..] = numbers {
        draw_line(sink, language, plugs, machine, other, *number);
        draw_lines(sink, language, plugs, machine, other, rest);
    }
}

fn draw_line<W: Sink>(
    sink: &mut W,
    language: Language,
    plugs: Plugs,
    machine: &Machine,
    other: &Machine,
    number: u8,
)
    ensures { Draws W.taken W.has_failed sink.old sink.new
        (line_text plugs machine.now other.now number) }
{
    let class = line_class(plugs, other, number, cable_of(machine, number));
    let lane = 139 + 9 * u16::from(number);
    draw_cable_line(sink, language, class, lane, cable_of(machine, number));
}

/// The CSS class of the line of cable `number`, whose plugs are at the letters `cable`. The line is thick if machine
/// `other` lacks one of these plugs.
fn line_class(plugs: Plugs, other: &Machine, number: u8, cable: Cable) -> Class
    ensures { result ≡ line_class plugs other.now number cable }
{
    if end_moves(other, number, cable.0) || end_moves(other, number, cable.1) {
        moving_class(plugs)
    } else {
        Class::Plain
    }
}

fn end_moves(other: &Machine, number: u8, end: Option<Letter>) -> bool
    ensures { result ≡ end_moves other.now number end }
{
    match end {
        Some(letter) => !has_plug(other, number, letter),
        None => false,
    }
}

fn moving_class(plugs: Plugs) -> Class
    ensures { result ≡ moving_class plugs }
{
    match plugs {
        Plugs::Out => Class::Out,
        Plugs::In => Class::In,
    }
}

fn draw_cable_line<W: Sink>(sink: &mut W, language: Language, class: Class, lane: u16, cable: Cable)
    requires low { 100 ≤ lane }
    requires high { lane < 10000 }
    ensures { Draws W.taken W.has_failed sink.old sink.new (cable_line class lane cable) }
{
    match cable {
        (Some(one), Some(other)) if line_x(one) < line_x(other) => {
            draw_between(sink, language, class, lane, one, other)
        }
        (Some(one), Some(other)) => draw_between(sink, language, class, lane, other, one),
        (Some(one), None) => draw_open(sink, language, class, lane, one),
        (None, _) => draw(sink, ""),
    }
}

/// Writes the line of a cable between two sockets.
fn draw_between<W: Sink>(
    sink: &mut W,
    language: Language,
    class: Class,
    lane: u16,
    left: Letter,
    right: Letter,
)
    requires low { 100 ≤ lane }
    requires high { lane < 10000 }
    ensures { Draws W.taken W.has_failed sink.old sink.new (line_between class lane left right) }
{
    draw_left_half(sink, language, class, lane, left);
    draw_right_half(sink, language, lane, right);
}

/// Writes the line of a cable with one plug: from the plug to an open end.
fn draw_open<W: Sink>(sink: &mut W, language: Language, class: Class, lane: u16, letter: Letter)
    requires low { 100 ≤ lane }
    requires high { lane < 10000 }
    ensures { Draws W.taken W.has_failed sink.old sink.new (open_line class lane letter) }
{
    draw_left_half(sink, language, class, lane, letter);
    draw_open_end(sink, language, letter);
}

/// Writes the first piece of a cable's line: from a socket into the cable's lane.
fn draw_left_half<W: Sink>(
    sink: &mut W,
    language: Language,
    class: Class,
    lane: u16,
    letter: Letter,
)
    requires low { 100 ≤ lane }
    requires high { lane < 10000 }
    ensures { Draws W.taken W.has_failed sink.old sink.new (left_half class lane letter) }
{
    fill(
        sink,
        language,
        LEFT_HALF,
        &[
            Value::Class(class),
            Value::Number(line_x(letter)),
            Value::Number(socket_y(letter)),
            Value::Number(bend(socket_y(letter), lane)),
            Value::Number(line_x(letter)),
            Value::Number(lane),
            Value::Number(line_x(letter) + 5),
            Value::Number(lane),
        ],
    );
}

/// Writes the last piece of a cable's line: along the cable's lane, and then to a socket.
fn draw_right_half<W: Sink>(sink: &mut W, language: Language, lane: u16, letter: Letter)
    requires low { 100 ≤ lane }
    requires high { lane < 10000 }
    ensures { Draws W.taken W.has_failed sink.old sink.new (right_half lane letter) }
{
    fill(
        sink,
        language,
        RIGHT_HALF,
        &[
            Value::Number(line_x(letter) - 5),
            Value::Number(line_x(letter)),
            Value::Number(lane),
            Value::Number(line_x(letter)),
            Value::Number(bend(socket_y(letter), lane)),
            Value::Number(socket_y(letter)),
        ],
    );
}

fn draw_open_end<W: Sink>(sink: &mut W, language: Language, letter: Letter)
    ensures { Draws W.taken W.has_failed sink.old sink.new (open_end letter) }
{
    fill(
        sink,
        language,
        OPEN_END,
        &[Value::Number(line_x(letter) + 20)],
    );
}

/// The height at which a line from a socket at height `y` begins to bend into its lane.
fn bend(y: u16, lane: u16) -> u16
    requires low { 100 ≤ lane }
    requires high { lane < 10000 }
    ensures { result ≡ bend y lane }
{
    if y < lane { lane - 5 } else { lane + 5 }
}

/// Writes the sockets of the letters with the numbers `letters`, from 0 (A) to 25 (Z).
fn draw_sockets<W: Sink>(
    sink: &mut W,
    language: Language,
    plugs: Plugs,
    machine: &Machine,
    other: &Machine,
    letters: &[u8],
)
    requires { IsTrue (list_all (λ letter. nat_lt letter 26) letters.now) }
    ensures { Draws W.taken W.has_failed sink.old sink.new
        (flat_map (socket_text plugs machine.now other.now) letters.now) }
{
    if let [letter, rest @ ..] = letters {
        draw_socket(sink, language, plugs, machine, other, Letter::at(*letter));
        draw_sockets(sink, language, plugs, machine, other, rest);
    }
}

fn draw_socket<W: Sink>(
    sink: &mut W,
    language: Language,
    plugs: Plugs,
    machine: &Machine,
    other: &Machine,
    letter: Letter,
)
    ensures { Draws W.taken W.has_failed sink.old sink.new
        (socket_text plugs machine.now other.now letter) }
{
    match cable_holding(machine, letter, &CABLES) {
        None => draw_free(sink, language, letter),
        Some(number) if has_plug(other, number, letter) => {
            draw_round(sink, language, STAYS, letter, number)
        },
        Some(number) => draw_moving(sink, language, plugs, letter, number),
    }
}

/// Finds the cable among `numbers` that has a plug at `letter`. `None` if no cable has a plug there.
fn cable_holding(machine: &Machine, letter: Letter, numbers: &[u8]) -> Option<u8>
    ensures { result ≡ cable_holding machine.now letter numbers.now }
{
    match numbers {
        [number, ..] if has_plug(machine, *number, letter) => Some(*number),
        [_, rest @ ..] => cable_holding(machine, letter, rest),
        [] => None,
    }
}

fn draw_free<W: Sink>(sink: &mut W, language: Language, letter: Letter)
    ensures { Draws W.taken W.has_failed sink.old sink.new (free_socket letter) }
{
    fill(
        sink,
        language,
        FREE,
        &[
            Value::Number(socket_x(letter)),
            Value::Number(label_y(letter)),
            Value::Letter(letter),
            Value::Number(socket_x(letter)),
            Value::Number(socket_y(letter)),
        ],
    );
}

/// Writes a plug that moves: as a square if it is taken out, as a disc if it is put in.
fn draw_moving<W: Sink>(sink: &mut W, language: Language, plugs: Plugs, letter: Letter, number: u8)
    ensures { Draws W.taken W.has_failed sink.old sink.new (moving_plug plugs letter number) }
{
    match plugs {
        Plugs::Out => draw_square(sink, language, letter, number),
        Plugs::In => draw_round(sink, language, GOES_IN, letter, number),
    }
}

fn draw_square<W: Sink>(sink: &mut W, language: Language, letter: Letter, number: u8)
    ensures { Draws W.taken W.has_failed sink.old sink.new (moving_plug Plugs.Out letter number) }
{
    fill(
        sink,
        language,
        GOES_OUT,
        &[
            Value::Number(socket_x(letter)),
            Value::Number(label_y(letter)),
            Value::Letter(letter),
            Value::Number(socket_x(letter) - 15),
            Value::Number(socket_y(letter) - 15),
            Value::Number(socket_x(letter)),
            Value::Number(socket_y(letter) + 6),
            Value::Number(u16::from(number)),
        ],
    );
}

/// Writes a plug, drawn as the cable's number in a circle.
fn draw_round<W: Sink>(sink: &mut W, language: Language, template: &str, letter: Letter, number: u8)
    ensures { Draws W.taken W.has_failed sink.old sink.new
        (round_plug template.now letter number) }
{
    fill(
        sink,
        language,
        template,
        &[
            Value::Number(socket_x(letter)),
            Value::Number(label_y(letter)),
            Value::Letter(letter),
            Value::Number(socket_x(letter)),
            Value::Number(socket_y(letter)),
            Value::Number(socket_x(letter)),
            Value::Number(socket_y(letter) + 6),
            Value::Number(u16::from(number)),
        ],
    );
}
