//! Words that are filled into templates.
ghost use Rattle.std.specs.Prelude.{◌≡◌};
ghost use Rattle.kd_pictures.specs.Words.{class_text, is_converter, mark_text, model_name, word_text};

use crate::texts;
use kd_language::Language;
use kd_tables::{Family, Model};

/// A fixed word: the language's code, `ON` or `OFF` for a pin, or the name of a step, slot, picture or lug.
#[derive(Clone, Copy)]
pub enum Word {
    Language,
    Rings,
    RingsOut,
    Seats,
    PlugsOut,
    PlugsIn,
    Windows,
    LampTest,
    Pins,
    Lugs,
    Letters,
    PrintTest,
    Greek,
    Left,
    Middle,
    Right,
    Before,
    After,
    On,
    Off,
    LeftLug,
    RightLug,
}

impl Word {
    pub fn text(self, language: Language) -> &'static str
        ensures { result.now ≡ word_text language self }
    {
        match self {
            Word::Language => language.text(texts::LANGUAGE),
            Word::Rings => language.text(texts::RINGS),
            Word::RingsOut => language.text(texts::RINGS_OUT),
            Word::Seats => language.text(texts::SEATS),
            Word::PlugsOut => language.text(texts::OUT_STEP),
            Word::PlugsIn => language.text(texts::IN_STEP),
            Word::Windows => language.text(texts::WINDOW_STEP),
            Word::LampTest => language.text(texts::LAMP_STEP),
            Word::Pins => language.text(texts::PIN_STEP),
            Word::Lugs => language.text(texts::LUG_STEP),
            Word::Letters => language.text(texts::LETTER_STEP),
            Word::PrintTest => language.text(texts::PRINT_STEP),
            Word::Greek => language.text(texts::GREEK),
            Word::Left => language.text(texts::LEFT),
            Word::Middle => language.text(texts::MIDDLE),
            Word::Right => language.text(texts::RIGHT),
            Word::Before => language.text(texts::BEFORE),
            Word::After => language.text(texts::AFTER),
            Word::On => language.text(texts::ON),
            Word::Off => language.text(texts::OFF),
            Word::LeftLug => language.text(texts::LEFT_LUG),
            Word::RightLug => language.text(texts::RIGHT_LUG),
        }
    }
}

/// The CSS class of a cable's line: the cable has a plug to take out, a plug to put in, or no plug to move.
#[derive(Clone, Copy)]
pub enum Class {
    Plain,
    Out,
    In,
}

impl Class {
    pub fn text(self) -> &'static str
        ensures { result.now ≡ class_text self }
    {
        match self {
            Class::Plain => texts::PLAIN,
            Class::Out => texts::OUT_CLASS,
            Class::In => texts::IN_CLASS,
        }
    }
}

/// A mark in a table, for a pin, or for a place on a bar.
#[derive(Clone, Copy)]
pub enum Mark {
    Effective,
    Ineffective,
    LugStays,
    LugLeaves,
    LugComes,
}

impl Mark {
    pub fn text(self) -> &'static str
        ensures { result.now ≡ mark_text self }
    {
        match self {
            Mark::Effective => "●",
            Mark::Ineffective => "○",
            Mark::LugStays => "▪",
            Mark::LugLeaves => "×",
            Mark::LugComes => "■",
        }
    }
}

/// The full name of the model.
pub fn model_name(model: Model) -> &'static str
    ensures { result.now ≡ model_name model }
{
    match model {
        Model::EnigmaI => texts::ENIGMA_I,
        Model::M3 => texts::ENIGMA_M3,
        Model::M4 => texts::ENIGMA_M4,
        Model::M209 => texts::CONVERTER,
    }
}

/// Whether `model` is a Converter, which has pin wheels and bars.
pub fn is_converter(model: Model) -> bool
    ensures { result ≡ is_converter model }
{
    match model.family() {
        Family::Rotor => false,
        Family::Pin => true,
    }
}
