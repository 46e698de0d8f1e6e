//! Lists of settings: each line has one setting.
ghost use Rattle.std.specs.Prelude.{◌≡◌, MatchOption, MatchResult, Some};
ghost use Rattle.kd_state.specs.FaultText.{list_fault_text};
ghost use Rattle.kd_state.specs.Line.{BeginsWithSettingLine, BeginsWithNoSetting, BeginsWithAllSettings, IsListText};
ghost use Rattle.kd_state.specs.Line.{IsListFault};

use crate::setting::Setting;
use arrayvec::ArrayVec;
use kd_tables::{Refusal, RefusalText, split_once};
use std::fmt;
use thiserror::Error;

/// The settings of a list or of a card, in their order: at most 192.
pub type Settings = ArrayVec<Setting, 192>;

/// Why bytes aren't a list of settings.
#[derive(Clone, Copy, Debug, PartialEq, Eq, Error)]
pub enum ListFault {
    /// The number of the first line that has no LF or isn't a setting's line; lines are counted from 1.
    BadLine(usize),
    /// There are more than 192 settings.
    TooMany,
}

impl ListFault {
    /// The refusal's number and name, and for `BadLine` the number of the line.
    pub fn text(&self) -> RefusalText
        ensures { result.bytes ≡ list_fault_text self.now }
    {
        match *self {
            ListFault::BadLine(line) => Refusal::BadLine.text_at(line),
            ListFault::TooMany => Refusal::TooMany.text(),
        }
    }
}

impl fmt::Display for ListFault {
    ghost output = { λ fault. Some (list_fault_text fault) };

    fn fmt<W: fmt::Write>(&self, f: &mut fmt::Formatter<W>) -> fmt::Result {
        f.write_str(self.text().as_str())
    }
}

/// Reads a list of at most 192 settings: one on each line, with LF at the end of the line.
pub fn read_list(text: &[u8]) -> Result<Settings, ListFault>
    ensures { MatchResult result
        (λ settings. IsListText text.now settings.items)
        (IsListFault text.now) }
{
    let (settings, rest) = split_settings(text).ok_or(ListFault::TooMany)?;
    if rest.is_empty() {
        Ok(settings)
    } else {
        Err(ListFault::BadLine(settings.len() + 1))
    }
}

/// Reads settings up to the first line that has no LF or isn't the line of a setting.
///
/// Returns the settings and the rest of `text`. `None` if there are more than 192 settings.
pub fn split_settings(text: &[u8]) -> Option<(Settings, &[u8])>
    ensures { MatchOption result
        (IsListFault text.now ListFault.TooMany)
        (λ found. BeginsWithAllSettings text.now found.0.items found.1.now) }
{
    let mut settings = ArrayVec::new();
    let mut rest = text;
    while let Some((setting, after)) = split_setting(rest) {
        if settings.is_full() {
            return None;
        }
        settings.push(setting);
        rest = after;
    }
    Some((settings, rest))
}

/// Reads the first line of `text`, with its LF, as a setting; returns the setting and the rest of `text`.
fn split_setting(text: &[u8]) -> Option<(Setting, &[u8])>
    ensures { MatchOption result
        (BeginsWithNoSetting text.now)
        (λ found. BeginsWithSettingLine text.now found.0 found.1.now) }
{
    let (line, rest) = split_once(text, b'\n')?;
    Some((Setting::from_line(line)?, rest))
}
