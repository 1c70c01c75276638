//! Why a text is refused as settings, in words, and where.

ghost use Rattle.std.specs.Prelude.{IfOk};
ghost use Rattle.sci_settings.specs.Settings.{IsWhySettings, Tells};

use crate::misfits::{Misfit, Unread};
use crate::settings::settings_in;
use std::alloc::{AllocError, Global};
use std::fmt;
use toml::de::Error;
use toml::table_from_slice;

/// Why a text is refused as settings. A line of the text is counted from 1.
#[derive(Debug, PartialEq, Eq, Drop)]
pub enum SettingsReason {
    /// From this line on it is no TOML.
    NoToml { line: u64, error: Error },
    /// Its table is no settings; the line that begins with the key, where just one does.
    Misfit { line: Option<u64>, misfit: Misfit },
}

impl fmt::Display for SettingsReason {
    fn fmt<W: fmt::Write>(&self, f: &mut fmt::Formatter<W>) -> fmt::Result {
        match self {
            SettingsReason::NoToml { line, error } => {
                let message = error.message();
                write!(f, "line {line}: {message}")
            }
            SettingsReason::Misfit {
                line: Some(line),
                misfit,
            } => write!(f, "line {line}: {misfit}"),
            SettingsReason::Misfit { line: None, misfit } => write!(f, "{misfit}"),
        }
    }
}

/// Whether a line of text begins with a key, in quotes or brackets too.
fn begins_with(line: &[u8], key: &[u8]) -> bool {
    let start = line.iter().position(|byte| !matches!(*byte, b' ' | b'\t' | b'"' | b'\'' | b'['));
    match line[start.unwrap_or(line.len())..].strip_prefix(key) {
        Some([]) => true,
        Some([next, ..]) => !next.is_ascii_alphanumeric() && !matches!(*next, b'_' | b'-'),
        None => false,
    }
}

/// The line of a text that begins with a key, where just one does.
fn line_of(text: &[u8], key: &str) -> Option<u64> {
    let (mut number, mut found) = (0u64, None);
    for line in text.split(|byte| *byte == b'\n') {
        number = number.saturating_add(1);
        if !key.is_empty() && begins_with(line, key.as_bytes()) {
            if found.is_some() {
                return None;
            }
            found = Some(number);
        }
    }
    found
}

/// The line of a text on which a byte stands.
fn line_at(text: &[u8], place: usize) -> u64 {
    let mut line = 1u64;
    for byte in text.iter().take(place) {
        if *byte == b'\n' {
            line = line.saturating_add(1);
        }
    }
    line
}

/// Where a text is no settings.
fn located(text: &[u8], misfit: Misfit) -> SettingsReason
    ensures { Tells misfit result }
{
    let line = misfit.key().and_then(|key| line_of(text, key));
    SettingsReason::Misfit { line, misfit }
}

/// Why a text is refused as settings, in words. None where it isn't refused. Refusal 7 alone.
#[tactic(auto, unfolding(crate::specs::Settings::settings_of))]
pub fn why_settings(alloc: Global, text: &[u8]) -> Result<Option<SettingsReason>, AllocError>
    ensures { IfOk result (IsWhySettings text.now) }
{
    match table_from_slice(alloc, text) {
        Ok(table) => match settings_in(alloc, &table) {
            Ok(_) => Ok(None),
            Err(Unread::OutOfMemory) => Err(AllocError),
            Err(Unread::Misfit(misfit)) => Ok(Some(located(text, misfit))),
        },
        Err(error) => match error.span() {
            Some(span) => {
                let line = line_at(text, span.start);
                Ok(Some(SettingsReason::NoToml { line, error }))
            }
            None => Err(AllocError),
        },
    }
}
