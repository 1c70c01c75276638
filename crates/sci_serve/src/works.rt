//! What a run prints of its result.

ghost use Rattle.std.specs.Prelude.{◌≡◌, ◌++◌, IfOk, OnOk, string_bytes, codes};
ghost use Rattle.sci_dump.specs.Text.{values_text};
ghost use Rattle.sci_serve.specs.Works.{list_line, count_line};

use std::alloc::{AllocError, Global};

/// Each value behind a space.
fn push_values(text: &mut String, values: &[u64]) -> Result<(), AllocError>
    ensures { OnOk result (string_bytes text.new ≡ string_bytes text.old ++ values_text values.now) }
{
    for value in values {
        write!(text, " {value}")?;
    }
    Ok(())
}

/// The text of the cells of a stencil.
pub fn cells_text(alloc: Global, cells: &[u64]) -> Result<String, AllocError>
    ensures { IfOk result (λ text. string_bytes text ≡ list_line (codes "cells") cells.now) }
{
    let mut text = String::from_str(alloc, "cells")?;
    push_values(&mut text, cells)?;
    text.push_str("\n")?;
    Ok(text)
}

/// The text of the items of a ring.
pub fn items_text(alloc: Global, items: &[u64]) -> Result<String, AllocError>
    ensures { IfOk result (λ text. string_bytes text ≡ list_line (codes "items") items.now) }
{
    let mut text = String::from_str(alloc, "items")?;
    push_values(&mut text, items)?;
    text.push_str("\n")?;
    Ok(text)
}

/// The text of a count.
pub fn count_text(alloc: Global, value: u64) -> Result<String, AllocError>
    ensures { IfOk result (λ text. string_bytes text ≡ count_line value) }
{
    format!(in alloc; "count {value}\n")
}
