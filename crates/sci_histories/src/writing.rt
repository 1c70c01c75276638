//! The text of a history.

ghost use Rattle.std.specs.Prelude.{◌≡◌, ◌++◌, ◌∷◌, IfOk, OnOk, string_bytes, codes};
ghost use Rattle.sci_dump.specs.Text.{values_text};
ghost use Rattle.sci_histories.specs.Text.{row_text, receipt_text, list_text, lists_text, line_text, lines_text, history_text};

use crate::histories::{History, LineHistory, NodeReceipts, closing_of, lists_of, opening_of};
use sci_core::{Line, Receipt};
use std::alloc::{AllocError, Global};

/// Each value behind a space.
fn push_values(text: &mut String, values: &[u64]) -> Result<(), AllocError>
    ensures { OnOk result (string_bytes text.new ≡ string_bytes text.old ++ values_text values.now) }
{
    for value in values {
        write!(text, " {value}")?;
    }
    Ok(())
}

/// A stamp and eight words, each behind a space.
fn push_content(text: &mut String, stamp: u64, words: &[u64; 8]) -> Result<(), AllocError>
    ensures { OnOk result (string_bytes text.new ≡ string_bytes text.old ++ values_text (stamp ∷ words.now)) }
{
    write!(text, " {stamp}")?;
    push_values(text, words)
}

/// A receipt of a node.
#[tactic(auto, unfolding(crate::specs::Text::receipt_text, crate::specs::Text::row_text))]
fn push_receipt(text: &mut String, node: usize, receipt: Receipt) -> Result<(), AllocError>
    ensures { OnOk result (string_bytes text.new ≡ string_bytes text.old ++ receipt_text node receipt) }
{
    match receipt {
        Receipt::Read { words, stamp } => {
            write!(text, "read {node}")?;
            push_content(text, stamp, &words)?;
        }
        Receipt::Passed { words, stamp } => {
            write!(text, "passed {node}")?;
            push_content(text, stamp, &words)?;
        }
        Receipt::Wrote {
            before,
            words,
            stamp,
        } => {
            write!(text, "wrote {node}")?;
            push_content(text, stamp, &words)?;
            text.push_str(" over")?;
            push_values(text, &before)?;
        }
    }
    text.push_str("\n")
}

/// The receipts of a node.
fn push_list(text: &mut String, node: usize, receipts: &[Receipt]) -> Result<(), AllocError>
    ensures { OnOk result (string_bytes text.new ≡ string_bytes text.old ++ list_text node receipts.now) }
{
    for place in 0..receipts.len() {
        push_receipt(text, node, receipts[place])?;
    }
    Ok(())
}

/// The receipts of each node.
fn push_lists(text: &mut String, lists: &[NodeReceipts]) -> Result<(), AllocError>
    ensures { OnOk result (string_bytes text.new ≡ string_bytes text.old ++ lists_text 0 lists.now) }
{
    for node in 0..lists.len() {
        push_list(text, node, lists[node].receipts())?;
    }
    Ok(())
}

/// `line L` and the opening content.
#[tactic(auto, unfolding(crate::specs::Text::row_text))]
fn push_opening(text: &mut String, number: usize, line: &Line) -> Result<(), AllocError>
    ensures { OnOk result (string_bytes text.new ≡ string_bytes text.old ++ row_text (codes "line ") number line.now.stamp line.now.words ++ codes "\n") }
{
    write!(text, "line {number}")?;
    push_content(text, line.stamp, &line.words)?;
    text.push_str("\n")
}

/// `closed L` and the closing content.
#[tactic(auto, unfolding(crate::specs::Text::row_text))]
fn push_closing(text: &mut String, number: usize, line: &Line) -> Result<(), AllocError>
    ensures { OnOk result (string_bytes text.new ≡ string_bytes text.old ++ row_text (codes "closed ") number line.now.stamp line.now.words ++ codes "\n") }
{
    write!(text, "closed {number}")?;
    push_content(text, line.stamp, &line.words)?;
    text.push_str("\n")
}

/// A line's history.
#[tactic(auto, unfolding(crate::specs::Text::line_text))]
fn push_line(text: &mut String, number: usize, line: &LineHistory) -> Result<(), AllocError>
    ensures { OnOk result (string_bytes text.new ≡ string_bytes text.old ++ line_text number line.now) }
{
    push_opening(text, number, &opening_of(line))?;
    push_closing(text, number, &closing_of(line))?;
    push_lists(text, lists_of(line))
}

/// The lines' histories.
fn push_lines(text: &mut String, lines: &[LineHistory]) -> Result<(), AllocError>
    ensures { OnOk result (string_bytes text.new ≡ string_bytes text.old ++ lines_text 0 lines.now) }
{
    for number in 0..lines.len() {
        push_line(text, number, &lines[number])?;
    }
    Ok(())
}

/// The text of a history, to the byte. Err: memory ran out.
#[tactic(auto, unfolding(crate::specs::Text::history_text))]
pub fn history_text(alloc: Global, history: &History) -> Result<String, AllocError>
    ensures { IfOk result (λ text. string_bytes text ≡ history_text history.now.nodes history.now.lines) }
{
    let nodes = history.nodes;
    let count = history.lines.len();
    let mut text = format!(in alloc; "scihistory 1 {nodes} {count}\n")?;
    push_lines(&mut text, &history.lines)?;
    text.push_str("end\n")?;
    Ok(text)
}
