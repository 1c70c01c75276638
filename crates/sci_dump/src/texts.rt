//! The text of a dump.

ghost use Rattle.std.specs.Prelude.{◌≡◌, ◌≤◌, ◌++◌, ℕ, true, Ok, IfOk, OnOk, string_bytes, length, All};
ghost use Rattle.sci_words.specs.Tag.{tag_well_formed};
ghost use Rattle.sci_words.specs.declared.layouts.Layout.TheVariants.{Two};
ghost use Rattle.sci_core.specs.declared.whole.TheConstants.{MOST_NODES};
ghost use Rattle.sci_dump.specs.ReadBack.{dump_read};
ghost use Rattle.sci_dump.specs.Reading.{dump_of};
ghost use Rattle.sci_dump.specs.Text.{content_text, memory_text, node_text, tag_text, nodes_text, closed_text, head_text, lines_text, dump_text, hexadecimal, values_text};

use crate::ranges::show_lines;
use sci_core::{Closed, Line};
use sci_words::{Kind, Tag, write_mem, write_tag};
use std::alloc::{AllocError, Global};

/// A word in 16 digits.
fn push_word(text: &mut String, word: u64) -> Result<(), AllocError>
    ensures { OnOk result (string_bytes text.new ≡ string_bytes text.old ++ hexadecimal 16 word) }
{
    write!(text, "{word:016x}")
}

/// Each value behind a space.
fn push_values(text: &mut String, values: &[u64]) -> Result<(), AllocError>
    ensures { OnOk result (string_bytes text.new ≡ string_bytes text.old ++ values_text values.now) }
{
    for value in values {
        write!(text, " {value}")?;
    }
    Ok(())
}

/// A word, and a line's stamp and words.
fn push_content(text: &mut String, word: u64, line: &Line) -> Result<(), AllocError>
    ensures { OnOk result (string_bytes text.new ≡ string_bytes text.old ++ content_text word line.now) }
{
    let stamp = line.stamp;
    push_word(text, word)?;
    write!(text, " {stamp}")?;
    push_values(text, &line.words)?;
    text.push_str("\n")
}

/// `line L`, the memory word, and memory's line.
#[tactic(auto, unfolding(crate::specs::Text::memory_text))]
fn push_memory(text: &mut String, number: usize, closed: &Closed) -> Result<(), AllocError>
    ensures { OnOk result (string_bytes text.new ≡ string_bytes text.old ++ memory_text Two number closed.now.mem closed.now.memory) }
{
    write!(text, "line {number} ")?;
    push_content(text, write_mem(closed.mem), &closed.memory)
}

/// `tag L N`, the node's tag, and its line.
#[tactic(auto, unfolding(crate::specs::Text::tag_text))]
fn push_tag(
    text: &mut String,
    number: usize,
    node: usize,
    tag: Tag,
    line: &Line,
) -> Result<(), AllocError>
    requires { tag_well_formed tag ≡ true }
    ensures { OnOk result (string_bytes text.new ≡ string_bytes text.old ++ tag_text Two number node tag line.now) }
{
    write!(text, "tag {number} {node} ")?;
    push_content(text, write_tag(tag), line)
}

/// The same for a node whose tag isn't Invalid.
#[tactic(auto, unfolding(crate::specs::Text::node_text))]
fn push_node(
    text: &mut String,
    number: usize,
    node: usize,
    tag: Tag,
    line: &Line,
) -> Result<(), AllocError>
    requires { tag_well_formed tag ≡ true }
    ensures { OnOk result (string_bytes text.new ≡ string_bytes text.old ++ node_text Two number node tag line.now) }
{
    if matches!(tag.kind, Kind::Invalid) {
        return Ok(());
    }
    push_tag(text, number, node, tag, line)
}

/// The nodes of a line.
fn push_nodes(text: &mut String, number: usize, closed: &Closed) -> Result<(), AllocError>
    ensures { OnOk result (string_bytes text.new ≡ string_bytes text.old ++ nodes_text Two number 0 closed.now.tags closed.now.lines) }
{
    for node in 0..closed.tags.len() {
        push_node(text, number, node, closed.tags[node], &closed.lines[node])?;
    }
    Ok(())
}

/// A closed line.
#[tactic(auto, unfolding(crate::specs::Text::closed_text))]
fn push_closed(text: &mut String, number: usize, closed: &Closed) -> Result<(), AllocError>
    ensures { OnOk result (string_bytes text.new ≡ string_bytes text.old ++ closed_text Two number closed.now) }
{
    push_memory(text, number, closed)?;
    push_nodes(text, number, closed)
}

/// The closed lines.
fn push_lines(text: &mut String, lines: &[Closed]) -> Result<(), AllocError>
    ensures { OnOk result (string_bytes text.new ≡ string_bytes text.old ++ lines_text Two 0 lines.now) }
{
    for number in 0..lines.len() {
        push_closed(text, number, &lines[number])?;
    }
    Ok(())
}

/// The text of closed lines, from line 0 on.
#[tactic(auto, unfolding(crate::specs::Text::dump_text, crate::specs::Text::head_text))]
fn write_dump(alloc: Global, lines: &[Closed]) -> Result<String, AllocError>
    requires lines { (1 ≤ length lines.now) × (length lines.now ≤ 1024) }
    requires nodes { (nodes : ℕ) × (1 ≤ nodes) × (nodes ≤ MOST_NODES) × All (λ c. length c.tags ≡ nodes) lines.now }
    ensures { IfOk result (λ text. (nodes : ℕ) → All (λ c. length c.tags ≡ nodes) lines.now → string_bytes text ≡ dump_text Two nodes lines.now) }
{
    let first = &lines[0];
    let nodes = first.tags.len();
    let count = lines.len();
    let mut text = format!(in alloc; "scidump 2 {nodes} {count}\n")?;
    push_lines(&mut text, lines)?;
    text.push_str("end\n")?;
    Ok(text)
}

/// The dump of closed lines, from line 0 on: 1 to 1,024 lines of the same 1 to 1,024 nodes. Err: memory ran out.
pub fn dump(alloc: Global, lines: &[Closed]) -> Result<String, AllocError>
    requires lines { (1 ≤ length lines.now) × (length lines.now ≤ 1024) }
    requires nodes { (nodes : ℕ) × (1 ≤ nodes) × (nodes ≤ MOST_NODES) × All (λ c. length c.tags ≡ nodes) lines.now }
    ensures text { IfOk result (λ text. (nodes : ℕ) → All (λ c. length c.tags ≡ nodes) lines.now → string_bytes text ≡ dump_text Two nodes lines.now) }
    // What is read of it are these lines, with zeros as the content of nodes that are Invalid.
    ensures read_back { IfOk result (λ text. (nodes : ℕ) → All (λ c. length c.tags ≡ nodes) lines.now → dump_of (string_bytes text) ≡ Ok (dump_read nodes lines.now)) }
{
    show_lines(lines);
    write_dump(alloc, lines)
}
