//! What closed lines can be dumped: all of them. Contracts see plain numbers in a closed line; that stamps and words have 64 bits,
//! and links a code, its types say. These functions show it, and compute nothing.

ghost use Rattle.std.specs.Prelude.{◌≡◌, ◌<◌, ◌^◌, true, length, All};
ghost use Rattle.sci_words.specs.Tag.{tag_links_below};
ghost use Rattle.sci_words.specs.Mem.{mem_links_below};
ghost use Rattle.sci_words.specs.declared.layouts.Layout.TheVariants.{Two};
ghost use Rattle.sci_dump.specs.ReadBack.{IsContent, IsLineOf};

use sci_core::{Closed, Line};
use sci_words::{Mem, Tag};

fn show_stamp(stamp: u64)
    ensures { stamp < 2 ^ 64 }
{}

fn show_words(words: &[u64])
    ensures { All (λ word. word < 2 ^ 64) words.now }
{}

fn show_content(line: &Line)
    ensures { IsContent line.now }
{
    show_stamp(line.stamp);
    show_words(&line.words);
}

fn show_contents(lines: &[Line])
    ensures { All IsContent lines.now }
{
    for line in lines {
        show_content(line);
    }
}

fn show_tag(tag: Tag)
    ensures { tag_links_below 65535 tag ≡ true }
{
    if let Some(node) = tag.forw {
        let _below = node.get();
    }
    if let Some(node) = tag.back {
        let _below = node.get();
    }
}

fn show_tags(tags: &[Tag])
    ensures { All (λ tag. tag_links_below 65535 tag ≡ true) tags.now }
{
    for tag in tags {
        show_tag(*tag);
    }
}

fn show_mem(mem: Mem)
    ensures { mem_links_below 65535 mem ≡ true }
{
    if let Some(node) = mem.forw {
        let _below = node.get();
    }
}

/// A closed line can be dumped.
fn show_closed(closed: &Closed)
    ensures { IsLineOf Two (length closed.now.tags) closed.now }
{
    show_mem(closed.mem);
    show_content(&closed.memory);
    show_tags(&closed.tags);
    show_contents(&closed.lines);
}

/// Lines of the same number of nodes can be dumped.
pub fn show_lines(lines: &[Closed])
    ensures { All (λ c. IsLineOf Two (length c.tags) c) lines.now }
{
    for closed in lines {
        show_closed(closed);
    }
}
