//! The text of a form, written into lent bytes.
ghost use Rattle.std.specs.Prelude.{◌≡◌, ◌+◌, ◌*◌, ◌<◌, ◌≤◌, length, slice_index_or};
ghost use Rattle.text.specs.Over.{over};
ghost use Rattle.text.specs.Writers.{Wrote, room_of};
ghost use Rattle.tree.specs.Formulas.{Form, row, form_rows};
ghost use Rattle.tree.specs.Layout.{laid, parts, LaidOnce};
ghost use Rattle.tree.specs.Texts.{gap, is_and, opening, closing, formula_text, text, TextRoom};

use super::layout::Layout;
use super::{Kind, Node};
use text::Writer;

impl Kind {
    // Whether what stands below a node of the kind stands inside an and.
    fn is_and(self) -> bool
        ensures { result ≡ is_and self }
    {
        matches!(self, Kind::And)
    }

    // What parts the children of a node.
    fn gap(self) -> &'static [u8]
        ensures { result.now ≡ gap self }
    {
        match self {
            Kind::And => b" ",
            Kind::Or => b" + ",
        }
    }

    // What stands before and after the children of a node, inside an and or not.
    fn brackets(self, inside: bool) -> (&'static [u8], &'static [u8])
        ensures { (result.0.now ≡ opening self inside) × (result.1.now ≡ closing self inside) }
    {
        match (self, inside) {
            (Kind::Or, true) => (b"(", b")"),
            _ => (b"", b""),
        }
    }
}

// Writes the part of the form at a node, inside an and or not.
fn put_part(layout: Layout, at: usize, inside: bool, writer: &mut Writer)
    requires there { at < length layout.nodes.now }
    requires room { (F : Form) → layout.nodes.now ≡ laid F → writer.old.at + length (formula_text inside (slice_index_or (parts F) at (row 0))) ≤ room_of writer.old }
    ensures { (F : Form) → layout.entry.nodes.now ≡ laid F → Wrote writer.old writer.new (formula_text inside (slice_index_or (parts F) at (row 0))) }
{
    let node = layout.nodes[at];
    if let Node::Row(row) = node {
        writer.put(b"r");
        writer.put_number(row as usize);
    } else if let Some((kind, size)) = node.inner() {
        let (open, close) = kind.brackets(inside);
        writer.put(open);
        put_part(layout, at + 1, kind.is_and(), writer);
        for child in layout.later_children(at, size) {
            writer.put(kind.gap());
            put_part(layout, child, kind.is_and(), writer);
        }
        writer.put(close);
    }
}

/// Writes the text of the form from the first byte on, and answers its length, at most 9 bytes a row and 5. What lies beyond stays.
pub fn write_form(layout: Layout, out: &mut [u8]) -> usize
    requires { TextRoom layout.nodes.now (length out.old) }
    ensures ends { (F : Form) → layout.entry.nodes.now ≡ laid F → (result ≡ length (text F)) × (result ≤ 9 * length (form_rows F) + 5) }
    ensures wrote { (F : Form) → layout.entry.nodes.now ≡ laid F → out.new ≡ over out.old 0 (text F) }
    ensures one { LaidOnce }
{
    let mut writer = Writer::new(out);
    if layout.nodes.is_empty() {
        writer.put(b"never");
    } else {
        put_part(layout, 0, false, &mut writer);
    }
    writer.place()
}
