//! Tables as text.
ghost use Rattle.std.specs.Prelude.{◌+◌, ◌<◌, ◌≤◌, decimal};
ghost use Rattle.table_files.specs.Written.{WrittenReadsBack, column, header_text, piece, row_text};
ghost use Rattle.text.specs.Writers.{Wrote, room_of};

use super::rows::Row;
use text::Writer;

// Writes the name of cell k, from 1, with a comma behind it.
fn put_name(k: usize, writer: &mut Writer)
    requires { (k < 10) × (writer.old.at + 3 ≤ room_of writer.old) }
    ensures { Wrote writer.old writer.new (piece (column k)) }
{
    writer.put(b"c");
    writer.put_number(k);
    writer.put(b",");
}

/// Writes the header of a table of some width, with names c1 and on. A table has a width of 1 to 4, and the caller has
/// shown that 18 bytes are left.
pub fn put_header(width: usize, writer: &mut Writer)
    requires { (width ≤ 4) × (writer.old.at + 18 ≤ room_of writer.old) }
    ensures wrote { Wrote writer.old writer.new (header_text width) }
    ensures short { writer.new.at ≤ writer.old.at + 18 }
{
    for k in 1..=width {
        put_name(k, writer);
    }
    writer.put(b"sure\r\n");
}

// Writes a number with a comma behind it.
fn put_cell(number: u32, writer: &mut Writer)
    requires { writer.old.at + 11 ≤ room_of writer.old }
    ensures { Wrote writer.old writer.new (piece (decimal number)) }
{
    writer.put_number(number as usize);
    writer.put(b",");
}

/// Writes a row of a table of some width, in decimal numbers. A table has a width of 1 to 4, and the caller has shown that
/// 56 bytes are left. A header and rows so written read back.
pub fn put_row(row: Row, width: usize, writer: &mut Writer)
    requires { (width ≤ 4) × (writer.old.at + 56 ≤ room_of writer.old) }
    ensures wrote { Wrote writer.old writer.new (row_text width row) }
    ensures short { writer.new.at ≤ writer.old.at + 56 }
    ensures back { WrittenReadsBack }
{
    for cell in &row.cells[..width] {
        put_cell(*cell, writer);
    }
    writer.put_number(row.sureness as usize);
    writer.put(b"\r\n");
}
