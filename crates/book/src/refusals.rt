//! Why a call is refused.
use std::error::Error;
use std::fmt;
use table_files::{Fault, Place};
use text::Writer;

/// The bytes that the record of a refusal never passes.
pub const RECORD_ROOM: usize = 128;

// No place: records and fields are counted from 1. No `None`, since a refusal's record has the two noughts.
pub(super) const NOWHERE: Place = Place {
    record: 0,
    field: 0,
};

/// A refusal. Each case has a number and a place, which `number` and `place` tell.
#[derive(Clone, Copy, PartialEq, Eq, Debug)]
pub enum Refusal {
    /// The file passes 65,536 bytes.
    FileTooLong,
    /// A byte, or the end, breaks the grammar of a table file.
    GrammarBroken(Place),
    /// The header has not 2 to 5 fields, or its last is not `sure`.
    HeaderUnlawful(Place),
    /// A record has not the header's number of fields.
    FieldsNotHeader(Place),
    /// A field breaks the rule for a cell or for a sureness.
    FieldUnlawful(Place),
    /// The width of a table is not 1 to 4.
    WidthOutOfRange,
    /// Eight tables are open.
    TablesUsedUp,
    /// The table is not open.
    TableNotOpen,
    /// The number of cells is not the table's width.
    CellsNotWidth,
    /// No row has the number.
    NoSuchRow,
    /// The row is struck.
    RowStruck,
    /// The sureness passes 1,000,000,000.
    SurenessTooLarge(Place),
    /// 256 row numbers would not be enough.
    RowsUsedUp(Place),
    /// The memory handed over is short.
    MemoryShort,
}

impl Refusal {
    ghost use Rattle.std.specs.Prelude.{◌≡◌, ◌+◌, ◌≤◌, [], ◌∷◌};
    ghost use Rattle.text.specs.Writers.{Wrote, room_of};
    ghost use Rattle.book.specs.Books.{Obeys};
    ghost use Rattle.book.specs.Files.{written_verdict};
    ghost use Rattle.book.specs.Refusals.{reason, told, refusal_text};

    /// The number by which a user knows the refusal.
    pub fn number(self) -> usize
        ensures { result ≡ (told self).number }
    {
        // The cases have places in them, so the numbers stand here and not at the cases.
        match self {
            Refusal::FileTooLong => 1,
            Refusal::GrammarBroken(_) => 2,
            Refusal::HeaderUnlawful(_) => 3,
            Refusal::FieldsNotHeader(_) => 4,
            Refusal::FieldUnlawful(_) => 5,
            Refusal::WidthOutOfRange => 6,
            Refusal::TablesUsedUp => 7,
            Refusal::TableNotOpen => 8,
            Refusal::CellsNotWidth => 9,
            Refusal::NoSuchRow => 10,
            Refusal::RowStruck => 11,
            Refusal::SurenessTooLarge(_) => 12,
            Refusal::RowsUsedUp(_) => 13,
            Refusal::MemoryShort => 19,
        }
    }

    /// Where the fault is: the record and the field, both from 1; 0 and 0 where there is no place.
    pub fn place(self) -> Place
        ensures { (told self).places ≡ result.«record» ∷ result.field ∷ [] }
    {
        match self {
            Refusal::GrammarBroken(place)
            | Refusal::HeaderUnlawful(place)
            | Refusal::FieldsNotHeader(place)
            | Refusal::FieldUnlawful(place)
            | Refusal::SurenessTooLarge(place)
            | Refusal::RowsUsedUp(place) => place,
            _ => NOWHERE,
        }
    }

    // Why the call is refused, in words.
    fn reason(self) -> &'static str
        ensures { result.now ≡ reason self }
    {
        match self {
            Refusal::FileTooLong => "the file passes 65536 bytes",
            Refusal::GrammarBroken(_) => "the grammar of a table file is broken",
            Refusal::HeaderUnlawful(_) =>
                "the header has not 2 to 5 fields of which the last is sure",
            Refusal::FieldsNotHeader(_) => "the number of fields is not the header's",
            Refusal::FieldUnlawful(_) => "the field is no cell and no sureness",
            Refusal::WidthOutOfRange => "the width is not 1 to 4",
            Refusal::TablesUsedUp => "eight tables are open",
            Refusal::TableNotOpen => "the table is not open",
            Refusal::CellsNotWidth => "the number of cells is not the table's width",
            Refusal::NoSuchRow => "no row has the number",
            Refusal::RowStruck => "the row is struck",
            Refusal::SurenessTooLarge(_) => "the sureness passes 1000000000",
            Refusal::RowsUsedUp(_) => "256 row numbers would not be enough",
            Refusal::MemoryShort => "the memory handed over is short",
        }
    }

    /// Writes the header `refusal,places` and the refusal's record into lent bytes, of which 128 always suffice, and answers
    /// their length.
    pub fn write(self, out: &mut [u8]) -> Result<usize, Refusal>
        ensures { Obeys (λ bytes. bytes) (written_verdict 128 (refusal_text (told self)) out.old) result out.old out.new }
    {
        if out.len() < RECORD_ROOM {
            return Err(Refusal::MemoryShort);
        }
        let mut writer = Writer::new(out);
        self.put(&mut writer);
        Ok(writer.place())
    }

    // Writes the header and the record. The caller has shown that they fit.
    #[tactic(auto, using(text::proofs::Writing::digits_short))]
    fn put(self, writer: &mut Writer)
        requires { writer.old.at + 128 ≤ room_of writer.old }
        ensures { Wrote writer.old writer.new (refusal_text (told self)) }
    {
        let Place { record, field } = self.place();
        writer.put(b"refusal,places\r\n");
        writer.put_number(self.number());
        writer.put(b",");
        writer.put_number(record);
        writer.put(b" ");
        writer.put_number(field);
        writer.put(b"\r\n");
    }
}

impl From<Fault> for Refusal {
    ghost use Rattle.std.specs.Prelude.{◌≡◌};
    ghost use Rattle.book.specs.Refusals.{told, fault_told};

    ghost from_gives = { λ fault refusal. told refusal ≡ fault_told fault };

    fn from(fault: Fault) -> Refusal {
        match fault {
            Fault::TooLong => Refusal::FileTooLong,
            Fault::Grammar(place) => Refusal::GrammarBroken(place),
            Fault::Header(place) => Refusal::HeaderUnlawful(place),
            Fault::FieldCount(place) => Refusal::FieldsNotHeader(place),
            Fault::Field(place) => Refusal::FieldUnlawful(place),
        }
    }
}

impl fmt::Display for Refusal {
    ghost use Rattle.std.specs.Prelude.{Some};
    ghost use Rattle.book.specs.Refusals.{message};

    ghost output = { λ refusal. Some (message refusal) };

    fn fmt<W: fmt::Write>(&self, f: &mut fmt::Formatter<W>) -> fmt::Result {
        let place = self.place();
        if place.record == 0 {
            f.write_str(self.reason())
        } else {
            write!(f, "{}: {place}", self.reason())
        }
    }
}

impl Error for Refusal {}
