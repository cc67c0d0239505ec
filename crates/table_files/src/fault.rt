//! What may be wrong with a text, and where.
ghost use Rattle.std.specs.Prelude.{Some, ◌++◌, codes, decimal};

use std::error::Error;
use std::fmt;

/// The place of a fault: its record and its field, both from 1.
#[derive(Clone, Copy, PartialEq, Eq, Debug)]
pub struct Place {
    pub record: usize,
    pub field: usize,
}

/// What is wrong with a text, in the order in which it is looked for.
#[derive(Clone, Copy, PartialEq, Eq, Debug)]
pub enum Fault {
    /// It has more than 65,536 bytes.
    TooLong,
    /// A byte, or the end, breaks the grammar there.
    Grammar(Place),
    /// The header, which ends there, has not 2 to 5 fields, or its last is not `sure`.
    Header(Place),
    /// The record that ends there has not as many fields as the header.
    FieldCount(Place),
    /// The field there breaks the rule for a cell or for a sureness.
    Field(Place),
}

impl fmt::Display for Place {
    ghost output = { λ place. Some (codes "record " ++ decimal place.«record» ++ codes ", field " ++ decimal place.field) };

    fn fmt<W: fmt::Write>(&self, f: &mut fmt::Formatter<W>) -> fmt::Result {
        write!(f, "record {}, field {}", self.record, self.field)
    }
}

impl fmt::Display for Fault {
    ghost use Rattle.table_files.specs.Messages.{message};

    ghost output = { λ fault. Some (message fault) };

    fn fmt<W: fmt::Write>(&self, f: &mut fmt::Formatter<W>) -> fmt::Result {
        match self {
            Fault::TooLong => f.write_str("the text has more than 65536 bytes"),
            Fault::Grammar(place) => write!(f, "the grammar is broken at {place}"),
            Fault::Header(place) => write!(
                f,
                "the header has not 2 to 5 fields of which the last is sure: {place}"
            ),
            Fault::FieldCount(place) => {
                write!(f, "the number of fields is not the header's: {place}")
            }
            Fault::Field(place) => { write!(f, "the field is no cell and no sureness: {place}") }
        }
    }
}

impl Error for Fault {}
