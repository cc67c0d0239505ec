//! The records of a text: where the fields of one stand, and a walk over them all.
ghost use Rattle.std.specs.Prelude.{◌≡◌, ℕ, ◌+◌, ◌-◌, ◌^◌, ◌<◌, ◌≤◌, List, [], ◌∷◌, length, slice_index_or};
ghost use Rattle.std.specs.Iterator.{at_most};
ghost use Rattle.table_files.specs.Fields.{Within, nowhere};

use super::fault::Place;
use super::fields::{FieldPlace, field_length, field_number, is_sure};
use super::rows::Row;

// Where the fields of a record of a text stand, the first five of them, and how many there are.
#[derive(Clone, Copy, PartialEq, Eq, Debug)]
pub(super) struct RecordPlaces<'a> {
    text: &'a [u8],
    // No list: `fields` also counts the fields behind the fifth, whose places are not kept.
    places: [FieldPlace; 5],
    pub(super) fields: usize,
    ghost within: { (k : ℕ) → Within text.now (slice_index_or places k nowhere) },
    ghost some: { 0 < fields },
}

impl RecordPlaces<'_> {
    ghost use Rattle.table_files.specs.Grammar.{Bytes, Values};
    ghost use Rattle.table_files.specs.Places.{Found, Numbers, Pushed, RowRead, Width};

    // One more field.
    #[inline(always)]
    fn push(&mut self, place: FieldPlace)
        requires { (self.old.fields + 1 < 2 ^ 64) × Within self.old.text.now place }
        ensures { Pushed self.old self.new place }
    {
        if self.fields < 5 {
            self.places[self.fields] = place;
        }
        self.fields += 1;
    }

    // The error is a field's number and no kind: `judge` makes the place of it.
    // The numbers of the first five fields, of which the last is a sureness; or the first field, from 1, that breaks its rule.
    #[inline(always)]
    fn numbers(&self) -> Result<[u32; 5], usize>
        ensures { (values : Values) (rest : Bytes) (records : List Values) → Found values records self.now rest → length values ≤ 5 → Numbers values result }
    {
        // By a rule of the project the places are taken apart as first and rest, so their number is counted beside.
        let mut numbers = [0; 5];
        let mut field = 0;
        let mut left = &self.places[..self.fields.min(5)];
        while let [first, rest @ ..] = left {
            let content = first.content(self.text);
            numbers[field] = field_number(content, rest.is_empty()).ok_or(field + 1)?;
            field += 1;
            left = rest;
        }
        Ok(numbers)
    }

    // The numbers of a row; or the first field, from 1, that breaks its rule.
    #[inline(always)]
    pub(super) fn row(self) -> Result<Row, usize>
        ensures { (values : Values) (rest : Bytes) (records : List Values) → Found values records self.entry rest → length values ≤ 5 → RowRead values result }
    {
        let mut numbers = self.numbers()?;
        let last = self.fields.min(5) - 1;
        let sureness = numbers[last];
        numbers[last] = 0;
        let [first, second, third, fourth, _] = numbers;
        Ok(Row {
            cells: [first, second, third, fourth],
            sureness,
        })
    }

    // The width of the table whose header this is, if it is a lawful one.
    pub(super) fn width(self) -> Option<usize>
        ensures { (values : Values) (rest : Bytes) (records : List Values) → Found values records self.entry rest → Width values result }
    {
        let width = match self.fields {
            2..=5 => self.fields - 1,
            _ => return None,
        };
        is_sure(self.places[width].content(self.text)).then_some(width)
    }
}

// A walk over the records of a text, from one on.
#[derive(Clone, Copy, PartialEq, Eq, Debug)]
pub(super) struct Records<'a> {
    text: &'a [u8],
    at: usize,
    ghost within: { at ≤ length text.now },
}

impl<'a> Records<'a> {
    ghost use Rattle.table_files.specs.Grammar.{COMMA, File, Values};
    ghost use Rattle.table_files.specs.Fields.{EndsAt};
    ghost use Rattle.table_files.specs.Places.{Found, Judged};
    ghost use Rattle.table_files.specs.Tables.{Says, left_of, rest_of};

    // All records of a text.
    pub(super) fn new(text: &'a [u8]) -> Records<'a>
        ensures { rest_of result ≡ text.now }
    {
        Records { text, at: 0 }
    }

    // Goes to the end of the field that starts here, and answers its place.
    #[inline(always)]
    fn field(&mut self) -> FieldPlace
        ensures text { self.new.text ≡ self.old.text }
        ensures start { result.start ≡ self.old.at }
        ensures end { result.end ≡ self.new.at }
        ensures moves { self.old.at ≤ self.new.at }
        ensures ends { EndsAt (rest_of self.old) (self.new.at - self.old.at) }
    {
        let start = self.at;
        self.at += field_length(&self.text[start..]);
        FieldPlace {
            start,
            end: self.at,
        }
    }

    // Goes to the next record, and answers where the fields of this one stand. A text that has ended says one record, of one blank field.
    #[inline(always)]
    pub(super) fn record(&mut self) -> RecordPlaces<'a>
        ensures text { self.new.text ≡ self.old.text }
        ensures moves { self.old.at < length self.old.text.now → self.old.at < self.new.at }
        ensures found { (values : Values) (records : List Values) → File (rest_of self.old) (values ∷ records) → Found values records result (rest_of self.new) }
    {
        let first = self.field();
        let mut record = RecordPlaces {
            text: self.text,
            places: [
                first,
                FieldPlace::NOWHERE,
                FieldPlace::NOWHERE,
                FieldPlace::NOWHERE,
                FieldPlace::NOWHERE,
            ],
            fields: 1,
        };
        while self.text.get(self.at) == Some(&b',') {
            self.at += 1;
            record.push(self.field());
        }
        self.at = (self.at + 2).min(self.text.len());
        record
    }

    // The number of rows, if each passes a test; or the place of the first that does not, with the field that the test answers.
    // A row is a record behind the header.
    pub(super) fn judge<F: Fn(RecordPlaces<'a>) -> Result<(), usize> + Drop>(
        self,
        test: F,
    ) -> Result<usize, Place>
        requires { (r : _) → F.pre test r }
        ensures { (rows : List Values) → Says (rest_of self.entry) rows → Judged (F.post test) rows result }
    {
        // The count is the answer too, so no adapter numbers the records.
        let mut count = 0;
        for record in self {
            if let Err(field) = test(record) {
                return Err(Place {
                    record: count + 2,
                    field,
                });
            }
            count += 1;
        }
        Ok(count)
    }
}

impl<'a> Iterator for Records<'a> {
    ghost use Rattle.table_files.specs.Places.{RecordStep};
    ghost use Rattle.table_files.specs.Tables.{left_of};

    type Item = RecordPlaces<'a>;

    ghost next_gives = { RecordStep };

    ghost remaining = { λ s. at_most (left_of s) };

    #[inline(always)]
    fn next(&mut self) -> Option<RecordPlaces<'a>> {
        if self.at == self.text.len() {
            None
        } else {
            Some(self.record())
        }
    }
}
