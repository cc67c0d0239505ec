//! The fields of a text: where one stands, and what it says.
ghost use Rattle.std.specs.Prelude.{◌≡◌, ℕ, ◌<◌, ◌≤◌, true, length, Decides, MatchOption, slice_index};
ghost use Rattle.std.specs.Str.Parse.{digits_value};
ghost use Rattle.table_files.specs.Fields.{Content, EndsAt, Holds, Within};
ghost use Rattle.table_files.specs.Grammar.{Bytes, DQUOTE, Field};
ghost use Rattle.table_files.specs.Places.{Number};
ghost use Rattle.table_files.specs.Tables.{Numeral, sure};

use super::reader::{Class, Reader};

// Where the raw bytes of a field stand in a text: by a rule of the project a plain record, and no slice.
#[derive(Clone, Copy, PartialEq, Eq, Debug)]
pub(super) struct FieldPlace {
    pub(super) start: usize,
    pub(super) end: usize,
}

impl FieldPlace {
    // No bytes, at the start.
    pub(super) const NOWHERE: FieldPlace = FieldPlace { start: 0, end: 0 };

    // What stands in the field, without the quotes around it.
    pub(super) fn content(self, text: &[u8]) -> &[u8]
        requires { Within text.now self }
        ensures { (value : Bytes) → Holds text.now self value → Content result.now value }
    {
        let FieldPlace { start, end } = self;
        unquoted(&text[start..end])
    }
}

// The length of the field that a text begins with: up to the byte that ends it, or the end of the text.
pub(super) fn field_length(text: &[u8]) -> usize
    ensures within { result ≤ length text.now }
    ensures ends { EndsAt text.now result }
{
    let mut reader = Reader::START;
    for (i, byte) in text.iter().enumerate() {
        let class = Class::from(*byte);
        if reader.parted(class) || reader.advance(class).is_err() {
            return i;
        }
    }
    text.len()
}

// What stands in a field, without the quotes around it.
fn unquoted(raw: &[u8]) -> &[u8]
    ensures { (value : Bytes) → Field raw.now value → Content result.now value }
{
    match raw {
        [first, inside @ .., _] if *first == b'"' => inside,
        _ => raw,
    }
}

// No `from_str_radix`, which takes a sign and more than ten digits. Not shared with `rule`, whose constants are refused at one of their digits, and not
// as a whole.
// The number that 1 to 10 digits write, if 32 bits hold it.
fn number(digits: &[u8]) -> Option<u32>
    requires { 0 < length digits.now }
    ensures { MatchOption result (Numeral digits.now → ⊥) (λ n. Numeral digits.now × (n ≡ digits_value 10 digits.now)) }
{
    if digits.len() > 10 {
        return None;
    }
    let mut n = 0u32;
    for digit in digits {
        if !digit.is_ascii_digit() {
            return None;
        }
        n = n.checked_mul(10)?.checked_add(u32::from(*digit - b'0'))?;
    }
    Some(n)
}

// The number of a field, if the field keeps its rule; a blank one is 0, unless it is the last.
pub(super) fn field_number(content: &[u8], last: bool) -> Option<u32>
    ensures { (value : Bytes) → Content content.now value → Number last value result }
{
    if content.is_empty() {
        (!last).then_some(0)
    } else {
        number(content)
    }
}

// Whether a name is `sure`.
pub(super) fn is_sure(name: &[u8]) -> bool
    ensures { Decides result (name.now ≡ sure) }
{
    name == b"sure".as_slice()
}
