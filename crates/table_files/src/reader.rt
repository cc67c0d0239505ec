//! The reader of a text, and whether a text keeps the grammar.
ghost use Rattle.std.specs.Prelude.{◌≡◌, ◌+◌, ◌^◌, ◌<◌, ◌&&◌, Some, None, MatchResult};
ghost use Rattle.table_files.specs.Grammar.{Breaks, Lawful};
ghost use Rattle.table_files.specs.Steps.{class_of, done, moved, parts};

use super::fault::Place;

// What the reader has before it or around it.
#[derive(Clone, Copy, PartialEq, Eq, Debug)]
pub(super) enum State {
    Before,
    Plain,
    Quoted,
    AfterQuote,
    AfterCr,
}

// What a byte is to the grammar.
#[derive(Clone, Copy, PartialEq, Eq, Debug)]
pub(super) enum Class {
    Comma,
    Quote,
    Cr,
    Lf,
    Text,
    Other,
}

impl From<u8> for Class {
    ghost from_gives = { λ byte class. class ≡ class_of byte };

    fn from(byte: u8) -> Class {
        match byte {
            b',' => Class::Comma,
            b'"' => Class::Quote,
            b'\r' => Class::Cr,
            b'\n' => Class::Lf,
            b' '..=b'~' => Class::Text,
            _ => Class::Other,
        }
    }
}

// A reader of a text: its state, and the place that it is in.
#[derive(Clone, Copy, PartialEq, Eq, Debug)]
pub(super) struct Reader {
    state: State,
    place: Place,
}

impl Reader {
    // Before the first byte of a text.
    pub(super) const START: Reader = Reader {
        state: State::Before,
        place: Place {
            record: 1,
            field: 1,
        },
    };

    // Goes on over a byte; or stays where it is, and answers its place.
    pub(super) fn advance(&mut self, class: Class) -> Result<(), Place>
        requires { (self.old.place.«record» + 1 < 2 ^ 64) × (self.old.place.field + 1 < 2 ^ 64) }
        ensures { MatchResult result (λ _. moved self.old class ≡ Some self.new) (λ p. (moved self.old class ≡ None) × (self.new ≡ self.old) × (p ≡ self.old.place)) }
    {
        match (self.state, class) {
            (State::Before | State::Plain | State::AfterQuote, Class::Comma) => {
                self.state = State::Before;
                self.place.field += 1;
            }
            (State::Before | State::Plain | State::AfterQuote, Class::Cr) => self.state =
                State::AfterCr,
            (State::Before | State::Plain, Class::Text) => self.state = State::Plain,
            (State::Before | State::AfterQuote, Class::Quote) => self.state = State::Quoted,
            (State::Quoted, Class::Quote) => self.state = State::AfterQuote,
            (State::Quoted, Class::Text | Class::Comma | Class::Cr | Class::Lf) => {}
            (State::AfterCr, Class::Lf) => {
                self.state = State::Before;
                self.place.record += 1;
                self.place.field = 1;
            }
            _ => return Err(self.place),
        }
        Ok(())
    }

    // Whether a field may end here.
    pub(super) fn ended(&self) -> bool
        ensures { result ≡ done self.now.state }
    {
        match self.state {
            State::Before | State::Plain | State::AfterQuote => true,
            State::Quoted | State::AfterCr => false,
        }
    }

    // Whether a byte of this class ends the field that the reader is in.
    pub(super) fn parted(&self, class: Class) -> bool
        ensures { result ≡ (done self.now.state && parts class) }
    {
        self.ended()
            && match class {
                Class::Comma | Class::Cr => true,
                Class::Quote | Class::Lf | Class::Text | Class::Other => false,
            }
    }
}

// Whether the text keeps the grammar; or the place in which it breaks it.
pub(super) fn check(text: &[u8]) -> Result<(), Place>
    ensures { MatchResult result (λ _. Lawful text.now) (λ p. Breaks text.now p.«record» p.field) }
{
    let mut reader = Reader::START;
    for byte in text {
        reader.advance(Class::from(*byte))?;
    }
    if reader.ended() {
        Ok(())
    } else {
        Err(reader.place)
    }
}
