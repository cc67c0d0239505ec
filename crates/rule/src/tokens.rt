//! The tokens of a rule text, and the classes of bytes.
ghost use Rattle.std.specs.Prelude.{◌≡◌, ◌≤◌, length};
ghost use Rattle.rule.specs.Classes.{class, run_of};
ghost use Rattle.rule.specs.Tokens.{place_of, length_of};

// What a byte may be, or may begin.
#[derive(Clone, Copy, PartialEq, Eq, Debug)]
pub(super) enum Class {
    Blank,
    Name,
    Open,
    Close,
    Colon,
    Comma,
    Table,
    Variable,
    Digit,
    Other,
}

impl From<char> for Class {
    ghost from_gives = { λ c kind. kind ≡ class c };

    fn from(c: char) -> Class {
        match c {
            ' ' => Class::Blank,
            'Q' => Class::Name,
            '(' => Class::Open,
            ')' => Class::Close,
            ':' => Class::Colon,
            ',' => Class::Comma,
            'A'..='H' => Class::Table,
            'a'..='z' => Class::Variable,
            '0'..='9' => Class::Digit,
            _ => Class::Other,
        }
    }
}

impl From<u8> for Class {
    ghost from_gives = { λ byte kind. kind ≡ class byte };

    fn from(byte: u8) -> Class {
        Class::from(char::from(byte))
    }
}

// How many bytes of the class the text begins with.
pub(super) fn run_of(text: &[u8], class: Class) -> usize
    ensures is { result ≡ run_of class text.now }
    ensures within { result ≤ length text.now }
{
    text.iter()
        .take_while(|byte| Class::from(**byte) == class)
        .count()
}

// A token with the place of its first byte; a table, a variable and a constant with their bytes too.
#[derive(Clone, Copy, PartialEq, Eq, Debug)]
pub(super) enum Token<'a> {
    // Each case has its place, so that a match has it beside the bytes.
    Table(&'a [u8], usize),
    Variable(&'a [u8], usize),
    Constant(&'a [u8], usize),
    Open(usize),
    Close(usize),
    Comma(usize),
    Other(usize),
    End(usize),
}

impl Token<'_> {
    // The place of the token's first byte.
    pub(super) fn place(self) -> usize
        ensures { result ≡ place_of self.entry }
    {
        match self {
            Token::Table(_, at) | Token::Variable(_, at) | Token::Constant(_, at) => at,
            Token::Open(at) | Token::Close(at) | Token::Comma(at) => at,
            Token::Other(at) | Token::End(at) => at,
        }
    }

    // How many bytes a reader goes over with the token.
    pub(super) fn len(self) -> usize
        ensures { result ≡ length_of self.entry }
    {
        match self {
            Token::Table(..) | Token::Variable(..) => 1,
            Token::Constant(digits, _) => digits.len(),
            Token::Open(_) | Token::Close(_) | Token::Comma(_) => 1,
            Token::Other(_) | Token::End(_) => 0,
        }
    }
}
