//! The reader of rule texts, token by token.
ghost use Rattle.std.specs.Prelude.{◌≡◌, ◌<◌, ◌≤◌, ◌≢◌, length, slice_index};
ghost use Rattle.rule.specs.Classes.{class};

use super::numbers::number_of;
use super::refusal::Refusal;
use super::rules::{Atom, Term};
use super::tokens::{Class, Token, run_of};

// A text, and the place from which it is read on. Not the walk over records of table files: that goes from field to field, this from token to
// token, and no step is the same.
#[derive(Drop)]
pub(super) struct Reader<'a> {
    text: &'a [u8],
    at: usize,
    ghost within: { at ≤ length text.now },
}

impl<'a> Reader<'a> {
    ghost use Rattle.rule.specs.Lexing.{past_spaces, Begins, Lexed, Found};
    ghost use Rattle.rule.specs.Parsing.{HeadRead, TermRead, AtomRead};

    // A reader at the first byte.
    pub(super) fn new(text: &'a [u8]) -> Reader<'a>
        ensures same_text { result.text.now ≡ text.now }
        ensures first { result.at ≡ 0 }
    {
        Reader { text, at: 0 }
    }

    // The first place from here on that holds no space.
    #[inline(always)]
    fn past_spaces(&self) -> usize
        ensures is { result ≡ past_spaces self.now }
        ensures inside { result ≤ length self.now.text.now }
        ensures stops { result < length self.now.text.now → class (slice_index self.now.text.now result) ≢ Class.Blank }
    {
        self.at + run_of(&self.text[self.at..], Class::Blank)
    }

    // Goes over spaces and a mark of the class. Where another byte or none stands, it is refused.
    #[inline(always)]
    fn mark(&mut self, class: Class) -> Result<(), Refusal>
        ensures { Found self.old class result self.new }
    {
        let at = self.past_spaces();
        match self.text.get(at) {
            Some(byte) if Class::from(*byte) == class => {
                self.at = at + 1;
                Ok(())
            }
            _ => Err(Refusal { at }),
        }
    }

    // The token from here on, over spaces.
    #[inline(always)]
    fn peek(&self) -> Token<'a>
        ensures { Begins self.now result }
    {
        let at = self.past_spaces();
        let Some(byte) = self.text.get(at) else {
            return Token::End(at);
        };
        let rest = &self.text[at..];
        match Class::from(*byte) {
            Class::Table => Token::Table(&rest[..1], at),
            Class::Variable => Token::Variable(&rest[..1], at),
            Class::Digit => Token::Constant(&rest[..run_of(rest, Class::Digit)], at),
            Class::Open => Token::Open(at),
            Class::Close => Token::Close(at),
            Class::Comma => Token::Comma(at),
            Class::Blank | Class::Name | Class::Colon | Class::Other => Token::Other(at),
        }
    }

    // Goes over spaces and a token.
    #[inline(always)]
    pub(super) fn next_token(&mut self) -> Token<'a>
        ensures { Lexed self.old result self.new }
    {
        let token = self.peek();
        self.at = token.place() + token.len();
        token
    }

    // Goes over `Q():-`.
    pub(super) fn head(&mut self) -> Result<(), Refusal>
        ensures { HeadRead self.old result self.new }
    {
        for class in [Class::Name, Class::Open, Class::Close, Class::Colon] {
            self.mark(class)?;
        }
        if self.text[self.at..].starts_with(b"-") {
            self.at += 1;
            Ok(())
        } else {
            Err(Refusal { at: self.at })
        }
    }

    // Goes over a term.
    fn term(&mut self) -> Result<Term, Refusal>
        ensures { TermRead self.old result self.new }
    {
        match self.next_token() {
            Token::Variable(name, _) => Ok(Term::Variable(name[0] - b'a')),
            Token::Constant(digits, at) => Ok(Term::Constant(number_of(digits, at)?)),
            token => Err(Refusal { at: token.place() }),
        }
    }

    // Goes over an atom.
    pub(super) fn atom(&mut self) -> Result<Atom, Refusal>
        ensures { AtomRead self.old result self.new }
    {
        let token = self.next_token();
        let Token::Table(name, _) = token else {
            return Err(Refusal { at: token.place() });
        };
        let mut atom = Atom::new(usize::from(name[0] - b'A'));
        self.mark(Class::Open)?;
        loop {
            atom.push(self.term()?);
            match self.next_token() {
                Token::Comma(_) => {}
                Token::Close(_) => return Ok(atom),
                token => return Err(Refusal { at: token.place() }),
            }
        }
    }
}
