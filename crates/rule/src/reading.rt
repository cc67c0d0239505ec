//! What a rule text says.
ghost use Rattle.rule.specs.Rules.{Answered};

use super::reader::Reader;
use super::refusal::Refusal;
use super::rules::Rule;
use super::tokens::Token;

// The most bytes of a text.
const LONGEST: usize = 512;

/// The rule that a text of at most 512 bytes says. A longer text is refused at 512; another at the first byte that no lawful text
/// continues, or at its length where it ends too early.
pub fn read(text: &[u8]) -> Result<Rule, Refusal>
    ensures { Answered text.now result }
{
    if text.len() > LONGEST {
        return Err(Refusal { at: LONGEST });
    }
    let mut reader = Reader::new(text);
    reader.head()?;
    let mut rule = Rule::new();
    // A loop like that over the terms of an atom; one function for both would take a closure for the item and one for the end.
    loop {
        rule.push(reader.atom()?);
        match reader.next_token() {
            Token::Comma(_) => {}
            Token::End(_) => return Ok(rule),
            token => return Err(Refusal { at: token.place() }),
        }
    }
}
