//! The place where a text is refused.
ghost use Rattle.std.specs.Prelude.{Some, ◌++◌, codes, decimal};

use std::error::Error;
use std::fmt;

/// The place where a text is refused that is no rule text of at most 512 bytes.
#[derive(Clone, Copy, PartialEq, Eq, Debug)]
pub struct Refusal {
    pub at: usize,
}

impl fmt::Display for Refusal {
    ghost output = { λ refusal. Some (codes "refused at byte " ++ decimal refusal.at) };

    fn fmt<W: fmt::Write>(&self, f: &mut fmt::Formatter<W>) -> fmt::Result {
        write!(f, "refused at byte {}", self.at)
    }
}

impl Error for Refusal {}
