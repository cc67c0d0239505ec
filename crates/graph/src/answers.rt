//! What is answered: a list of parts, and how a set splits.
use crate::sets::MemberSet;
use lists::FixedList;

/// Up to 256 sets.
pub type Parts = FixedList<MemberSet, 256>;

// `Split` stands apart from the function `split`: no two names of a module may differ in the case of their letters alone.
/// How a set of members splits.
#[derive(Clone, Copy, PartialEq, Eq, Debug)]
pub enum Split {
    /// There is no member.
    Empty,
    /// There is one member.
    Single(u8),
    /// Two connected parts of the graph or more.
    InGraph(Parts),
    /// Two connected parts of the complement or more.
    InComplement(Parts),
    /// Connected both ways: four members that form a chain.
    Stuck([u8; 4]),
}
