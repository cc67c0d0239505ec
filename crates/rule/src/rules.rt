//! Rules as they are kept.
ghost use Rattle.std.specs.Prelude.{◌≡◌, ◌+◌, ◌^◌, ◌<◌, true, length, [], ◌∷◌, ◌++◌};
ghost use Rattle.std.specs.List.{list_all};
ghost use Rattle.lists.specs.Items.{items_of};
ghost use Rattle.rule.specs.Kept.{empty, with_term, fits};

use lists::FixedList;

/// What stands in a place of an atom: a variable, `a` being 0 and `z` 25, or a constant.
#[derive(Clone, Copy, PartialEq, Eq, Debug)]
pub enum Term {
    Variable(u8),
    Constant(u32),
}

/// An atom: its table, its first four terms, and how many terms it has. The places past those hold `Variable(0)`.
#[derive(Clone, Copy, PartialEq, Eq, Debug)]
pub struct Atom {
    pub table: usize,
    // No list: `count` also counts the terms behind the fourth, which are not kept.
    pub terms: [Term; 4],
    pub count: usize,
}

impl Atom {
    // The atom of a table, without terms.
    #[inline(always)]
    pub(super) fn new(table: usize) -> Atom
        ensures { result ≡ empty table }
    {
        Atom {
            table,
            terms: [Term::Variable(0); 4],
            count: 0,
        }
    }

    // One term more. It is kept if it is among the first four.
    pub(super) fn push(&mut self, term: Term)
        requires { self.old.count + 1 < 2 ^ 64 }
        ensures { self.new ≡ with_term self.old term }
    {
        if self.count < 4 {
            self.terms[self.count] = term;
        }
        self.count += 1;
    }
}

/// The atoms of a rule text, each of a table from 0 to 7. A text of at most 512 bytes has at most 101 of them.
#[derive(Clone, Copy, PartialEq, Eq, Debug)]
pub struct Rule {
    atoms: FixedList<Atom, 101>,
    ghost fit: { list_all fits (items_of atoms) ≡ true },
}

impl Rule {
    ghost use Rattle.rule.specs.Rules.{atoms_of};

    /// The atoms of the rule, in the order of the text.
    pub fn atoms(&self) -> &[Atom]
        ensures are { result.now ≡ atoms_of self.now }
        ensures fit { list_all fits result.now ≡ true }
    {
        self.atoms.as_slice()
    }

    // A rule without atoms.
    #[inline(always)]
    pub(super) fn new() -> Rule
        ensures { atoms_of result ≡ [] }
    {
        Rule {
            atoms: FixedList::new(Atom::new(0)),
        }
    }

    // One atom more.
    pub(super) fn push(&mut self, atom: Atom)
        requires room { length (atoms_of self.old) < 101 }
        requires fit { fits atom ≡ true }
        ensures { atoms_of self.new ≡ atoms_of self.old ++ (atom ∷ []) }
    {
        self.atoms.push(atom);
    }
}
