//! Calls as data, and what a list of them makes of a new book.
use super::books::Book;
use super::refusals::Refusal;

// A call is data, and no closure, since the law over all runs is about lists of calls.
/// A call that changes a book, with its arguments.
#[derive(Clone, Copy, PartialEq, Eq, Debug)]
pub enum Call<'a> {
    Table {
        width: usize,
    },
    Row {
        table: usize,
        cells: &'a [u32],
        sureness: u64,
    },
    Reweigh {
        row: usize,
        sureness: u64,
    },
    Strike {
        row: usize,
    },
    Load {
        file: &'a [u8],
    },
}

// No `Option` of a number: `Done` is the whole answer of a call that gives no number, and nothing is missing.
/// What an accepted call answers: the number of a table or a row, or only that it is done.
#[derive(Clone, Copy, PartialEq, Eq, Debug)]
pub enum Answer {
    Number(usize),
    Done,
}

impl Book {
    ghost use Rattle.std.specs.Prelude.{◌≡◌};
    ghost use Rattle.book.specs.Books.{ledger, Obeys};
    ghost use Rattle.book.specs.Ledgers.{Ledger};
    ghost use Rattle.book.specs.Rules.{Verdict};
    ghost use Rattle.book.specs.Runs.{Judged, LedgerOf};

    /// Makes one call.
    pub fn perform(&mut self, call: Call) -> Result<Answer, Refusal>
        ensures { (v : Verdict _ _) × Judged (ledger self.old) call.entry v × Obeys ledger v result self.old self.new }
    {
        match call {
            Call::Table { width } => self.table(width).map(Answer::Number),
            Call::Row {
                table,
                cells,
                sureness,
            } => self.row(table, cells, sureness).map(Answer::Number),
            Call::Reweigh { row, sureness } => self.reweigh(row, sureness).map(|()| Answer::Done),
            Call::Strike { row } => self.strike(row).map(|()| Answer::Done),
            Call::Load { file } => self.load(file).map(Answer::Number),
        }
    }

    /// A new book on which the calls were made, one after the other. A refused call is passed over.
    pub fn run(calls: &[Call]) -> Book
        ensures led { LedgerOf calls.now (ledger result) }
        ensures one { (l m : Ledger) → LedgerOf calls.now l → LedgerOf calls.now m → l ≡ m }
    {
        let mut book = Book::new();
        for call in calls {
            let _ = book.perform(*call);
        }
        book
    }
}
