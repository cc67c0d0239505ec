//! A book of survey tables: its rows by number, each with how sure the observer was, and the calls that change it.
#![tactic(auto)]

mod books;
mod calls;
mod files;
mod refusals;
mod rows;
#[cfg(test)]
mod tests;

pub use books::Book;
pub use calls::{Answer, Call};
pub use files::FILE_ROOM;
pub use refusals::{RECORD_ROOM, Refusal};
pub use rows::Row;
pub use table_files::Place;
