//! Loads the table files of the folder it is run in, `A.csv`, `B.csv` and on to the first that is missing, at most eight, and
//! prints what the book then holds; at the first refusal it prints the refusal's record instead.
#![tactic(auto)]

use book::{Book, RECORD_ROOM, Refusal, Row};
use std::io::{ErrorKind, Write};
use std::{fs, io};

const FILES: [&str; 8] = [
    "A.csv", "B.csv", "C.csv", "D.csv", "E.csv", "F.csv", "G.csv", "H.csv",
];

// The bytes of a file, or none where it is missing.
fn read_file(rt: &HostRuntime, path: &str) -> io::Result<Option<Vec<u8>>> {
    match fs::read(rt, path) {
        Ok(bytes) => Ok(Some(bytes)),
        Err(error) if error.kind() == ErrorKind::NotFound => Ok(None),
        Err(error) => Err(error),
    }
}

// Why not all files were loaded.
#[derive(Drop)]
enum LoadError {
    Refused(Refusal),
    Unread(io::Error),
}

impl From<Refusal> for LoadError {
    fn from(refusal: Refusal) -> LoadError {
        LoadError::Refused(refusal)
    }
}

impl From<io::Error> for LoadError {
    fn from(error: io::Error) -> LoadError {
        LoadError::Unread(error)
    }
}

// Loads the files in order; the first refusal ends it.
fn load_files(rt: &HostRuntime, book: &mut Book) -> Result<(), LoadError> {
    for path in FILES {
        let Some(file) = read_file(rt, path)? else {
            break;
        };
        book.load(&file)?;
    }
    Ok(())
}

fn print_refusal(rt: &HostRuntime, refusal: Refusal) -> io::Result<()> {
    let mut out = [0; RECORD_ROOM];
    let length = refusal.write(&mut out).unwrap();
    rt.stdout().write_all(&out[..length])
}

fn print_row(rt: &HostRuntime, number: usize, row: &Row, width: usize) -> io::Result<()> {
    print!(rt; "  r{number}:")?;
    for cell in row.cells.iter().take(width) {
        print!(rt; " {cell}")?;
    }
    let sureness = row.sureness;
    println!(rt; ", sure {sureness}")
}

fn print_book(rt: &HostRuntime, book: &Book) -> io::Result<()> {
    for (table, (path, width)) in FILES.iter().zip(book.widths()).enumerate() {
        println!(rt; "{path}, width {width}")?;
        for (number, row) in book
            .rows()
            .iter()
            .enumerate()
            .filter(|(_, row)| row.table == table)
        {
            print_row(rt, number, row, *width)?;
        }
    }
    Ok(())
}

fn main(rt: HostRuntime) -> io::Result<()> {
    let mut book = Book::new();
    match load_files(&rt, &mut book) {
        Ok(()) => print_book(&rt, &book),
        Err(LoadError::Refused(refusal)) => print_refusal(&rt, refusal),
        Err(LoadError::Unread(error)) => Err(error),
    }
}
