//! The edges of what a book accepts.
use super::{Book, Call, Place, Refusal};
use std::test::Fail;

// The number of a refusal, or none where the call was accepted.
fn refused<T: Drop>(res: Result<T, Refusal>) -> Option<usize> {
    res.err().map(|refusal| refusal.number())
}

#[test]
fn tables(rt: HostRuntime) {
    let mut book = Book::new();
    for (width, number) in [
        (0, Some(6)),
        (1, None),
        (4, None),
        (5, Some(6)),
        (usize::MAX, Some(6)),
    ] {
        assert_eq!(rt; refused(book.table(width)), number);
    }
    for _ in 2..8 {
        assert_eq!(rt; refused(book.table(2)), None);
    }
    assert_eq!(rt; refused(book.table(2)), Some(7));
    assert_eq!(rt; refused(book.table(5)), Some(6));
    assert_eq!(rt; book.widths().len(), 8);
}

#[test]
fn rows(rt: HostRuntime) -> Result<(), Fail> {
    let mut book = Book::run(&[Call::Table { width: 2 }]);
    assert_eq!(rt; refused(book.row(1, &[1, 2], 0)), Some(8));
    assert_eq!(rt; refused(book.row(0, &[1], 0)), Some(9));
    assert_eq!(rt; refused(book.row(0, &[1, 2, 3], u64::MAX)), Some(9));
    assert_eq!(rt; refused(book.row(0, &[1, 2], 1_000_000_001)), Some(12));
    for _ in 0..255 {
        assert_eq!(rt; refused(book.row(0, &[1, u32::MAX], 0)), None);
    }
    let Ok(last) = book.row(0, &[7, 8], 1_000_000_000) else {
        return Err(Fail::new("row 255"));
    };
    assert_eq!(rt; last, 255);
    assert_eq!(rt; refused(book.row(0, &[7, 8], 0)), Some(13));
    assert_eq!(rt; refused(book.row(0, &[7, 8], 1_000_000_001)), Some(12));
    Ok(())
}

#[test]
fn changes(rt: HostRuntime) -> Result<(), Fail> {
    let cells = [5];
    let day = [
        Call::Table { width: 1 },
        Call::Row {
            table: 0,
            cells: &cells,
            sureness: 3,
        },
        Call::Row {
            table: 0,
            cells: &cells,
            sureness: 4,
        },
    ];
    let mut book = Book::run(&day);
    assert_eq!(rt; refused(book.reweigh(2, 0)), Some(10));
    assert_eq!(rt; refused(book.reweigh(1, 1_000_000_001)), Some(12));
    assert_eq!(rt; refused(book.reweigh(1, 1_000_000_000)), None);
    assert_eq!(rt; refused(book.strike(usize::MAX)), Some(10));
    assert_eq!(rt; refused(book.strike(0)), None);
    assert_eq!(rt; refused(book.strike(0)), Some(11));
    assert_eq!(rt; refused(book.reweigh(0, 1_000_000_001)), Some(11));
    let [first, second] = book.rows() else {
        return Err(Fail::new("two rows"));
    };
    assert!(rt; first.struck && first.sureness == 3);
    assert!(rt; !second.struck && second.sureness == 1_000_000_000);
    assert!(rt; second.cells[0] == 5 && second.cells[3] == 0);
    Ok(())
}

// The number and the place of a refusal, or none where the call was accepted.
fn told(res: Result<usize, Refusal>) -> Option<(usize, usize, usize)> {
    let refusal = res.err()?;
    let Place { record, field } = refusal.place();
    Some((refusal.number(), record, field))
}

#[test]
fn files(rt: HostRuntime) {
    let cases: [(&[u8], Option<(usize, usize, usize)>); 9] = [
        (b"stake,sure\r\n7,1\r\n\"\",\"0010\"", None),
        (b"c,sure", None),
        (b"c,sure\r\n1\"2,3", Some((2, 2, 1))),
        (b"", Some((3, 1, 1))),
        (b"c,sure\r\n1,2\r\n1,2,3\r\n", Some((4, 3, 3))),
        (b"c,sure\r\n1,2\r\nx,\r\n", Some((5, 3, 1))),
        (
            b"c,sure\r\n1,4294967296\r\n1,1000000001\r\n",
            Some((5, 2, 2)),
        ),
        (b"c,d,sure\r\n1,1,5\r\n1,1,1000000001\r\n", Some((12, 3, 3))),
        (b"c,sure\r\n1,1000000000\r\n", None),
    ];
    for (text, answer) in cases {
        let mut book = Book::new();
        assert_eq!(rt; told(book.load(text)), answer);
    }
}

#[test]
fn full(rt: HostRuntime) {
    let mut book = Book::new();
    for _ in 0..7 {
        assert_eq!(rt; refused(book.table(1)), None);
    }
    for _ in 0..254 {
        assert_eq!(rt; refused(book.row(0, &[1], 0)), None);
    }
    let three = b"c,sure\r\n1,1\r\n2,2\r\n3,3\r\n";
    assert_eq!(rt; told(book.load(three)), Some((13, 4, 1)));
    assert_eq!(rt; refused(book.load(b"c,sure\r\n1,1\r\n2,2\r\n")), None);
    assert_eq!(rt; told(book.load(b"c,sure\r\n")), Some((7, 0, 0)));
}

#[test]
fn written(rt: HostRuntime) {
    let mut book = Book::new();
    let text = b"stake,day,sure\r\n7,,5\r\n8,9,1000000000\r\n4294967295,1,0\r\n";
    assert_eq!(rt; refused(book.load(text)), None);
    assert_eq!(rt; refused(book.strike(1)), None);
    let mut out = [b'.'; 16_384];
    let mut short = [b'.'; 16_383];
    assert_eq!(rt; told(book.write(1, &mut short)), Some((8, 0, 0)));
    assert_eq!(rt; told(book.write(0, &mut short)), Some((19, 0, 0)));
    assert_eq!(rt; book.write(0, &mut out).unwrap_or(0), 35);
    assert!(rt; out.starts_with(b"c1,c2,sure\r\n7,0,5\r\n4294967295,1,0\r\n."));
}

#[test]
fn refusals(rt: HostRuntime) {
    let refusal = Refusal::GrammarBroken(Place {
        record: 3,
        field: 2,
    });
    let mut out = [b'.'; 128];
    let mut short = [b'.'; 127];
    assert_eq!(rt; told(refusal.write(&mut short)), Some((19, 0, 0)));
    assert_eq!(rt; refusal.write(&mut out).unwrap_or(0), 23);
    assert!(rt; out.starts_with(b"refusal,places\r\n2,3 2\r\n."));
}
