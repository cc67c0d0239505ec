//! Lawful and unlawful texts, and tables written and read back.
use super::*;
use std::test::Fail;
use text::Writer;

// The width and the number of rows; or the fault.
fn verdict(text: &[u8]) -> Result<(usize, usize), Fault> {
    read(text).map(|file| (file.width, file.count))
}

// A place, by record and field.
fn at(record: usize, field: usize) -> Place {
    Place { record, field }
}

#[test]
fn verdicts(rt: HostRuntime) {
    let cases: [(&[u8], Result<(usize, usize), Fault>); 42] = [
        (b"\"a\"\"b\",sure\r\n1,2\r\n", Ok((1, 1))),
        (b"\"a,\r\nb\",sure\r\n1,2", Ok((1, 1))),
        (b"a,sure", Ok((1, 0))),
        (b"a,sure\r\n", Ok((1, 0))),
        (b"a,\"sure\"", Ok((1, 0))),
        (b"a,b,c,d,sure\r\n1,2,3,4,5", Ok((4, 1))),
        (b"a,sure\r\n,1", Ok((1, 1))),
        (b"a,sure\r\n\"\",\"1\"", Ok((1, 1))),
        (b"a,sure\r\n4294967295,4294967295", Ok((1, 1))),
        (b"a,sure\r\n0000000001,1", Ok((1, 1))),
        (b"a,b\"c,sure", Err(Fault::Grammar(at(1, 2)))),
        (b"a,\"b\"c,sure", Err(Fault::Grammar(at(1, 2)))),
        (b"a,sure\n1,1", Err(Fault::Grammar(at(1, 2)))),
        (b"a,sure\r", Err(Fault::Grammar(at(1, 2)))),
        (b"a,sure\r\r\n", Err(Fault::Grammar(at(1, 2)))),
        (b"a,sure\r1", Err(Fault::Grammar(at(1, 2)))),
        (b"a,sure\r\n1,2\n", Err(Fault::Grammar(at(2, 2)))),
        (b"a,sure\r\n1,\"2", Err(Fault::Grammar(at(2, 2)))),
        (b"a,sure\r\n1,\"2\x7f\"", Err(Fault::Grammar(at(2, 2)))),
        (b"a\t,sure", Err(Fault::Grammar(at(1, 1)))),
        (b"a,sure\r\n\x7f", Err(Fault::Grammar(at(2, 1)))),
        (b"a,sure\r\n1\xc3,2", Err(Fault::Grammar(at(2, 1)))),
        (b"x\r\ny\r\n\"", Err(Fault::Grammar(at(3, 1)))),
        (b"", Err(Fault::Header(at(1, 1)))),
        (b"sure", Err(Fault::Header(at(1, 1)))),
        (b"a,sur", Err(Fault::Header(at(1, 2)))),
        (b"a,sure,", Err(Fault::Header(at(1, 3)))),
        (b"a,sure \r\n1", Err(Fault::Header(at(1, 2)))),
        (b"a,b,c,d,e,sure", Err(Fault::Header(at(1, 6)))),
        (b"a,sure\r\n\r\n1,2", Err(Fault::FieldCount(at(2, 1)))),
        (b"a,b,sure\r\n1,2", Err(Fault::FieldCount(at(2, 2)))),
        (
            b"a,sure\r\n1,2\r\n1,2,3,4,5,6,7",
            Err(Fault::FieldCount(at(3, 7))),
        ),
        (b"a,sure\r\nx,1\r\n1", Err(Fault::FieldCount(at(3, 1)))),
        (b"a,sure\r\n4294967296,1", Err(Fault::Field(at(2, 1)))),
        (b"a,sure\r\n1,4294967296", Err(Fault::Field(at(2, 2)))),
        (b"a,sure\r\n00000000001,1", Err(Fault::Field(at(2, 1)))),
        (b"a,sure\r\n 1,1", Err(Fault::Field(at(2, 1)))),
        (b"a,sure\r\n1,", Err(Fault::Field(at(2, 2)))),
        (b"a,sure\r\n1,\"\"", Err(Fault::Field(at(2, 2)))),
        (b"a,sure\r\n\"1\"\"\",1", Err(Fault::Field(at(2, 1)))),
        (b"a,b,sure\r\n1,2,3\r\n1,-2,x", Err(Fault::Field(at(3, 2)))),
        (b"a,sure\r\n1:,1", Err(Fault::Field(at(2, 1)))),
    ];
    for (text, expected) in cases {
        assert_eq!(rt; verdict(text), expected);
    }
}

// A row of these cells and this sureness.
fn row(cells: [u32; 4], sureness: u32) -> Row {
    Row { cells, sureness }
}

#[test]
fn rows_written_and_read(rt: HostRuntime) -> Result<(), Fail> {
    let mut out = [b'-'; 200];
    let mut writer = Writer::starting_at(&mut out, 1);
    put_header(2, &mut writer);
    put_row(row([7, 4294967295, 0, 0], 1000000000), 2, &mut writer);
    let end = writer.place();
    assert_eq!(rt; end, 38);
    assert_eq!(rt;
        &out[..end + 1],
        b"-c1,c2,sure\r\n7,4294967295,1000000000\r\n-".as_slice()
    );
    let file = read(&out[1..end])?;
    assert_eq!(rt; (file.width, file.count), (2, 1));
    let mut rows = file.rows;
    assert_eq!(rt; rows.next(), Some(row([7, 4294967295, 0, 0], 1000000000)));
    assert_eq!(rt; rows.next(), None);
    let file = read(b"a,b,c,d,sure\r\n\"7\",,007,\"\",5\r\n1,2,3,4,\"05\"\r\n")?;
    let mut rows = file.rows;
    assert_eq!(rt; rows.next(), Some(row([7, 0, 7, 0], 5)));
    assert_eq!(rt; rows.next(), Some(row([1, 2, 3, 4], 5)));
    Ok(())
}

#[test]
fn longest(rt: HostRuntime) {
    let text = [b' '; 65_537];
    assert_eq!(rt; verdict(&text), Err(Fault::TooLong));
    assert_eq!(rt; verdict(&text[1..]), Err(Fault::Header(at(1, 1))));
}
