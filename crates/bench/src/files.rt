//! Reading a table file of nearly 65,536 bytes, against a plain copy of the same bytes.
use crate::{timed, yes_or_no};
use std::io;

const HEADER: &[u8] = b"c1,c2,c3,c4,sure\r\n";

const ROW: &[u8] = b"4294967295,4294967295,\"4294967295\",4294967295,1000000000\r\n";

fn full_size(rt: &HostRuntime) -> io::Result<Vec<u8>> {
    let mut file = Vec::new(rt.alloc());
    file.extend_from_slice(HEADER)?;
    for _ in 0..1129 {
        file.extend_from_slice(ROW)?;
    }
    Ok(file)
}

// The number of rows, and their sureness summed, each row walked; none where the file is refused.
fn read(file: &[u8]) -> Option<(usize, u64)> {
    let table = table_files::read(file).ok()?;
    let mut sum = 0u64;
    for row in table.rows {
        sum = sum.wrapping_add(u64::from(row.sureness));
    }
    Some((table.count, sum))
}

// The shortest of 20 measures, in nanoseconds, of reading the file and of copying it; and what the copies hold, so that no copy is left out.
#[derive(Clone, Copy)]
struct Times {
    reading: u128,
    copying: u128,
    held: usize,
}

impl Times {
    fn measure(rt: &HostRuntime, file: &[u8]) -> io::Result<Times> {
        let mut times = Times {
            reading: u128::MAX,
            copying: u128::MAX,
            held: 0,
        };
        for _ in 0..20 {
            let (nanos, answer) = timed(rt, || read(file))?;
            times.reading = times.reading.min(nanos);
            let mut copy = Vec::with_capacity(rt.alloc(), file.len())?;
            let (nanos, copied) = timed(rt, || copy.extend_from_slice(file))?;
            copied?;
            times.copying = times.copying.min(nanos);
            let rows = answer.map_or(0, |(rows, _)| rows);
            times.held = times.held.wrapping_add(rows).wrapping_add(copy.len());
        }
        Ok(times)
    }
}

pub(crate) fn run(rt: &HostRuntime) -> io::Result<()> {
    let file = full_size(rt)?;
    let bytes = file.len();
    let Some((rows, sum)) = read(&file) else {
        return println!(rt; "file of {bytes} bytes: refused");
    };
    println!(rt; "file of {bytes} bytes: {rows} rows, sureness {sum} in all")?;
    let Times {
        reading,
        copying,
        held,
    } = Times::measure(rt, &file)?;
    let times = reading / copying.max(1);
    eprintln!(rt;
        "file of {bytes} bytes: read in {reading} ns, copied in {copying} ns, {times} times as long, {held} held"
    )?;
    println!(rt;
        "reading takes under 10000 times a copy: {}",
        yes_or_no(times < 10_000)
    )
}
