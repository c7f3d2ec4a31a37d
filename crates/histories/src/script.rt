// Runs a script, record by record.
use crate::lines::Line;
use crate::memory::Memory;
use crate::records::{ROWS_ROOM, Record};
use reading::read_full;
use std::io;
use std::io::Read;

// A proved loop has to end, and nothing says that a script does: of a longer one the rest is unread.
const MOST_RECORDS: u64 = 1000000;

// Why a script can't be read on: it is of another form, or the reader fails.
#[derive(Debug, Drop)]
enum Fault {
    Broken,
    Io(io::Error),
}

impl From<io::Error> for Fault {
    fn from(e: io::Error) -> Fault {
        Fault::Io(e)
    }
}

// The next record, with its rows, and 0 in the places past them; or none where the script ends.
fn next_record<R: Read>(
    script: &mut R,
    rows: &mut [u8; ROWS_ROOM],
) -> Result<Option<Record>, Fault> {
    let mut start = [0u8; 96];
    match read_full(script, &mut start)? {
        0 => return Ok(None),
        96 => {}
        _ => return Err(Fault::Broken),
    }
    let r = Record::begun_by(&start).ok_or(Fault::Broken)?;
    let size = r.size();
    if read_full(script, &mut rows[..size])? < size {
        return Err(Fault::Broken);
    }
    Ok(Some(r))
}

// The line of the next record, or none where the script ends.
fn next_line<R: Read>(script: &mut R, memory: &mut Memory) -> Result<Option<Line>, Fault> {
    let mut rows = [0u8; ROWS_ROOM];
    let Some(r) = next_record(script, &mut rows)? else {
        return Ok(None);
    };
    let answer = memory.answer(r, &rows);
    Ok(Some(Line {
        answer,
        digest: memory.digest(),
    }))
}

// Runs the script that a reader gives, on memory that is first all 0. Where a record can't be read, `broken`
// stands for it, and the script ends.
pub fn run<R: Read>(rt: &impl Print, script: &mut R) -> io::Result<()> {
    let mut memory = Memory::new();
    for _ in 0..MOST_RECORDS {
        match next_line(script, &mut memory) {
            Ok(Some(line)) => println!(rt; "{line}")?,
            Ok(None) => return Ok(()),
            Err(Fault::Broken) => return println!(rt; "broken"),
            Err(Fault::Io(e)) => return Err(e),
        }
    }
    Ok(())
}
