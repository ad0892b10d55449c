//! Runs of commands over objects in memory.
use arimaa_outside::{CommandWords, MemClock, MemSink, MemSource, MemSpawner, Status};
use std::alloc::{AllocError, Global};
use std::process::Abort;
use std::test::Fail;
use std::thread::Threads;

// What the outside gives and takes in a run.
#[derive(Clone, Copy)]
pub struct Outside<'a> {
    // The bytes that the source gives.
    pub input: &'a [u8],
    // The most that one read gives, and the number of the read that fails, from 1; 0 for none.
    pub read_piece: usize,
    pub failing_read: u64,
    // The same of writes.
    pub write_piece: usize,
    pub failing_write: u64,
}

impl<'a> Outside<'a> {
    // Nothing fails.
    pub fn plain(input: &'a [u8]) -> Self {
        Outside {
            input,
            read_piece: 1 << 20,
            failing_read: 0,
            write_piece: 1 << 20,
            failing_write: 0,
        }
    }
}

// How a run ended, and what it wrote.
#[derive(Drop)]
pub struct Done {
    pub status: Status,
    pub output: Vec<u8>,
}

// One example: the words, the input, and the output and status that are wanted.
#[derive(Clone, Copy)]
pub struct Row<'a> {
    pub words: &'a str,
    pub input: &'a str,
    pub output: &'a str,
    pub status: Status,
}

// Runs each example.
pub fn check<R: Threads + Sync + AllocGlobal + Abort>(
    rt: &R,
    rows: &[Row<'_>],
) -> Result<(), Fail> {
    for row in rows {
        let done = run(rt, row.words, &Outside::plain(row.input.as_bytes()))?;
        assert_eq!(rt; done.status, row.status, "{}: {}", row.words, row.input);
        assert_eq!(rt;
            done.output.as_slice(),
            row.output.as_bytes(),
            "{}: {}",
            row.words,
            row.input
        );
    }
    Ok(())
}

// What is asked about some lines where another stands in the place of one, and what is answered.
#[derive(Clone, Copy)]
pub struct Change<'a> {
    pub words: &'a str,
    // The line's number, from 1; 0 for none.
    pub number: usize,
    pub line: &'a str,
    pub output: &'a str,
    pub status: Status,
}

// The lines with another in the place of one.
fn changed(alloc: Global, lines: &[&str], number: usize, line: &str) -> Result<String, AllocError> {
    let mut input = String::new(alloc);
    let replaced = number.checked_sub(1);
    for (place, same) in lines.iter().enumerate() {
        let text = if replaced == Some(place) { line } else { *same };
        input.push_str(text)?;
        input.push('\n')?;
    }
    Ok(input)
}

// Runs each example of changed lines.
pub fn check_changes<R: Threads + Sync + AllocGlobal + Abort>(
    rt: &R,
    lines: &[&str],
    changes: &[Change<'_>],
) -> Result<(), Fail> {
    for change in changes {
        let input = changed(rt.alloc(), lines, change.number, change.line)?;
        let row = Row {
            words: change.words,
            input: &input,
            output: change.output,
            status: change.status,
        };
        check(rt, &[row])?;
    }
    Ok(())
}

// Asks about the lines cut off at each place: only the last line feed may be left out.
pub fn check_cut_off<R: Threads + Sync + AllocGlobal + Abort>(
    rt: &R,
    words: &str,
    lines: &[&str],
) -> Result<(), Fail> {
    let whole = changed(rt.alloc(), lines, 0, "")?;
    let input = whole.as_bytes();
    for cut in 0..=input.len() {
        let done = run(rt, words, &Outside::plain(&input[..cut]))?;
        let is_whole = cut + 1 >= input.len();
        let wanted = if is_whole {
            Status::Done
        } else {
            Status::Answered
        };
        assert_eq!(rt; done.status, wanted, "{cut}");
    }
    Ok(())
}

// Runs each list of words, none of which is in the form of a command.
pub fn refuse_all<R: Threads + Sync + AllocGlobal + Abort>(
    rt: &R,
    lists: &[&str],
    input: &[u8],
) -> Result<(), Fail> {
    for words in lists {
        let done = run(rt, words, &Outside::plain(input))?;
        assert_eq!(rt; done.status, Status::Words, "{words}");
        assert_eq!(rt;
            done.output.as_slice(),
            b"bad words\n".as_slice(),
            "{words}"
        );
    }
    Ok(())
}

// The command that these words ask for, with one blank between each two.
pub fn run<R: Threads + Sync + AllocGlobal>(
    rt: &R,
    words: &str,
    run: &Outside<'_>,
) -> Result<Done, Fail> {
    let alloc = rt.alloc();
    let mut list = CommandWords::new(alloc);
    for word in words.split_whitespace() {
        list.push(word)?;
    }
    let bytes = Vec::from_slice(alloc, run.input)?;
    let failing_reads = vec![in alloc; run.failing_read]?;
    let failing_writes = vec![in alloc; run.failing_write]?;
    let mut source = MemSource::new(bytes, run.read_piece.max(1), failing_reads);
    let mut sink = MemSink::new(alloc, run.write_piece.max(1), failing_writes);
    let mut spawner = MemSpawner::new(alloc, Vec::new(alloc), Vec::new(alloc))?;
    let mut clock = MemClock::new(Vec::new(alloc));
    let status = arimaa_cli::run(
        rt,
        alloc,
        &list,
        &mut source,
        &mut sink,
        &mut spawner,
        &mut clock,
    );
    let output = Vec::from_slice(alloc, sink.written())?;
    Ok(Done { status, output })
}

// So many spaces.
pub fn spaces(alloc: Global, count: usize) -> Result<Vec<u8>, AllocError> {
    vec![in alloc; b' '; count]
}
