//! Commands over objects in memory.
use arimaa_cli::run;
use arimaa_outside::{CommandWords, MemClock, MemSink, MemSource, MemSpawner, Status};
use std::alloc::{AllocError, Global};
use std::thread::Threads;

// How a command ended, and what it wrote.
#[derive(Drop)]
pub struct Done {
    pub status: Status,
    pub output: Vec<u8>,
}

impl Done {
    // Whether it ended so, and wrote this.
    pub fn is(&self, status: Status, output: &[u8]) -> bool {
        self.status == status && self.output.as_slice() == output
    }
}

// The words of a command line.
pub fn words_of(alloc: Global, list: &[&str]) -> Result<CommandWords, AllocError> {
    let mut words = CommandWords::new(alloc);
    for word in list {
        words.push(word)?;
    }
    Ok(words)
}

// What a command without engines comes to over a source and a sink.
pub fn answer<R: Threads + Sync + AllocGlobal>(
    rt: &R,
    list: &[&str],
    source: MemSource,
    sink: MemSink,
) -> Result<Done, AllocError> {
    let alloc = rt.alloc();
    let words = words_of(alloc, list)?;
    let mut source = source;
    let mut sink = sink;
    let mut spawner = MemSpawner::new(alloc, Vec::new(alloc), Vec::new(alloc))?;
    let mut clock = MemClock::new(Vec::new(alloc));
    let status = run(
        rt,
        alloc,
        &words,
        &mut source,
        &mut sink,
        &mut spawner,
        &mut clock,
    );
    let output = Vec::from_slice(alloc, sink.written())?;
    Ok(Done { status, output })
}

// What a command comes to that reads this input.
pub fn answer_to<R: Threads + Sync + AllocGlobal>(
    rt: &R,
    list: &[&str],
    input: &[u8],
) -> Result<Done, AllocError> {
    let alloc = rt.alloc();
    let source = MemSource::new(Vec::from_slice(alloc, input)?, 4_096, Vec::new(alloc));
    let sink = MemSink::new(alloc, 4_096, Vec::new(alloc));
    answer(rt, list, source, sink)
}
