//! Where the program meets the world: readers, writers, engines, the time, the words of a command
//! line and its status. The objects in memory tell what they hold and what they gave, so that what
//! is proved of a command over them speaks of bytes, lines and moments. Those over real ones tell
//! nothing and are trusted.
#![tactic(auto)]

mod bytes;
mod calls;
mod clock;
mod command_words;
mod failure;
mod lists;
mod mem_clock;
mod mem_port;
mod mem_sink;
mod mem_source;
mod mem_spawner;
mod open_answer;
mod port;
mod port_answer;
mod port_fault;
mod receipt;
mod sink;
mod source;
mod spawner;
mod speech;
mod status;
mod std_port;
mod std_sink;
mod std_source;
#[cfg(test)]
mod tests;

pub use bytes::Bytes;
pub use clock::Clock;
pub use command_words::CommandWords;
pub use failure::Failed;
pub use mem_clock::MemClock;
pub use mem_port::MemPort;
pub use mem_sink::MemSink;
pub use mem_source::MemSource;
pub use mem_spawner::MemSpawner;
pub use open_answer::OpenAnswer;
pub use port::{LINE_LIMIT, Port};
pub use port_answer::PortAnswer;
pub use port_fault::PortFault;
pub use receipt::Heard;
pub use sink::{Sink, write_all, write_answer};
pub use source::{INPUT_LIMIT, ReadAll, Source, read_all};
pub use spawner::Spawner;
pub use speech::Said;
pub use status::Status;
pub use std_port::StdPort;
pub use std_sink::StdSink;
pub use std_source::StdSource;
