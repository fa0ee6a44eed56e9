//! Sources of bytes and sinks for bytes, and how all is read or written through them.
//!
//! A port may tell its bytes, so that a contract can say what was read and what was written. It
//! counts its faults, so that a contract can say that a fault has a cause: the count rose in the
//! call that answered it, or stands at the type's last value. The count never falls.
#![tactic(auto)]

mod copying;
mod fault;
mod memory_sink;
mod memory_source;
mod reader_source;
mod reading;
mod sink;
mod source;
mod sure_sink;
mod sure_source;
mod writer_sink;
mod writing;

pub use fault::Failed;
pub use memory_sink::MemorySink;
pub use memory_source::MemorySource;
pub use reader_source::ReaderSource;
pub use reading::{ReadStop, read_all};
pub use sink::Sink;
pub use source::Source;
/// Want of memory, where it is the only error.
pub use std::alloc::AllocError as Memory;
pub use sure_sink::SureSink;
pub use sure_source::SureSource;
pub use writer_sink::WriterSink;
pub use writing::write_all;
