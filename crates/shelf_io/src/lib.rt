//! The outside of the program: named files on a shelf and a sink for bytes, in memory and real.
#![tactic(auto)]

mod bounded_bytes;
mod calls;
mod counts;
mod file_shelf;
pub mod laws;
mod memory_shelf;
mod memory_sink;
mod shelf;
mod shelf_memory;
mod sink;
mod slot;
mod slots;
mod steady_shelf;
mod steady_sink;
mod stream_sink;
mod write_record;

pub use file_shelf::FileShelf;
pub use memory_shelf::MemoryShelf;
pub use memory_sink::MemorySink;
pub use shelf::{LoadFault, Loaded, Shelf, WriteFault};
pub use shelf_memory::ShelfMemory;
pub use sink::{Sink, SinkFailed};
pub use steady_shelf::SteadyShelf;
pub use steady_sink::SteadySink;
pub use stream_sink::StreamSink;
