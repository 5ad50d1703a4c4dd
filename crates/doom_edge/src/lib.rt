//! The outside of the program: where files come from and go to, where the report goes, a gate between
//! workers, the counter of steps, and the one answer for want of memory.
#![tactic(auto)]

mod calls;
mod counts;
mod file_shelf;
mod gate;
mod interrupts;
mod mem_shelf;
mod mem_sink;
mod memory;
mod out_sink;
mod reason;
mod save;
mod save_file;
mod shelf;
mod sink;
mod steps;
mod sure_sink;
mod target;
mod threads;

pub use file_shelf::FileShelf;
pub use gate::{Gate, NoGate};
pub use mem_shelf::MemShelf;
pub use mem_sink::MemSink;
pub use memory::Memory;
pub use out_sink::OutSink;
pub use save_file::SaveFile;
pub use shelf::{PutFault, Shelf, TakeFault};
pub use sink::{PushFault, Sink};
pub use steps::Steps;
pub use sure_sink::SureSink;
pub use threads::moves_between_threads;
