//! Where files are fetched and stored, and where text is put: the traits `Shelf` and `Sink`, each in
//! memory and over the system.
#![tactic(auto)]

mod beside;
mod buffer;
mod content;
mod dir_reader;
mod dir_shelf;
mod mem_shelf;
mod mem_sink;
mod pieces;
mod progress;
mod reader;
mod shelf;
mod sink;
mod std_sink;
mod whole;
mod window;

pub use dir_reader::DirReader;
pub use dir_shelf::DirShelf;
pub use mem_shelf::MemShelf;
pub use mem_sink::MemSink;
pub use pieces::{PIECE, Pieces};
pub use progress::Progress;
pub use reader::{HeldBytes, Reader};
pub use shelf::{FetchFault, Shelf, StoreFault};
pub use sink::{PutFault, Sink};
pub use std_sink::StdSink;
pub use window::{Window, close_window, open_window};
