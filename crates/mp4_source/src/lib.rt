//! Where the bytes of an MP4 file are read from: memory, or a file of any size through a window of fixed size. And
//! where they are written to: memory, or a file of any size through a buffer of fixed size.
#![tactic(auto)]

mod block;
mod counting_sink;
mod error;
mod file_error;
mod seek_sink;
mod seek_source;
mod sink;
mod sink_error;
mod slice;
mod source;
mod source_cursor;
mod vec_sink;
mod window;

pub use counting_sink::CountingSink;
pub use error::SourceError;
pub use file_error::FileError;
pub use seek_sink::{SeekSink, WAITING_SIZE};
pub use seek_source::SeekSource;
pub use sink::{ByteSink, check_room};
pub use sink_error::SinkError;
pub use source::{ByteSource, read_into};
pub use source_cursor::SourceCursor;
pub use window::{BLOCK_SIZE, Window};
