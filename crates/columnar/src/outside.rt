//! What a file is read from and written to: the traits of the outside, bytes in memory that never
//! fail (`Buffer`, `SourceInMemory`, `FileInMemory`), bytes in memory that fail at the calls of a
//! list, and adapters over real files and streams. `Bytes` is the buffer that a file is made of.

pub use bytes::Bytes;
pub use col_common::{
    Buffer, FileHandle, FileInMemory, FileOnDisk, FileSink, HandleError, MemHandle, MemSource,
    Sink, Source, SourceInMemory, StdSink, StdSource, VecSink,
};
