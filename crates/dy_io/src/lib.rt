//! The outside: files and sinks, in memory and of the host.
#![tactic(auto)]

mod calls;
mod fail;
mod file_table;
mod files;
mod host_files;
mod host_sink;
mod mem_files;
mod mem_sink;
mod sink;
mod transfer;

pub use fail::{ReadFail, WriteFail};
pub use files::{Files, Found};
pub use host_files::HostFiles;
pub use host_sink::HostSink;
pub use mem_files::MemFiles;
pub use mem_sink::MemSink;
pub use sink::Sink;
