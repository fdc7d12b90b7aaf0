// The world outside of the leak checker: the files that it reads and the sink that it writes to.
// Each is a trait, whose contract says what a fault may do. The doubles in memory tell their bytes to contracts, and the
// host's files and standard output are the trusted edge, which tells nothing.
#![tactic(auto)]

mod files;
mod host_files;
mod host_sink;
mod memory_files;
mod memory_sink;
mod sink;

pub use files::{Files, MAX_FILE, ReadFail};
pub use host_files::HostFiles;
pub use host_sink::HostSink;
pub use memory_files::MemFiles;
pub use memory_sink::MemSink;
pub use sink::{Failed, Sink, send_all};
