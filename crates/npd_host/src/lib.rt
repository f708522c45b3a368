//! What npd reads from and writes to. The trait `Host` says what a call moves, what it leaves, and that it
//! fails only with a count that rose; the layers above are proved over it once, for every host.
#![tactic(auto)]

mod counts;
mod files;
mod host;
mod memory;
mod transfer;

pub use files::FileHost;
pub use host::{CallKind, Host, HostFail, InId, OutId};
pub use memory::MemHost;
pub use transfer::{fill, write_all};
