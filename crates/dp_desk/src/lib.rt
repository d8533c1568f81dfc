// The outside of the program: two inputs and three outputs that are opened by name, read and written in pieces.
#![tactic(auto)]

mod desk;
mod honest_desk;
mod host_desk;
mod memory_desk;
mod sheet;
mod storage;
mod store;
mod write;

pub use desk::{Desk, Failed, In, Out};
pub use honest_desk::{HonestDesk, told_while_they_fit};
pub use host_desk::HostDesk;
pub use memory_desk::MemoryDesk;
pub use write::write_all;
