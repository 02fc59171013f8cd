//! The outside of the program, as a trait: files that are read and written by name, and a place to say things. Its contract
//! counts the faults and, for a desk that tells it, gives the content. And the desks: that of the machine, one that holds short
//! texts back over another, and three of memory. The program doesn't stand on those of memory; the library stands on the one
//! over files that are lent.
#![tactic(auto)]

mod act;
mod buffered_desk;
mod desk;
mod failing;
mod file_map;
mod given_words;
mod host_desk;
mod lent_desk;
mod lent_file;
mod mem_desk;
mod reading;
mod stop;
mod sure_desk;
mod writing;

pub use act::Act;
pub use buffered_desk::BufferedDesk;
pub use desk::Desk;
pub use given_words::words;
pub use host_desk::HostDesk;
pub use lent_desk::LentDesk;
pub use lent_file::LentFile;
pub use mem_desk::MemDesk;
pub use reading::{ReadEnd, read_all};
pub use stop::Stop;
pub use sure_desk::SureDesk;
pub use writing::{say_all, write_file};
