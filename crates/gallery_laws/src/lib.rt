//! That the bytes of a gallery are read without a fault, for every number: each law is a function whose clause is the
//! law.
//!
//! `gallery_gen` defines the three files of a gallery byte by byte, and the readers' crates say what has to hold of
//! bytes that they read. So what plays a gallery is never refused for what the gallery's files hold; and the command
//! `gen`, which also carries a script out, is never refused at all.
//!
//! When the gallery changes: in proofs/, `Galleries` has a lemma for each number of rooms, which computes the test of
//! `Tests` on the whole WAD, and the level's start. A change of the WAD asks for nothing more as long as these come out
//! right whatever is drawn, and else for another test, with what it tells in `Tested` and `Read`. `Filed` has the
//! tables' lengths and their one kind, that of all things but the player; `Spelt` and specs/Played.antt what a tic may
//! hold; `Scripted` the numbers of tics and the script's commands.
#![tactic(auto)]

mod demo;
mod level;
mod session;
mod tables;
mod wad;

pub use demo::demo_is_read;
pub use level::{level_is_sound, level_starts};
pub use session::gen_is_never_refused;
pub use tables::tables_are_read;
pub use wad::{map_is_found, wad_is_read};
