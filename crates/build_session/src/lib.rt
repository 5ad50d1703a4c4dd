//! A session: a script's commands carried out on a tape in a game, with the worlds that it shows and the searches that
//! it goes on. It is generic over the game; workers on threads answer its searches, or hands
//! that take their turns under an order.
#![tactic(auto)]

mod fault;
mod searches;
mod session;
mod show;
mod texts;

pub use fault::SessionFault;
pub use searches::{Searched, Searcher};
pub use session::Session;
