//! Posted words: the vectors that lines raise without the lock. They are bits in shared words,
//! which lines set and sweepers take by single atomic steps. Contracts record the steps of each
//! token.
#![tactic(auto)]

mod line;
mod rule;
mod standing;
mod words;

pub use line::{Line, Raised, Sweeper};
pub use rule::Action;
pub use standing::Standing;
pub use words::{GatherFault, PostedFault, PostedWords};
