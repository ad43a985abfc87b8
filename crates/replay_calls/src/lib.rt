// The lines of the replay's language made on the cache, and the answers (docs/REPLAY.md).
#![tactic(auto)]

pub mod answers;
pub mod calls;
pub mod dump;
pub mod graph;
pub mod load;
pub mod raw;
pub mod state;
