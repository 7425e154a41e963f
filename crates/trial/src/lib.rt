// The paper's trial program `runone`: what it answers of its input, and the line that it writes.
#![tactic(auto)]

mod lines;
mod trials;

pub use lines::line;
pub use trials::{Sum, run_from_start, trial};
