// The word-mode machine of paper 01: registers, adjustments, addresses, calls, operators, step, run.
#![tactic(auto)]

mod arithmetic;
mod bits;
mod branches;
mod calls;
mod checks;
mod memory;
mod mks;
mod outcome;
mod pushes;
mod quick;
mod runs;
mod stack;
mod steps;
mod stores;
mod xit;

pub use branches::landing;
pub use outcome::{Answer, Cause, End, Ran, Refusal, Registers};
pub use runs::run;
pub use steps::step;
