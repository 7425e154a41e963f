// What the runner of files decides beside the machine and the inspector.
#![tactic(auto)]

mod commands;
mod names;
mod numbers;
mod places;
mod results;

pub use commands::{Command, CommandError, command_of};
pub use names::name_of;
pub use numbers::{NumberError, number_of};
pub use places::{CodePlace, RecordKind, kind_at, place_of};
pub use results::{Status, communicated, status_of};
