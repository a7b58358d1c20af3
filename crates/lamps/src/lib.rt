// What the lamps show, as text for a person at a bench: a line or a picture for each cycle, the walk, what came of a trap, and how it ended.
#![tactic(auto)]

mod columns;
mod endings;
mod lines;
mod pictures;
mod walks;

pub use endings::{ending, refused, trapped};
pub use lines::{header, line, start};
pub use pictures::{picture, start_picture};
pub use walks::walk;
