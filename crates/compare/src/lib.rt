// The first machine's state, calls and answers as plain numbers, and one call on any state by both machines.
#![tactic(auto)]

mod both;
mod five;
mod numbers;
mod work;

pub use both::{Both, called};
pub use five::Five;
pub use numbers::{call, raw, refused, said, start};
pub use work::fits;
