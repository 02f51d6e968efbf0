//! The service on one thread: a step is asked for, and the event that comes of it is made.
#![tactic(auto)]

mod coming;
mod copying;
mod due;
mod laws;
mod service;
mod step;
#[cfg(test)]
mod tests;

pub use laws::the_event_of_a_step_has_its_shape;
pub use service::Core;
pub use step::{CoreFault, Step};
