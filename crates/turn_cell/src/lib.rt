//! A cell that holds a sequential object together with the history of all calls made on it.
#![tactic(auto)]

mod calls;
mod cell;
mod closing;
mod held;
mod object;
mod opening;
mod passes;
mod plays;
mod view;

pub use cell::{Cell, Held, HeldWith, Kept, Pass};
pub use closing::StillOut;
pub use object::Object;
pub use view::{Entry, Part, Slot, Store, Turn, View, ViewOf};
