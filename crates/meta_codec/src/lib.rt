//! The bodies of changes: each change has one spelling.
#![tactic(auto)]

mod encoding;
mod fields;
mod laws;
mod lengths;
mod reading;
#[cfg(test)]
mod tests;
mod unread;

pub use encoding::encode;
pub use laws::one_spelling;
pub use lengths::body_length;
pub use reading::decode;
