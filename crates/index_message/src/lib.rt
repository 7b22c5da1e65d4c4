//! One message of HTTP/1.1 from any source: its head, its route, its framing and its body.
#![tactic(auto)]

mod fault;
mod head;
pub mod laws;
mod message;
mod resource;

pub use fault::{Allowed, MessageFault};
pub use head::ReadEnd;
pub use message::{HttpRequest, Message, read_message};
pub use resource::{Method, Resource, Site};
