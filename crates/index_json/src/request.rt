//! The rows of requests: which JSON object is which request.
mod cases;
mod files;
mod names;
mod owners;
mod users;

pub use users::request_named;
