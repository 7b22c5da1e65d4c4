//! Books that may cache files and pages, and what a desk over them asks of the cache.
#![tactic(auto)]

mod caching;
mod desk;

pub use caching::{CachesAnswers, PageKey};
pub use desk::{cache_body, cache_page, cache_size, cached_body, cached_page};
