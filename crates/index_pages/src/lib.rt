//! The pages that pip reads, in HTML and JSON, and the choice between them.
#![tactic(auto)]

mod end;
mod html;
mod item;
mod json_parts;
pub mod laws;
mod page;
mod pieces;
mod project;
mod root;
mod served;
mod tally;
mod text;
mod whole;

pub use end::PageEnd;
pub use page::Page;
pub use pieces::Pieces;
pub use project::ProjectPage;
pub use root::RootPage;
pub use served::Served;
pub use text::PageText;
pub use whole::{project_page, root_page};
