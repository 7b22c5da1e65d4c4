//! Examples from standards and of real files, and what no clause says.
mod attempts;
mod digests;
mod file_names;
mod projects;
mod releases;
mod texts;
mod transfers;
