//! A module for each subject, with its helpers.
mod args;
mod json;
mod messages;
mod pages;
mod values;
