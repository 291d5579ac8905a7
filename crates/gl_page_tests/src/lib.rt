//! Tests of the page that is appended: an application is loaded, its page appended, and its tree printed; and updates of one page, of
//! which the requests for memory are counted.
//!
//! They stand above the crates that they test, so that a check of them proves the tests alone.
#![tactic(auto)]

#[cfg(test)]
mod requests;
#[cfg(test)]
mod rows;
