//! Tests of tokens, white space, trees and spellings of templates, as callers meet them.
//!
//! They stand above the crates that they test, so that a check of them proves the tests alone.
#![tactic(auto)]

#[cfg(test)]
mod ast;
#[cfg(test)]
mod blocks;
#[cfg(test)]
mod decode;
#[cfg(test)]
mod lex;
#[cfg(test)]
mod parse;
#[cfg(test)]
mod places;
#[cfg(test)]
mod show;
#[cfg(test)]
mod white_space;
