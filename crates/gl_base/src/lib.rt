//! Words and laws that every crate above uses: texts as characters, lists of names, answers that may
//! fail, reading a list step by step, and what a sink of bytes took. It holds definitions and laws alone.
#![tactic(auto)]
