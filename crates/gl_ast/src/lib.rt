//! The tree of a template, and its tokens.
#![tactic(auto)]

mod args;
mod body;
mod edge;
mod expr;
mod exprs;
mod mode;
mod pairs;
mod part;
mod parts;
mod slice;
mod slots;
mod stmt;
mod template;
mod tight;
mod token;

pub use edge::Edge;
pub use expr::{Expr, Exprs, Lit, NamedExpr, Names, Pairs, Str};
pub use mode::{Around, Mode, Quote};
pub use part::{Args, Argument, AttrValue, Part, Parts};
pub use slice::Slice;
pub use stmt::{Block, Body, EachHead, Slot, Slots, Stmt};
pub use template::Template;
pub use tight::push_tight;
pub use token::{Token, TokenKind, Tokens};
