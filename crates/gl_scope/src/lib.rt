//! What an expression of a template sees: `this`, the arguments, the parameters of the blocks round it, the blocks that
//! were passed and the parts that the invocation wrote; and the blocks themselves, by id.
#![tactic(auto)]

mod args;
mod locals;
mod passed;
mod scope;
mod stack;

pub use args::Args;
pub use locals::Locals;
pub use passed::Passed;
pub use scope::{Block, Scope};
pub use stack::BlockStack;
