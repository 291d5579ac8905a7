// The text of a tree, with each node's own stamp as its number.
ghost use Rattle.std.specs.Prelude.{◌≡◌, ◌++◌, IsSome, [], IfOk, OnOk};
ghost use Rattle.gl_nodes.specs.Tree.{node_at};
ghost use Rattle.gl_print.specs.Lines.{lines, node_line};
ghost use Rattle.gl_print.specs.Walk.{indent};

use crate::lines::push_line;
use crate::walk::{start, step};
use gl_nodes::{NodeId, NodeTree};
use gl_value::Text;
use std::alloc::{AllocError, Global};

/// A line for each node of the tree in document order, with two blanks for each depth. The number of a node is its
/// stamp.
pub fn print_own(alloc: Global, tree: &NodeTree) -> Result<Text, AllocError>
    ensures text { IfOk result (λ t. t ≡ lines (node_at tree.now) (λ i. i.1) [] tree.now.forest) }
{
    let mut out = Text::new(alloc);
    let mut walk = start(alloc, tree);
    while let Some(stop) = step(tree, &mut walk)? {
        print_one(&mut out, tree, stop)?;
    }
    Ok(out)
}

// The line of a node.
fn print_one(out: &mut Text, tree: &NodeTree, stop: (usize, NodeId)) -> Result<(), AllocError>
    requires { IsSome (node_at tree.now stop.1) }
    ensures { OnOk result (out.new ≡ out.old ++ node_line (indent stop.0) stop.1.1 (node_at tree.now stop.1)) }
{
    push_line(out, stop.0, tree.stamp(stop.1), tree.get(stop.1))
}
