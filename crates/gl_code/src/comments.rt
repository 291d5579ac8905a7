// The comment of a branch or an item in which no node was rendered.
ghost use Rattle.std.specs.Prelude.{◌≡◌, IfOk};
ghost use Rattle.gl_plain.specs.Live.{has_node, have_node};
ghost use Rattle.gl_machine.specs.Code.{live_of, lives_of};
ghost use Rattle.gl_vm.specs.View.{Calm, state_of, Agrees};
ghost use Rattle.gl_vm.specs.Steps.{Rooted};
ghost use Rattle.gl_code.specs.CodeView.{seen_code, seen_codes};
ghost use Rattle.gl_code.specs.Comments.{Commented};

use crate::code::{Code, Codes};
use gl_nodes::NodeId;
use gl_vm::Vm;
use std::alloc::AllocError;

impl Code {
    /// Whether a node stands in it.
    #[cycle(nodes)]
    pub fn has_node(&self) -> bool
        ensures { (n : _) → result ≡ has_node (live_of (seen_code n self.now)) }
    {
        match self {
            Code::Let { body, .. } => body.has_node(),
            Code::Component { body, .. } => body.has_node(),
            Code::Root { body, .. } => body.has_node(),
            Code::Yield { body, .. } => body.has_node(),
            _ => true,
        }
    }
}

impl Codes {
    /// Whether a node stands in it.
    #[cycle(nodes)]
    pub fn has_node(&self) -> bool
        ensures { (n : _) → result ≡ have_node (lives_of (seen_codes n self.now)) }
    {
        for code in self.list.as_slice() {
            if code.has_node() {
                return true;
            }
        }
        false
    }
}

/// Makes the empty comment of a branch or an item, where what was rendered in it has no node.
pub fn comment_for(vm: &mut Vm, codes: &Codes) -> Result<Option<NodeId>, AllocError>
    ensures step { IfOk result (λ k. (n : _) (touched : _) → Agrees touched vm.old → Commented n (seen_codes n codes.now, state_of n vm.old touched) vm.new k) }
    ensures calm { Calm vm.old → Calm vm.new }
    ensures roots { IfOk result (λ k. Rooted vm.old.tree vm.new.tree) }
{
    if codes.has_node() {
        return Ok(None);
    }
    let node = vm.comment("")?;
    Ok(Some(node))
}
