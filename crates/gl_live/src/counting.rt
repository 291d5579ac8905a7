// The walk over the updating program. Each call counts what stands in its part.
ghost use Rattle.std.specs.Prelude.{◌≡◌, ◌+◌, [], map, filter_map, length, min};
ghost use Rattle.gl_nodes.specs.Flat.{stamp_of};
ghost use Rattle.gl_turns.specs.Places.{node_in, instance_in, places};
ghost use Rattle.gl_machine.specs.Code.{live_of, lives_of, items_of};
ghost use Rattle.gl_code.specs.CodeView.{seen_code, seen_codes, seen_item_code, all_items};
ghost use Rattle.gl_live.specs.Counting.{weigh, weigh_in, weigh_items, weigh_comment, Counts};
ghost use Rattle.gl_live.specs.Most.{most};

use gl_code::{Code, Codes, ItemCode};
use gl_nodes::NodeId;

/// How many nodes and how many instances there are. Each is the last number of 64 bits where there are more.
#[derive(Clone, Copy, Debug, PartialEq, Eq)]
pub struct Live {
    pub nodes: u64,
    pub instances: u64,
}

impl Live {
    // Nothing.
    fn none() -> Live
        ensures { Counts result (λ a b. 0) }
    {
        Live {
            nodes: 0,
            instances: 0,
        }
    }

    // One node.
    #[tactic(auto, unfolding(crate::specs::Most::most))]
    fn node() -> Live
        ensures { Counts result (λ a b. a) }
    {
        Live {
            nodes: 1,
            instances: 0,
        }
    }

    // One instance.
    #[tactic(auto, unfolding(crate::specs::Most::most))]
    fn instance() -> Live
        ensures { Counts result (λ a b. b) }
    {
        Live {
            nodes: 0,
            instances: 1,
        }
    }

    // With what there is more.
    #[tactic(auto, unfolding(crate::specs::Most::most))]
    fn with(self, more: Live) -> Live
        ensures nodes { result.nodes ≡ min (self.nodes + more.nodes) most }
        ensures instances { result.instances ≡ min (self.instances + more.instances) most }
    {
        Live {
            nodes: self.nodes.saturating_add(more.nodes),
            instances: self.instances.saturating_add(more.instances),
        }
    }
}

/// How many nodes and instances stand in what was rendered. It takes no memory.
pub fn count(code: &Code) -> Live
    ensures nodes { (n : _) → result.nodes ≡ min (length (filter_map node_in (places [] (live_of (seen_code n code.now))))) most }
    ensures instances { (n : _) → result.instances ≡ min (length (filter_map instance_in (places [] (live_of (seen_code n code.now))))) most }
{
    in_code(code)
}

#[cycle(counting)]
fn in_codes(codes: &Codes) -> Live
    ensures { (n : _) → Counts result (λ a b. weigh_in a b (lives_of (seen_codes n codes.now))) }
{
    let mut sum = Live::none();
    for code in codes.list.as_slice() {
        sum = sum.with(in_code(code));
    }
    sum
}

#[cycle(counting)]
fn in_code(code: &Code) -> Live
    ensures { (n : _) → Counts result (λ a b. weigh a b (live_of (seen_code n code.now))) }
{
    match code {
        Code::Still { .. } => Live::node(),
        Code::Put { .. } => Live::node(),
        Code::Element { body, .. } => in_element(body),
        Code::Branch { comment, body, .. } => in_body(body, comment),
        Code::Listed { items, .. } => in_items(items),
        Code::Unlisted { comment, body, .. } => in_body(body, comment),
        Code::Let { body, .. } => in_codes(body),
        Code::Component { body, .. } => in_component(body),
        Code::Root { body, .. } => in_component(body),
        Code::Yield { body, .. } => in_codes(body),
    }
}

// A node, with what is in it.
#[cycle(counting)]
fn in_element(body: &Codes) -> Live
    ensures { (n : _) → Counts result (λ a b. a + weigh_in a b (lives_of (seen_codes n body.now))) }
{
    Live::node().with(in_codes(body))
}

// An instance, with what is in it.
#[cycle(counting)]
fn in_component(body: &Codes) -> Live
    ensures { (n : _) → Counts result (λ a b. b + weigh_in a b (lives_of (seen_codes n body.now))) }
{
    Live::instance().with(in_codes(body))
}

#[cycle(counting)]
fn in_items(items: &Vec<ItemCode>) -> Live
    ensures { (n : _) → Counts result (λ a b. weigh_items a b (items_of (all_items (map (seen_item_code n) items.now.items)))) }
{
    let mut sum = Live::none();
    for item in items.as_slice() {
        sum = sum.with(in_item(item));
    }
    sum
}

#[cycle(counting)]
fn in_item(item: &ItemCode) -> Live
    ensures { (n : _) → let x = seen_item_code n item.now in Counts result (λ a b. weigh_in a b (lives_of x.1.1) + weigh_comment a x.1.0) }
{
    in_body(&item.body, &item.comment)
}

// A body, and the comment where there is one.
#[cycle(counting)]
fn in_body(body: &Codes, comment: &Option<NodeId>) -> Live
    ensures { (n : _) → Counts result (λ a b. weigh_in a b (lives_of (seen_codes n body.now)) + weigh_comment a (stamp_of comment.now)) }
{
    in_codes(body).with(in_comment(comment))
}

fn in_comment(comment: &Option<NodeId>) -> Live
    ensures { Counts result (λ a b. weigh_comment a (stamp_of comment.now)) }
{
    match comment {
        Some(_) => Live::node(),
        None => Live::none(),
    }
}
