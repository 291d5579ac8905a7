// The updating program: what was rendered, nested as it was rendered.
ghost use Rattle.std.specs.Prelude.{◌≡◌, [], Option, ◌∷◌, Some, None, map, position};
ghost use Rattle.gl_machine.specs.Code as c;
ghost use Rattle.gl_machine.specs.Sight.{sight};
ghost use Rattle.gl_base.specs.Names.{named};
ghost use Rattle.gl_vm.specs.View.{stamps, name_stamps};
ghost use Rattle.gl_code.specs.View.{refs_made, seen_owner};
ghost use Rattle.gl_code.specs.CodeView.{seen_code, seen_codes, seen_choice, seen_spot, stamp_of, component_seen, seen_attr_spot, seen_mod_spot, seen_listing, seen_item_spot, seen_item_code, all_items};
ghost use Rattle.gl_plain.specs.Ids.{block_id};

use crate::kept::position;
use crate::sight::{Owner, Sight};
use gl_arena::{BlockId, ModId};
use gl_nodes::NodeId;
use gl_refs::{Ids, RefId};
use gl_scope::Args;
use gl_value::{SharedText, Text, Texts, Value};
use std::alloc::Global;
use std::rc::Rc;

impl Codes {
    /// Nothing was rendered. It takes no memory.
    pub fn none(alloc: Global) -> Codes
        ensures { (n : _) → seen_codes n result ≡ c.no_codes }
    {
        Codes {
            list: Vec::new(alloc),
        }
    }
}

impl Code {
    /// A yielded block.
    pub fn yielded(name: Text, made: Ids, params: Ids, body: Codes) -> Code
        ensures { (n : _) → seen_code n result ≡ c.yield_code name (refs_made made) (stamps params) (seen_codes n body) }
    {
        Code::Yield {
            name,
            made,
            params,
            body,
        }
    }
}

impl Code {
    /// An `if` or `unless`.
    pub fn branch(
        choice: Choice,
        spot: Spot,
        main: bool,
        comment: Option<NodeId>,
        body: Codes,
    ) -> Code
        ensures { (n : _) → seen_code n result ≡ c.branch_code (seen_choice n choice) (seen_spot spot) main (stamp_of comment) (seen_codes n body) }
    {
        Code::Branch {
            choice,
            spot,
            main,
            comment,
            body,
        }
    }
}

/// A position, with the references that were made for it.
#[derive(Drop)]
pub struct Spot {
    pub id: RefId,
    pub made: Ids,
}

/// An attribute that takes a live value.
#[derive(Drop)]
pub struct AttrSpot {
    pub name: Text,
    pub spot: Spot,
}

/// A modifier, with how many of its arguments are positional, and the names of the others.
#[derive(Drop)]
pub struct ModSpot {
    pub id: ModId,
    pub positional: usize,
    pub names: Texts,
    pub spot: Spot,
}

/// An item of an `each`: its key with its occurrence, the references of its value and its index, and those of its
/// parameters.
#[derive(Drop)]
pub struct ItemSpot {
    pub key: Value,
    pub occurrence: u64,
    pub value: RefId,
    pub index: RefId,
    pub params: Ids,
}

/// The two bodies of an `if` or `unless`, by the addresses of their first words, and what is seen there.
#[derive(Drop)]
pub struct Choice {
    pub unless: bool,
    pub first: u32,
    pub second: u32,
    pub sight: Rc<Sight>,
}

/// The bodies of an `each`, by the addresses of their first words, its key, the operands of its Item, and what is seen
/// there.
#[derive(Drop)]
pub struct Listing {
    pub key: SharedText,
    pub value: u32,
    pub index: u32,
    pub body: u32,
    pub other: u32,
    pub sight: Rc<Sight>,
}

/// What was rendered of a statement.
#[cycle(code)]
#[derive(Drop)]
pub enum Code {
    /// A text or a comment of the template.
    Still {
        node: NodeId,
    },
    /// A text mustache.
    Put {
        node: NodeId,
        spot: Spot,
    },
    Element {
        node: NodeId,
        made: Ids,
        attrs: Vec<AttrSpot>,
        mods: Vec<ModSpot>,
        body: Codes,
    },
    /// An `if` or `unless`, with whether its main body is shown, and the comment where that has no node.
    Branch {
        choice: Choice,
        spot: Spot,
        main: bool,
        comment: Option<NodeId>,
        body: Codes,
    },
    /// An `each` with items.
    Listed {
        listing: Listing,
        spot: Spot,
        items: Vec<ItemCode>,
    },
    /// An `each` without.
    Unlisted {
        listing: Listing,
        spot: Spot,
        comment: Option<NodeId>,
        body: Codes,
    },
    Let {
        made: Ids,
        params: Ids,
        body: Codes,
    },
    /// A component: the instance, what was passed to it, and the references that were made for its arguments and parts.
    Component {
        owner: Rc<Owner>,
        block: BlockId,
        made: Ids,
        args: Rc<Args>,
        body: Codes,
    },
    /// The root.
    Root {
        owner: Rc<Owner>,
        body: Codes,
    },
    Yield {
        name: Text,
        made: Ids,
        params: Ids,
        body: Codes,
    },
}

/// An item that was rendered, with the comment where it has no node.
#[cycle(code)]
#[derive(Drop)]
pub struct ItemCode {
    pub spot: ItemSpot,
    pub comment: Option<NodeId>,
    pub body: Codes,
}

/// What was rendered of a body.
#[cycle(code)]
#[derive(Drop)]
pub struct Codes {
    pub list: Vec<Code>,
}

impl Code {
    /// A text or a comment of the template.
    pub fn still(node: NodeId) -> Code
        ensures { (n : _) → seen_code n result ≡ c.still_code node.1 }
    {
        Code::Still { node }
    }

    /// A text mustache.
    pub fn put(node: NodeId, spot: Spot) -> Code
        ensures { (n : _) → seen_code n result ≡ c.put_code node.1 (seen_spot spot) }
    {
        Code::Put { node, spot }
    }
}

impl Code {
    /// A component, with what was made for its arguments and parts.
    pub fn component(
        owner: Rc<Owner>,
        block: BlockId,
        made: Ids,
        args: Rc<Args>,
        body: Codes,
    ) -> Code
        ensures { (n : _) → seen_code n result ≡ component_seen (seen_owner n owner.value) (block_id block.1 ∷ refs_made made) (refs_made owner.value.cells) (name_stamps args.value) (Some block.1) (seen_codes n body) }
    {
        Code::Component {
            owner,
            block,
            made,
            args,
            body,
        }
    }
}

impl Code {
    /// An element.
    pub fn element(
        node: NodeId,
        made: Ids,
        attrs: Vec<AttrSpot>,
        mods: Vec<ModSpot>,
        body: Codes,
    ) -> Code
        ensures { (n : _) → seen_code n result ≡ c.element_code node.1 (refs_made made) (map seen_attr_spot attrs.items) (map seen_mod_spot mods.items) (seen_codes n body) }
    {
        Code::Element {
            node,
            made,
            attrs,
            mods,
            body,
        }
    }
}

impl ItemCode {
    /// An item that was rendered.
    pub fn rendered(spot: ItemSpot, comment: Option<NodeId>, body: Codes) -> ItemCode
        ensures { (n : _) → seen_item_code n result ≡ (seen_item_spot spot, (stamp_of comment, seen_codes n body)) }
    {
        ItemCode {
            spot,
            comment,
            body,
        }
    }
}

impl Code {
    /// A `let`.
    pub fn named(made: Ids, params: Ids, body: Codes) -> Code
        ensures { (n : _) → seen_code n result ≡ c.let_code (refs_made made) (stamps params) (seen_codes n body) }
    {
        Code::Let { made, params, body }
    }
}

impl Code {
    /// An `each` with items.
    pub fn listed(listing: Listing, spot: Spot, items: Vec<ItemCode>) -> Code
        ensures { (n : _) → seen_code n result ≡ c.listed_code (seen_listing n listing) (seen_spot spot) (all_items (map (seen_item_code n) items.items)) }
    {
        Code::Listed {
            listing,
            spot,
            items,
        }
    }

    /// An `each` without items.
    pub fn unlisted(listing: Listing, spot: Spot, comment: Option<NodeId>, body: Codes) -> Code
        ensures { (n : _) → seen_code n result ≡ c.unlisted_code (seen_listing n listing) (seen_spot spot) (stamp_of comment) (seen_codes n body) }
    {
        Code::Unlisted {
            listing,
            spot,
            comment,
            body,
        }
    }
}

impl Code {
    /// The root.
    pub fn root(owner: Rc<Owner>, body: Codes) -> Code
        ensures { (n : _) → seen_code n result ≡ component_seen (seen_owner n owner.value) [] (refs_made owner.value.cells) [] None (seen_codes n body) }
    {
        Code::Root { owner, body }
    }
}
