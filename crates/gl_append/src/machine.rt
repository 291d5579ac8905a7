// The registers of the machine.

use gl_arena::BlockId;
use gl_code::{
    AttrSpot, Choice, Code, Entry, ItemCode, ItemSpot, Listing, Owner, Sight, Slot, Spot,
};
use gl_meaning::Path;
use gl_nodes::NodeId;
use gl_parts::Waiting;
use gl_refs::{Ids, RefId};
use gl_scope::Args;
use gl_value::Text;
use std::alloc::Global;
use std::rc::Rc;

// A reference on the stack, with the name that follows it.
#[derive(Drop)]
pub(crate) struct Pushed {
    pub name: Option<Text>,
    pub id: RefId,
}

// Where the machine is in a body: its path, the number of the next statement, and what was rendered of it.
#[derive(Drop)]
pub(crate) struct Here {
    pub path: Path,
    pub index: u64,
    pub codes: Vec<Code>,
}

// Where to go on afterwards.
#[derive(Drop)]
pub(crate) struct Back {
    pub getter: Option<u32>,
    pub pc: u32,
    pub sight: Sight,
    pub pending: Ids,
}

// An `each` with items: the address of its Item, the items that are left, the next one last, and those that are done.
#[derive(Drop)]
pub(crate) struct Iteration {
    pub listing: Listing,
    pub spot: Spot,
    pub start: u32,
    pub left: Vec<Entry>,
    pub done: Vec<ItemCode>,
}

// What was begun.
#[derive(Drop)]
pub(crate) enum Kind {
    Element {
        node: NodeId,
        made: Ids,
        attrs: Vec<AttrSpot>,
        parts: Vec<Waiting>,
    },
    Branch {
        choice: Choice,
        spot: Spot,
        main: bool,
    },
    Let {
        sight: Sight,
        pending: Ids,
        made: Ids,
    },
    Item {
        iteration: Iteration,
        item: ItemSpot,
    },
    Other {
        listing: Listing,
        spot: Spot,
    },
    Component {
        back: Back,
        owner: Rc<Owner>,
        block: BlockId,
        made: Ids,
        args: Rc<Args>,
    },
    Block {
        back: Back,
        name: Text,
        made: Ids,
        locals: usize,
    },
}

// What stands above the frames, since the body stays the present one in it: words elsewhere that are run for the
// present place, a getter's or those of the parts for which `...attributes` stands, or an `each` between its items.
#[derive(Drop)]
pub(crate) enum Call {
    Getter(Back),
    Parts(Back),
    Each(Iteration),
}

// A body that was begun.
#[derive(Drop)]
pub(crate) struct Frame {
    pub here: Here,
    pub kind: Kind,
}

// A tag that is not whole yet.
#[derive(Drop)]
pub(crate) struct Making {
    pub tag: Text,
    pub class: u16,
    pub args: Args,
    pub parts: Vec<Waiting>,
    pub start: u32,
    pub slots: Vec<Slot>,
}

// The registers of the machine.
#[derive(Drop)]
pub(crate) struct Machine {
    pub alloc: Global,
    pub stack: Vec<Pushed>,
    pub made: Ids,
    pub pc: u32,
    pub getter: Option<u32>,
    pub sight: Sight,
    pub pending: Ids,
    pub here: Here,
    pub making: Making,
    pub left: u32,
    pub frames: Vec<Frame>,
    pub calls: Vec<Call>,
}
