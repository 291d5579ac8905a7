// The forest, and its calls.
ghost use Rattle.std.specs.Prelude.{◌≡◌, ◌<◌, ◌++◌, ◌↔◌, IsTrue, IfOk, OnOk, OnErr};
ghost use Rattle.gl_destroy.specs.Forest as f;
ghost use Rattle.gl_destroy.specs.Forest.{times, IsParent, Adds, IsSound, tree_at, without, destroy_lines};
ghost use Rattle.gl_destroy.specs.View.{seen_what};

use crate::entries::{Entries, hang, insert_entry};
use crate::siblings::{Siblings, thin_children, thin_trees};
use crate::walk::{end_all, parents_first};
use crate::{Log, What};
use gl_arena::{Arena, DestroyId};
use std::alloc::{AllocError, Global};
use std::marker::Model;

/// What an update can destroy. Contracts see a forest of ids, each with what it stands for, and how many ids were
/// given. Children stand in the order in which they were added.
#[derive(Drop)]
pub struct Destroyables {
    alloc: Global,
    entries: Entries,
    trees: Siblings,
}

impl Model for Destroyables {
    ghost use Rattle.gl_destroy.specs.Forest.{Destroyables as Seen, destroyables_code};
    ghost use Rattle.gl_destroy.specs.Links.{forest_in, IsWhole};
    ghost use Rattle.gl_destroy.specs.View.{look_in};

    ghost Value = { Seen };

    ghost coded = { destroyables_code };

    ghost view = { λ d. record { forest = forest_in (look_in d.entries) d.entries.made d.trees.list.items; made = d.entries.made } };

    ghost invariant = { λ d. IsWhole (look_in d.entries) d.entries.made d.trees.list.items (forest_in (look_in d.entries) d.entries.made d.trees.list.items) };
}

impl Destroyables {
    /// The empty forest.
    pub fn new(alloc: Global) -> Result<Destroyables, AllocError>
        ensures forest { IfOk result (λ d. d.forest ≡ f.end) }
        ensures made { IfOk result (λ d. d.made ≡ 0) }
    {
        Ok(Destroyables {
            alloc,
            entries: Arena::new(alloc)?,
            trees: Siblings::new(alloc),
        })
    }

    /// Adds one as the last child of a parent, or as the last tree, under an id that was never given before. Where there
    /// is no memory the forest stays as it was, and an id may have been given in vain.
    pub fn add(&mut self, parent: Option<DestroyId>, what: What) -> Result<DestroyId, AllocError>
        requires { IsParent self.old.forest parent }
        ensures ok { IfOk result (λ id. Adds self.old self.new parent id (seen_what what)) }
        ensures err { OnErr result (self.new.forest ≡ self.old.forest) }
    {
        self.thin(&parent)?;
        self.put_last(parent, what)
    }

    // Drops those from the list of a parent, or of the trees, that live no more, where it is time.
    fn thin(&mut self, parent: &Option<DestroyId>) -> Result<(), AllocError>
        requires { IsParent self.old.forest parent.now }
        ensures { self.new ≡ self.old }
    {
        match parent {
            None => thin_trees(&self.entries, self.alloc, &mut self.trees),
            Some(parent) => thin_children(&mut self.entries, self.alloc, *parent),
        }
    }

    // Puts one at the end of the children of a parent, or of the trees.
    fn put_last(&mut self, parent: Option<DestroyId>, what: What) -> Result<DestroyId, AllocError>
        requires { IsParent self.old.forest parent }
        ensures ok { IfOk result (λ id. Adds self.old self.new parent id (seen_what what)) }
        ensures err { OnErr result (self.new.forest ≡ self.old.forest) }
    {
        let id = insert_entry(&mut self.entries, self.alloc, what)?;
        match hang(&mut self.entries, &mut self.trees, parent, id) {
            Ok(()) => Ok(id),
            Err(error) => {
                drop(self.entries.remove(id));
                Err(error)
            }
        }
    }

    /// Whether an id stands in the forest.
    pub fn live(&self, id: DestroyId) -> bool
        ensures { IsTrue result ↔ (0 < times id self.now.forest) }
    {
        self.entries.live(id)
    }

    /// Takes the tree of an id away, and adds to a log what it tells of it, children first. Where there is no memory the
    /// forest and the log stay as they were.
    pub fn destroy(&mut self, id: DestroyId, log: &mut Log) -> Result<(), AllocError>
        requires { 0 < times id self.old.forest }
        ensures forest { OnOk result (self.new.forest ≡ without id self.old.forest) }
        ensures log { OnOk result (log.new ≡ log.old ++ destroy_lines (tree_at id self.old.forest)) }
        ensures made { self.new.made ≡ self.old.made }
        ensures err { OnErr result (self.new ≡ self.old) }
        ensures err_log { OnErr result (log.new ≡ log.old) }
    {
        let mut order = parents_first(&self.entries, self.alloc, id)?;
        order.reverse();
        log.tell(order.as_slice())?;
        end_all(&mut self.entries, order.as_slice());
        Ok(())
    }

    /// The law that each id stands once, that it was given before, and that no two ids have one stamp.
    pub fn stamps(&self)
        ensures { IsSound self.now }
    {
        self.entries.stamps();
    }
}
