// The modifiers, and their calls.
ghost use Rattle.std.specs.Prelude.{◌≡◌, [], IfOk, OnOk, OnErr, IsSome, Some, is_some};
ghost use Rattle.std.specs.Str.{chars};
ghost use Rattle.gl_arena.specs.Arena.{named as named_in};
ghost use Rattle.gl_mods.specs.Mods as m;
ghost use Rattle.gl_mods.specs.Mods.{mods_on, ids_on, listeners, Installs, IsSame, Refreshes, Drops, IsSound};
ghost use Rattle.gl_mods.specs.View.{seen_installed};

use crate::listening::called_by;
use crate::lists::{Lists, list, take_all};
use crate::table::{Table, end_all, put, put_values, take_living};
use crate::{Acts, Installed, ModIds};
use gl_arena::{Arena, Id, ModId, NodeMark};
use gl_value::{List, NamedValues};
use std::alloc::{AllocError, Global};
use std::collections::BTreeMap;
use std::marker::Model;

/// The modifiers that are installed. Contracts see which one each id names, the ids of each node in the order of their
/// installs, and the lists of those that were installed and of those that were refreshed since the last commit.
#[derive(Drop)]
pub struct Mods {
    alloc: Global,
    table: Table,
    lists: Lists,
    // In these two lists ids may stand that live no more.
    installs: Vec<ModId>,
    updates: Vec<ModId>,
}

/// What has to be done at a commit: installs before updates.
#[derive(Drop)]
pub struct Commit {
    /// Those that were installed, in the order of the calls.
    pub installs: ModIds,
    /// Those that were refreshed, in the order of the calls.
    pub updates: ModIds,
}

impl Model for Mods {
    ghost use Rattle.gl_mods.specs.Mods.{Mods as Seen, mods_code};
    ghost use Rattle.gl_mods.specs.Kept.{seen, IsKept};
    ghost use Rattle.gl_mods.specs.View.{seen_table, lists_in};

    ghost Value = { Seen };

    ghost coded = { mods_code };

    ghost view = { λ s. seen (seen_table s.table) (lists_in s.lists) s.installs.items s.updates.items };

    ghost invariant = { λ s. IsKept (seen_table s.table) (lists_in s.lists) s.installs.items s.updates.items };
}

impl Mods {
    /// No modifiers.
    pub fn new(alloc: Global) -> Result<Mods, AllocError>
        ensures table { IfOk result (λ s. s.table.slots ≡ []) }
        ensures made { IfOk result (λ s. s.table.made ≡ 0) }
        ensures nodes { IfOk result (λ s. s.nodes ≡ []) }
        ensures installs { IfOk result (λ s. s.installs ≡ []) }
        ensures updates { IfOk result (λ s. s.updates ≡ []) }
    {
        Ok(Mods {
            alloc,
            table: Arena::new(alloc)?,
            lists: BTreeMap::new(alloc),
            installs: Vec::new(alloc),
            updates: Vec::new(alloc),
        })
    }

    /// Installs a modifier on a node, after those that the node has, under an id that was never given before. Where there
    /// is no memory all stays as it was, but that an id may have been given in vain.
    pub fn install(
        &mut self,
        node: Id<NodeMark>,
        place: u64,
        name: u32,
        args: List,
        named: NamedValues,
    ) -> Result<ModId, AllocError>
        ensures ok { IfOk result (λ id. Installs self.old self.new id (record { node = node; place = place; name = name; args = args; named = named })) }
        ensures err { OnErr result (IsSame self.old self.new) }
    {
        let id = put(
            &mut self.table,
            Installed {
                node,
                place,
                name,
                args,
                named,
            },
        )?;
        match list(&mut self.installs, &mut self.lists, self.alloc, node, id) {
            Ok(()) => Ok(id),
            Err(error) => {
                drop(self.table.remove(id));
                Err(error)
            }
        }
    }

    /// Whether the id names a modifier.
    pub fn live(&self, id: ModId) -> bool
        ensures { result ≡ is_some (named_in self.now.table id) }
    {
        self.table.live(id)
    }

    /// The modifier of an id.
    pub fn get(&self, id: ModId) -> &Installed
        requires { IsSome (named_in self.now.table id) }
        ensures { named_in self.now.table id ≡ Some (seen_installed result.now) }
    {
        self.table.get(id)
    }

    /// How many ids were given before that of a modifier.
    pub fn stamp(&self, id: ModId) -> u128
        requires { IsSome (named_in self.now.table id) }
        ensures { result ≡ id.1 }
    {
        self.table.stamp(id)
    }

    /// Gives a modifier new values of its arguments. Where there is no memory all stays as it was.
    pub fn refresh(&mut self, id: ModId, args: List, named: NamedValues) -> Result<(), AllocError>
        requires { IsSome (named_in self.old.table id) }
        ensures ok { OnOk result (Refreshes self.old self.new id args named) }
        ensures err { OnErr result (self.new ≡ self.old) }
    {
        self.updates.push(id)?;
        put_values(&mut self.table, id, args, named);
        Ok(())
    }

    /// What a node's modifiers `on` call at an event, in their order: the second argument of each one whose first
    /// argument's text is the event's name, undefined where it has no second argument.
    pub fn listeners(&self, node: Id<NodeMark>, event: &str) -> Result<Acts, AllocError>
        ensures { IfOk result (λ acts. acts ≡ listeners (chars event.now) (mods_on self.now node)) }
    {
        match self.lists.get(&node) {
            Some(ids) => called_by(&self.table, self.alloc, ids.as_slice(), event),
            None => Ok(Acts::new(self.alloc)),
        }
    }

    /// The ids of a node's modifiers, in the order of their installs.
    pub fn on_node(&self, node: Id<NodeMark>) -> &[ModId]
        ensures { result.now ≡ ids_on self.now node }
    {
        match self.lists.get(&node) {
            Some(ids) => ids.as_slice(),
            None => &[],
        }
    }

    /// Takes the modifiers of a node away, also from what is left to commit. It takes no memory.
    pub fn drop_node(&mut self, node: Id<NodeMark>)
        ensures { Drops self.old self.new node }
    {
        let ids = take_all(&mut self.lists, self.alloc, node);
        end_all(&mut self.table, ids.as_slice());
    }

    /// Hands out those that were installed and those that were refreshed since the last commit, each in the order of the
    /// calls, and leaves none. It takes no memory.
    pub fn commit(&mut self) -> Commit
        ensures installs { result.installs ≡ self.old.installs }
        ensures updates { result.updates ≡ self.old.updates }
        ensures left { self.new ≡ record self.old { installs = []; updates = [] } }
    {
        let installs = take_living(&self.table, self.alloc, &mut self.installs);
        let updates = take_living(&self.table, self.alloc, &mut self.updates);
        Commit {
            installs: ModIds::from_vec(installs),
            updates: ModIds::from_vec(updates),
        }
    }

    /// The law that a node's ids are those of its modifiers, each once, that the ids of the two lists live, and that each
    /// of these ids was given by this object.
    pub fn sound(&self)
        ensures { IsSound self.now }
    {
        self.table.stamps();
    }
}
