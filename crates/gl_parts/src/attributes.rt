// The attributes that an element gets from the parts of its tag.
ghost use Rattle.std.specs.Prelude.{◌≡◌, ◌++◌, ◌∷◌, [], not, filter, map, IfOk, OnOk};
ghost use Rattle.std.specs.List.{cons_option};
ghost use Rattle.std.specs.Str.{bytes_eq};
ghost use Rattle.gl_base.specs.Names.{has_text};
ghost use Rattle.gl_value.specs.Value.{attribute_text};
ghost use Rattle.gl_meaning.specs.Parts.{last_only, joined_texts, attribute_value};
ghost use Rattle.gl_plain.specs.State.{pair_of};
ghost use Rattle.gl_plain.specs.Binding.{place};
ghost use Rattle.gl_plain.specs.Tags as t;
ghost use Rattle.gl_vm.specs.View.{stamps, state_of, Calm};
ghost use Rattle.gl_code.specs.View.{refs_made};
ghost use Rattle.gl_code.specs.CodeView.{seen_attr_spot, seen_spot};
ghost use Rattle.gl_parts.specs.Parts.{seen_part, seen_parts, Leads, seen_given, seen_attribute, seen_attributes, other_names, texts_given, words_of, spaced_after, bound_after, given_after, attr_placed};

use crate::preparing::prepare;
use crate::waiting::Waiting;
use gl_code::{AttrSpot, Spot, position, value_of};
use gl_nodes::Attr;
use gl_refs::{Ids, RefId};
use gl_value::{Text, Texts, Value};
use gl_vm::Vm;
use std::alloc::{AllocError, Global};

// What an attribute is given: a text, or the value of a reference.
#[derive(Drop)]
pub(crate) enum Given {
    Fixed(Text),
    Live(RefId),
}

// An attribute as a tag has it. Several of one name become one attribute of the element.
#[derive(Drop)]
pub(crate) struct Attribute {
    pub name: Text,
    pub given: Given,
}

// The references that an attribute takes, and those of them that were made for it.
#[derive(Drop)]
pub(crate) struct Taken {
    pub ids: Ids,
    pub made: Ids,
}

/// The attributes of an element, and the positions of those that take a live value.
#[derive(Drop)]
pub struct Attributes {
    pub attrs: Vec<Attr>,
    pub spots: Vec<AttrSpot>,
}

impl Given {
    fn copy(&self) -> Result<Given, AllocError>
        ensures { IfOk result (λ r. seen_given r ≡ seen_given self.now) }
    {
        match self {
            Given::Fixed(text) => Ok(Given::Fixed(text.copy()?)),
            Given::Live(id) => Ok(Given::Live(*id)),
        }
    }
}

impl Attribute {
    fn copy(&self) -> Result<Attribute, AllocError>
        ensures { IfOk result (λ r. seen_attribute r ≡ seen_attribute self.now) }
    {
        Ok(Attribute {
            name: self.name.copy()?,
            given: self.given.copy()?,
        })
    }
}

// Adds the attribute that a part of a tag is, where it is one.
fn add_part(list: &mut Vec<Attribute>, part: &Waiting) -> Result<(), AllocError>
    ensures { OnOk result ((n : _) (ws : _) → seen_attributes list.new.items ++ t.attributes_waiting ws ≡ seen_attributes list.old.items ++ t.attributes_waiting (seen_part n part.now ∷ ws)) }
{
    match part {
        Waiting::Fixed { name, text } => {
            let given = Given::Fixed(text.copy()?);
            let name = name.copy()?;
            list.push(Attribute { name, given })?;
            Ok(())
        }
        Waiting::Live { name, id } => {
            let given = Given::Live(*id);
            let name = name.copy()?;
            list.push(Attribute { name, given })?;
            Ok(())
        }
        Waiting::Modifier { .. } => Ok(()),
    }
}

// The attributes among the parts of a tag.
fn attributes_of(alloc: Global, parts: &[Waiting]) -> Result<Vec<Attribute>, AllocError>
    ensures { IfOk result (λ v. (n : _) → seen_attributes v.items ≡ t.attributes_waiting (seen_parts n parts.now)) }
{
    let mut list = Vec::new(alloc);
    for part in parts {
        add_part(&mut list, part)?;
    }
    Ok(list)
}

// Whether a name is among these.
fn has(names: &[Text], name: &Text) -> bool
    ensures { result ≡ has_text name.now names.now }
{
    for other in names {
        if name.same(other) {
            return true;
        }
    }
    false
}

// Adds a name that isn't there yet.
fn add_name(names: &mut Texts, name: &Text) -> Result<(), AllocError>
    ensures { OnOk result ((ns : _) → names.new ++ other_names names.new ns ≡ names.old ++ other_names names.old (name.now ∷ filter (λ n. not (bytes_eq name.now n)) ns)) }
{
    if has(names.as_slice(), name) {
        return Ok(());
    }
    let name = name.copy()?;
    names.push(name)
}

// Each name once, in the place of the first.
fn names_of(alloc: Global, attributes: &[Attribute]) -> Result<Texts, AllocError>
    ensures { IfOk result (λ v. v ≡ t.names_waiting (seen_attributes attributes.now)) }
{
    let mut names = Texts::new(alloc);
    for attribute in attributes {
        add_name(&mut names, &attribute.name)?;
    }
    Ok(names)
}

// The attributes of a name.
fn of_name(
    alloc: Global,
    name: &Text,
    attributes: &[Attribute],
) -> Result<Vec<Attribute>, AllocError>
    ensures { IfOk result (λ v. seen_attributes v.items ≡ filter (λ w. bytes_eq name.now w.0) (seen_attributes attributes.now)) }
{
    let mut list = Vec::new(alloc);
    for attribute in attributes {
        if name.same(&attribute.name) {
            list.push(attribute.copy()?)?;
        }
    }
    Ok(list)
}

// The last alone, where there is one.
fn last_of(alloc: Global, list: Vec<Attribute>) -> Result<Vec<Attribute>, AllocError>
    ensures { IfOk result (λ v. seen_attributes v.items ≡ last_only (seen_attributes list.items)) }
{
    let mut list = list;
    match list.pop() {
        Some(attribute) => {
            let mut last = Vec::new(alloc);
            last.push(attribute)?;
            Ok(last)
        }
        None => Ok(list),
    }
}

// What the attribute of a name takes: all of that name for `class`, for any other name the last.
fn taken_by(
    alloc: Global,
    name: &Text,
    attributes: &[Attribute],
) -> Result<Vec<Attribute>, AllocError>
    ensures { IfOk result (λ v. seen_attributes v.items ≡ t.taken_waiting name.now (seen_attributes attributes.now)) }
{
    let list = of_name(alloc, name, attributes)?;
    if name.is("class") {
        Ok(list)
    } else {
        last_of(alloc, list)
    }
}

// Whether one of them takes the value of a reference.
fn has_live(taken: &[Attribute]) -> bool
    ensures { result ≡ t.some_waiting_live (seen_attributes taken.now) }
{
    for attribute in taken {
        if let Given::Live(_) = attribute.given {
            return true;
        }
    }
    false
}

// The text that is given; none for the value of a reference.
fn fixed_text(given: &Given) -> Result<Option<Text>, AllocError>
    ensures { IfOk result (λ o. o ≡ attribute_text (t.given_pair (seen_given given.now)).value) }
{
    match given {
        Given::Fixed(text) => Ok(Some(text.copy()?)),
        Given::Live(_) => Ok(None),
    }
}

// The text that the value of a reference has as an attribute, where it isn't left out.
fn live_text(alloc: Global, vm: &Vm, id: RefId) -> Result<Option<Text>, AllocError>
    ensures { IfOk result (λ o. (n : _) (touched : _) → o ≡ attribute_text (pair_of (state_of n vm.now touched).look id.1).value) }
{
    let value = value_of(vm, id)?;
    value.attr_of(alloc)
}

// Adds a text, where there is one.
fn add_text(texts: &mut Texts, text: Option<Text>) -> Result<(), AllocError>
    ensures { OnOk result ((ts : _) → texts.new ++ ts ≡ texts.old ++ cons_option text ts) }
{
    match text {
        Some(text) => texts.push(text),
        None => Ok(()),
    }
}

// The texts among what an attribute takes.
fn fixed_texts(alloc: Global, taken: &[Attribute]) -> Result<Texts, AllocError>
    ensures { IfOk result (λ v. v ≡ texts_given (t.given_pairs (seen_attributes taken.now))) }
{
    let mut texts = Texts::new(alloc);
    for attribute in taken {
        let text = fixed_text(&attribute.given)?;
        add_text(&mut texts, text)?;
    }
    Ok(texts)
}

// The texts that values have as attributes, of those that aren't left out.
fn live_texts(alloc: Global, vm: &Vm, ids: &[RefId]) -> Result<Texts, AllocError>
    ensures { IfOk result (λ v. (n : _) (touched : _) → v ≡ texts_given (map (pair_of (state_of n vm.now touched).look) (stamps ids.now))) }
{
    let mut texts = Texts::new(alloc);
    for id in ids {
        let text = live_text(alloc, vm, *id)?;
        add_text(&mut texts, text)?;
    }
    Ok(texts)
}

// Adds a text that isn't empty, with a blank before it where it isn't the first.
fn push_word(out: &mut Text, text: &Text) -> Result<(), AllocError>
    ensures { OnOk result ((ts : _) → spaced_after out.new (words_of ts) ≡ spaced_after out.old (words_of (text.now ∷ ts))) }
{
    if text.is_empty() {
        return Ok(());
    }
    if out.is_empty() {
        return out.push_text(text);
    }
    out.push_char(' ')?;
    out.push_text(text)
}

// The texts with one blank between each two of those that aren't empty; none where there is no text at all.
fn joined(alloc: Global, texts: &[Text]) -> Result<Option<Text>, AllocError>
    ensures { IfOk result (λ o. o ≡ joined_texts texts.now) }
{
    if texts.is_empty() {
        return Ok(None);
    }
    let mut out = Text::new(alloc);
    for text in texts {
        push_word(&mut out, text)?;
    }
    Ok(Some(out))
}

/// The text that an attribute over references has, where it isn't left out.
pub fn attribute_over(alloc: Global, vm: &Vm, ids: &[RefId]) -> Result<Option<Text>, AllocError>
    ensures { IfOk result (λ o. (n : _) (touched : _) → o ≡ attribute_value (map (pair_of (state_of n vm.now touched).look) (stamps ids.now))) }
{
    let texts = live_texts(alloc, vm, ids)?;
    let text = joined(alloc, texts.as_slice())?;
    Ok(text)
}

impl Taken {
    // Adds the reference of what an attribute is given. A text gets one of its own.
    fn add(&mut self, vm: &mut Vm, attribute: &Attribute) -> Result<(), AllocError>
        ensures step { OnOk result (Leads (λ n st st'. (ws : _) → bound_after (stamps self.old.ids) (refs_made self.old.made) (t.given_refs (seen_attribute attribute.now ∷ ws) st) ≡ bound_after (stamps self.new.ids) (refs_made self.new.made) (t.given_refs ws st')) vm.old vm.new) }
        ensures calm { Calm vm.old → Calm vm.new }
        ensures tree { vm.new.tree ≡ vm.old.tree }
    {
        match &attribute.given {
            Given::Fixed(text) => {
                let id = vm.constant(Value::Text(text.copy()?))?;
                self.ids.push(id)?;
                self.made.push(id)
            }
            Given::Live(id) => self.ids.push(*id),
        }
    }
}

// The references of what an attribute takes.
fn references(alloc: Global, vm: &mut Vm, taken: &[Attribute]) -> Result<Taken, AllocError>
    ensures step { IfOk result (λ r. Leads (λ n st st'. t.given_refs (seen_attributes taken.now) st ≡ record { ids = stamps r.ids; made = refs_made r.made; state = st' }) vm.old vm.new) }
    ensures calm { Calm vm.old → Calm vm.new }
    ensures tree { vm.new.tree ≡ vm.old.tree }
{
    let mut all = Taken {
        ids: Ids::new(alloc),
        made: Ids::new(alloc),
    };
    for attribute in taken {
        all.add(vm, attribute)?;
    }
    Ok(all)
}

impl Attributes {
    // Adds an attribute with the value of a position.
    fn push_live(&mut self, name: &Text, value: Option<Text>, spot: Spot) -> Result<(), AllocError>
        ensures { OnOk result ((self.new.attrs.items ≡ self.old.attrs.items ++ (name.now, value) ∷ []) × (map seen_attr_spot self.new.spots.items ≡ map seen_attr_spot self.old.spots.items ++ record { name = name.now; spot = seen_spot spot } ∷ [])) }
    {
        let live = name.copy()?;
        self.attrs.push((name.copy()?, value))?;
        self.spots.push(AttrSpot { name: live, spot })?;
        Ok(())
    }

    // Adds an attribute that takes no live value.
    fn push_fixed(
        &mut self,
        alloc: Global,
        name: &Text,
        taken: &[Attribute],
    ) -> Result<(), AllocError>
        ensures { OnOk result ((self.new.attrs.items ≡ self.old.attrs.items ++ (name.now, attribute_value (t.given_pairs (seen_attributes taken.now))) ∷ []) × (self.new.spots ≡ self.old.spots)) }
    {
        let texts = fixed_texts(alloc, taken)?;
        let value = joined(alloc, texts.as_slice())?;
        self.attrs.push((name.copy()?, value))?;
        Ok(())
    }

    // Adds an attribute that takes a live value: a position over the references of what it takes.
    fn place(
        &mut self,
        alloc: Global,
        vm: &mut Vm,
        name: &Text,
        taken: &[Attribute],
    ) -> Result<(), AllocError>
        requires calm { Calm vm.old }
        ensures step { OnOk result (Leads (λ n st st'. (rest : _) → given_after self.old.attrs.items (map seen_attr_spot self.old.spots.items) (attr_placed name.now (place (t.given_refs (seen_attributes taken.now) st)) rest) ≡ given_after self.new.attrs.items (map seen_attr_spot self.new.spots.items) (rest st')) vm.old vm.new) }
        ensures calm { Calm vm.new }
        ensures tree { vm.new.tree ≡ vm.old.tree }
    {
        let Taken { ids, made } = references(alloc, vm, taken)?;
        prepare(vm, ids.as_slice())?;
        let texts = live_texts(alloc, vm, ids.as_slice())?;
        let value = joined(alloc, texts.as_slice())?;
        let id = position(vm, ids)?;
        self.push_live(name, value, Spot { id, made })
    }

    // Adds the attribute of a name, from what it takes. One that takes a live value is a position.
    fn give(
        &mut self,
        alloc: Global,
        vm: &mut Vm,
        name: &Text,
        taken: &[Attribute],
    ) -> Result<(), AllocError>
        requires calm { Calm vm.old }
        ensures step { OnOk result (Leads (λ n st st'. (rest : _) → given_after self.old.attrs.items (map seen_attr_spot self.old.spots.items) (t.give_attr name.now (seen_attributes taken.now) st rest) ≡ given_after self.new.attrs.items (map seen_attr_spot self.new.spots.items) (rest st')) vm.old vm.new) }
        ensures calm { Calm vm.new }
        ensures tree { vm.new.tree ≡ vm.old.tree }
    {
        if has_live(taken) {
            self.place(alloc, vm, name, taken)
        } else {
            self.push_fixed(alloc, name, taken)
        }
    }
}

// The attributes of an element, each name once.
fn give_all(alloc: Global, vm: &mut Vm, attributes: &[Attribute]) -> Result<Attributes, AllocError>
    requires calm { Calm vm.old }
    ensures step { IfOk result (λ r. Leads (λ n st st'. t.give_attrs (seen_attributes attributes.now) (t.names_waiting (seen_attributes attributes.now)) st ≡ record { attrs = r.attrs.items; spots = map seen_attr_spot r.spots.items; state = st' }) vm.old vm.new) }
    ensures calm { Calm vm.new }
    ensures tree { vm.new.tree ≡ vm.old.tree }
{
    let names = names_of(alloc, attributes)?;
    let mut all = Attributes {
        attrs: Vec::new(alloc),
        spots: Vec::new(alloc),
    };
    for name in names.as_slice() {
        let taken = taken_by(alloc, name, attributes)?;
        all.give(alloc, vm, name, taken.as_slice())?;
    }
    all.attrs.shrink_to_fit();
    all.spots.shrink_to_fit();
    Ok(all)
}

/// The attributes that an element gets, where its tag ends.
pub fn flush(alloc: Global, vm: &mut Vm, parts: &[Waiting]) -> Result<Attributes, AllocError>
    requires calm { Calm vm.old }
    ensures step { IfOk result (λ r. Leads (λ n st st'. t.flush_parts (seen_parts n parts.now) st ≡ record { attrs = r.attrs.items; spots = map seen_attr_spot r.spots.items; state = st' }) vm.old vm.new) }
    ensures calm { Calm vm.new }
    ensures tree { vm.new.tree ≡ vm.old.tree }
{
    let attributes = attributes_of(alloc, parts)?;
    give_all(alloc, vm, attributes.as_slice())
}
