// The form of classes and of a manifest.
ghost use Rattle.serde_json.specs.View.{view};
ghost use Rattle.gl_meaning.specs.ManifestShape.{action_check, field_check, getter_check, class_member, class_check, modifier_check, manifest_member, manifest_check};
ghost use Rattle.gl_shape.specs.View.{Tells};

use crate::step_rules::check_action;
use crate::texts::{
    check_class_name, check_expression, check_file, check_flag, check_limit, check_modifier,
};
use gl_shape::{
    ItemRule, MemberRule, PlaceFault, check_array, check_object, check_value, has_inner, has_key,
    is_class_name, is_free_name, item_count, member_count,
};
use std::alloc::Global;

const MOST_ACTIONS: usize = 256;

const MOST_FIELDS: usize = 256;

const MOST_GETTERS: usize = 32;

const MOST_CLASSES: usize = 1024;

const MOST_MODIFIERS: usize = 1024;

struct ActionsRule;

impl MemberRule for ActionsRule {
    ghost rule = { λ s k d. action_check k d };

    fn check(&self, alloc: Global, key: &str, value: &serde_json::Value) -> Result<(), PlaceFault> {
        check_action(alloc, key, value)
    }
}

// The fields of a class.
#[derive(Drop)]
struct FieldsRule<'a> {
    class: &'a serde_json::Value,
}

impl<'a> MemberRule for FieldsRule<'a> {
    ghost rule = { λ s k d. field_check (view s.class.now) k d };

    #[tactic(auto, unfolding(gl_meaning::specs::ManifestShape::field_check))]
    fn check(&self, alloc: Global, key: &str, value: &serde_json::Value) -> Result<(), PlaceFault> {
        if is_free_name(key.as_bytes()) && !has_inner(self.class, "actions", key) {
            check_value(alloc, value)
        } else {
            Err(PlaceFault::here(alloc))
        }
    }
}

// The getters of a class.
#[derive(Drop)]
struct GettersRule<'a> {
    class: &'a serde_json::Value,
}

impl<'a> MemberRule for GettersRule<'a> {
    ghost rule = { λ s k d. getter_check (view s.class.now) k d };

    #[tactic(auto, unfolding(gl_meaning::specs::ManifestShape::getter_check))]
    fn check(&self, alloc: Global, key: &str, value: &serde_json::Value) -> Result<(), PlaceFault> {
        if is_free_name(key.as_bytes())
            && !has_inner(self.class, "actions", key)
            && !has_inner(self.class, "fields", key)
        {
            check_expression(alloc, value)
        } else {
            Err(PlaceFault::here(alloc))
        }
    }
}

// The members of a class.
#[derive(Drop)]
struct ClassRule<'a> {
    class: &'a serde_json::Value,
}

impl<'a> MemberRule for ClassRule<'a> {
    ghost rule = { λ s k d. class_member (view s.class.now) k d };

    #[tactic(auto, unfolding(gl_meaning::specs::ManifestShape::class_member))]
    fn check(&self, alloc: Global, key: &str, value: &serde_json::Value) -> Result<(), PlaceFault> {
        let class = self.class;
        let count = member_count(value);
        if key == "actions" {
            check_object(alloc, count <= MOST_ACTIONS, &ActionsRule, value)
        } else if key == "fields" {
            check_object(alloc, count <= MOST_FIELDS, &FieldsRule { class }, value)
        } else if key == "getters" {
            check_object(alloc, count <= MOST_GETTERS, &GettersRule { class }, value)
        } else if key == "teardown" {
            check_flag(alloc, value)
        } else if key == "template" {
            check_file(alloc, value)
        } else {
            Err(PlaceFault::here(alloc))
        }
    }
}

// The classes, each under its name.
struct ClassesRule;

impl MemberRule for ClassesRule {
    ghost rule = { λ s k d. class_check k d };

    #[tactic(auto, unfolding(gl_meaning::specs::ManifestShape::class_check))]
    fn check(&self, alloc: Global, key: &str, value: &serde_json::Value) -> Result<(), PlaceFault> {
        if is_class_name(key.as_bytes()) {
            check_object(
                alloc,
                has_key(value, "template"),
                &ClassRule { class: value },
                value,
            )
        } else {
            Err(PlaceFault::here(alloc))
        }
    }
}

// The modifiers.
struct ModifiersRule;

impl ItemRule for ModifiersRule {
    ghost rule = { λ s n d. modifier_check d };

    fn check(&self, alloc: Global, _: usize, value: &serde_json::Value) -> Result<(), PlaceFault> {
        check_modifier(alloc, value)
    }
}

// The members of a manifest.
struct ManifestRule;

impl MemberRule for ManifestRule {
    ghost rule = { λ s k d. manifest_member k d };

    #[tactic(auto, unfolding(gl_meaning::specs::ManifestShape::manifest_member))]
    fn check(&self, alloc: Global, key: &str, value: &serde_json::Value) -> Result<(), PlaceFault> {
        if key == "classes" {
            check_object(
                alloc,
                member_count(value) <= MOST_CLASSES,
                &ClassesRule,
                value,
            )
        } else if key == "limit" {
            check_limit(alloc, value)
        } else if key == "modifiers" {
            check_array(
                alloc,
                item_count(value) <= MOST_MODIFIERS,
                &ModifiersRule,
                value,
            )
        } else if key == "root" {
            check_class_name(alloc, value)
        } else {
            Err(PlaceFault::here(alloc))
        }
    }
}

/// Whether JSON is of the form of a manifest, or its first faulty place.
#[tactic(auto, unfolding(gl_meaning::specs::ManifestShape::manifest_check))]
pub fn check_manifest(alloc: Global, json: &serde_json::Value) -> Result<(), PlaceFault>
    ensures { Tells (λ u. tt) result (manifest_check (view json.now)) }
{
    let fits = has_key(json, "root") && has_key(json, "classes");
    check_object(alloc, fits, &ManifestRule, json)
}
