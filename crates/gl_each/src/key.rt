// The key of an item.
use gl_value::Value;

/// The key of an item, with how many items before it have an equal key.
#[derive(Drop)]
pub struct Key {
    pub value: Value,
    pub occurrence: u64,
}
