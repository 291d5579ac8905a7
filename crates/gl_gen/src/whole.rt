// The files of a sample.
use gl_outside::Files;
use gl_value::Text;

/// The files of a sample application. Its parts can be moved out one by one.
#[derive(Drop)]
pub struct Sample {
    /// What stands in `m.json`.
    pub manifest: Text,
    /// The files `app.hbs` and `row.hbs`, in this order.
    pub templates: Files,
    /// What stands in `s.json`.
    pub script: Text,
}
