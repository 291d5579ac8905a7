// The text of a value.
ghost use Rattle.std.specs.Prelude.{◌≡◌, ◌<◌, ◌++◌, IfOk, OnOk, OnErr, option_map, false};
ghost use Rattle.gl_value.specs.Value.{text_of, texts_of, comma_if, values_of, attribute_text};
ghost use Rattle.gl_value.specs.View.{view};

use crate::{Act, List, Text, Value};
use std::alloc::{AllocError, Global};

fn push_comma_if(out: &mut Text, later: bool) -> Result<(), AllocError>
    ensures { OnOk result (out.new ≡ out.old ++ comma_if later) }
{
    if later { out.push_ascii(",") } else { Ok(()) }
}

impl List {
    // Adds the texts of the items, with a comma between each two.
    #[cycle(write)]
    fn write(&self, out: &mut Text) -> Result<(), AllocError>
        ensures { OnOk result (out.new ≡ out.old ++ texts_of false (values_of self.now)) }
    {
        let mut later = false;
        for item in self.list.iter() {
            push_comma_if(out, later)?;
            item.write(out)?;
            later = true;
        }
        Ok(())
    }
}

impl Act {
    // Adds the text of an action.
    fn write(&self, out: &mut Text) -> Result<(), AllocError>
        ensures { OnOk result (out.new ≡ out.old ++ text_of (view (Value.Act self.now))) }
    {
        out.push_ascii("[action ")?;
        out.push_text(self.name.as_text())?;
        out.push_ascii("]")
    }
}

impl Value {
    /// Adds the text of the value at the end. Where memory is wanting, a part of it may stand there.
    #[cycle(write)]
    pub fn write(&self, out: &mut Text) -> Result<(), AllocError>
        ensures { OnOk result (out.new ≡ out.old ++ text_of (view self.now)) }
    {
        match self {
            Value::Undefined | Value::Null => Ok(()),
            Value::Bool(true) => out.push_ascii("true"),
            Value::Bool(false) => out.push_ascii("false"),
            Value::Int(number) => out.push_int(*number),
            Value::Text(text) => out.push_text(text),
            Value::List(list) => list.write(out),
            Value::Record(_) => out.push_ascii("[object Object]"),
            Value::Act(action) => action.write(out),
        }
    }

    /// The text of a value: nothing for undefined and null, `true` or `false`, an integer in decimal,
    /// a text itself, the texts of a list's items with commas between, `[object Object]` for a record, and
    /// `[action NAME]` for an action.
    pub fn text_of(&self, alloc: Global) -> Result<Text, AllocError>
        ensures { IfOk result (λ t. t ≡ text_of (view self.now)) }
    {
        let mut text = Text::new(alloc);
        self.write(&mut text)?;
        Ok(text)
    }

    /// The text of the value as an attribute: the empty text for true; `None` for false, null, undefined
    /// and an action, which leave the attribute out; and else the value's text.
    pub fn attr_of(&self, alloc: Global) -> Result<Option<Text>, AllocError>
        ensures { IfOk result (λ o. o ≡ attribute_text (view self.now)) }
    {
        match self {
            Value::Undefined | Value::Null | Value::Bool(false) | Value::Act(_) => Ok(None),
            Value::Bool(true) => Ok(Some(Text::new(alloc))),
            _ => Ok(Some(self.text_of(alloc)?)),
        }
    }
}
