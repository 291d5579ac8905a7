// The manifest and the templates.
ghost use Rattle.std.specs.Prelude.{◌≡◌, ◌≤◌, IfOk, ◌∷◌, []};
ghost use Rattle.gl_gen.specs.Rows.{rows};
ghost use Rattle.gl_gen.specs.Application.{manifest, templates};

use crate::rows::{push_array, text_for};
use gl_outside::{File, Files};
use gl_value::Text;
use std::alloc::{AllocError, Global};

// The manifest, from the rows.
pub fn manifest_of(alloc: Global, n: u32, texts: &[Text]) -> Result<Text, AllocError>
    requires some { 1 ≤ n }
    requires most { n ≤ 10000 }
    requires those { texts.now ≡ rows n }
    ensures { IfOk result (λ t. t ≡ manifest n) }
{
    let mut text = text_for(alloc, n as usize)?;
    text.push_ascii(
        "{\"classes\":{\"App\":{\"actions\":{\"pick\":{\"do\":[{\"set\":\"rows\",\"to\":\"(updateWhere this.rows 'id' id 'on' true)\"}],\"params\":[\"id\"]}},\"fields\":{\"rows\":",
    )?;
    push_array(&mut text, texts, 0)?;
    text.push_ascii(
        "},\"template\":\"app.hbs\"},\"Row\":{\"template\":\"row.hbs\"}},\"root\":\"App\"}",
    )?;
    Ok(text)
}

fn file_of(alloc: Global, name: &str, text: &str) -> Result<File, AllocError>
    ensures { IfOk result (λ f. f ≡ (name.now, text.now)) }
{
    Ok(File::new(
        String::from_str(alloc, name)?,
        Vec::from_slice(alloc, text.as_bytes())?,
    ))
}

// The files of the two templates.
#[tactic(auto, unfolding(crate::specs::Application::templates))]
pub fn templates_of(alloc: Global) -> Result<Files, AllocError>
    ensures { IfOk result (λ f. f ≡ templates) }
{
    let mut files = Files::new(alloc);
    files.push(file_of(
        alloc,
        "app.hbs",
        "<ul>{{#each this.rows key=\"id\" as |r|}}<Row @r={{r}} @pick={{fn this.pick r.id}} />{{/each}}</ul>",
    )?)?;
    files.push(file_of(
        alloc,
        "row.hbs",
        "<li class={{if @r.on \"on\"}} {{on \"click\" @pick}}>{{@r.t}}</li>",
    )?)?;
    Ok(files)
}
