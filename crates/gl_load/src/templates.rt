// The templates of an application's classes.
ghost use Rattle.std.specs.Prelude.{◌≡◌, ◌↔◌, [], ◌∷◌, ◌++◌, IsTrue, OnOk, OnErr, length, option_map, slice_get};
ghost use Rattle.gl_ast.specs.Grammar.{IsTemplate};
ghost use Rattle.gl_meaning.specs.ManifestRules.{Each};
ghost use Rattle.gl_load.specs.Trees.{tree_of, seen_templates};

use gl_ast::Template;
use std::alloc::{AllocError, Global};
use std::marker::Model;

/// A list of templates. Contracts see their trees.
#[derive(Drop)]
pub struct Templates {
    list: Vec<Template>,
}

impl Model for Templates {
    ghost use Rattle.std.specs.Prelude.{List};
    ghost use Rattle.std.specs.Coded.{coded_list};
    ghost use Rattle.gl_ast.specs.Template as t;
    ghost use Rattle.gl_ast.specs.StmtCode.{body_code};

    ghost Value = { List t.Body };

    ghost coded = { coded_list body_code };

    ghost use Rattle.gl_load.specs.Trees.{seen_templates};

    ghost view = { λ a. seen_templates a.list.items };

    ghost use Rattle.gl_ast.specs.Grammar.{IsTemplate};
    ghost use Rattle.gl_meaning.specs.ManifestRules.{Each};

    ghost invariant = { λ a. ∥ Each IsTemplate (seen_templates a.list.items) ∥₁ };
}

impl Templates {
    /// The empty list. It takes no memory.
    pub fn new(alloc: Global) -> Templates
        ensures { result ≡ [] }
    {
        Templates {
            list: Vec::new(alloc),
        }
    }

    pub fn as_slice(&self) -> &[Template]
        ensures { seen_templates result.now ≡ self.now }
    {
        self.list.as_slice()
    }

    pub fn len(&self) -> usize
        ensures { result ≡ length self.now }
    {
        self.list.len()
    }

    pub fn is_empty(&self) -> bool
        ensures { IsTrue result ↔ (self.now ≡ []) }
    {
        self.list.is_empty()
    }

    /// The template at a place, counted from 0.
    pub fn get(&self, at: usize) -> Option<&Template>
        ensures { option_map (λ v. tree_of v.now) result ≡ slice_get self.now at }
    {
        self.list.as_slice().get(at)
    }

    /// Adds a template at the end.
    pub fn push(&mut self, item: Template) -> Result<(), AllocError>
        ensures ok { OnOk result (self.new ≡ self.old ++ tree_of item ∷ []) }
        ensures err { OnErr result (self.new ≡ self.old) }
    {
        self.list.push(item)?;
        Ok(())
    }

    /// Each is a template that some bytes spell. It does nothing.
    pub fn spelled(&self)
        ensures { ∥ Each IsTemplate self.now ∥₁ }
    {
        let _ = &self.list;
    }
}
