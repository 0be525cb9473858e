//! Import instructions: the text of one without the white at its ends, listed unless it is too long.
//! Every other instruction is passed over.
ghost use Rattle.std.specs.Prelude.{◌≡◌, ◌∷◌, [], not, ◌&&◌, if◌then◌else◌, length, codes, nat_le, IfOk, OnOk, option_to_list};
ghost use Rattle.std.specs.Str.{chars};
ghost use Rattle.std.specs.String.{string_bytes};
ghost use Rattle.fx_text.specs.Trimming.{trimmed};
ghost use Rattle.std.specs.Str.{bytes_eq};
ghost use Rattle.fx_doc_grammar.specs.Machine.{with_instruction, may_begin, is_open};
ghost use Rattle.fx_doc_runs.specs.Views.{held_view, stack_view};

use crate::modes::Held;
use fx_base::Text;
use fx_doc_drafts::Word;
use fx_text::trimmed_text;
use std::alloc::{AllocError, Global};

/// What an import lists: its trimmed text, unless that is over 4,096 characters.
fn import_text(alloc: Global, text: &str) -> Result<Option<Text>, AllocError>
    ensures { IfOk result (λ o. option_to_list o
        ≡ if nat_le (length (chars (trimmed text.now))) 4096 then trimmed text.now ∷ [] else []) }
{
    let text = String::from_str(alloc, trimmed_text(text))?;
    Ok(Text::from_string(text))
}

fn is_import(name: &Word) -> bool
    ensures { result ≡ bytes_eq (string_bytes name.now.text) (codes "import") }
{
    name.text.as_str() == "import"
}

impl Held {
    /// Has no element begun?
    fn is_before_root(&self) -> bool
        ensures { result ≡ may_begin (held_view self.now) && not (is_open (stack_view self.now.stack.items)) }
    {
        self.may_begin() && !self.is_within()
    }

    /// Passes an instruction of this name and text.
    pub fn add_instruction(
        &mut self,
        alloc: Global,
        name: &Word,
        inside: &str,
    ) -> Result<(), AllocError>
        ensures { OnOk result (held_view self.new
            ≡ with_instruction (held_view self.old) (string_bytes name.now.text) inside.now) }
    {
        if !self.is_before_root() {
            return Ok(());
        }
        if !is_import(name) {
            return Ok(());
        }
        let Some(text) = import_text(alloc, inside)? else {
            return Ok(());
        };
        self.imports.push(text)?;
        Ok(())
    }
}
