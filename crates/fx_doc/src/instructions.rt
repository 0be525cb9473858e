//! The reader in instructions, one function for each mode.
//! Each answers what the machine of `fx_doc_grammar` does in that mode.
ghost use Rattle.std.specs.Prelude.{◌≡◌, true, [], ◌∷◌, ◌++◌};
ghost use Rattle.std.specs.String.{string_bytes};
ghost use Rattle.fx_doc_grammar.specs.Characters.{class_of, in_name};
ghost use Rattle.fx_doc_grammar.specs.Machine.{some_if, with_instruction, in_asked, in_instructing, in_name_asked, in_instructed, in_end_asked};
ghost use Rattle.fx_doc_runs.specs.Views.{held_view, Moves, inside_state, instructing_state};

use fx_doc_drafts::{Halt, Word};
use fx_doc_grammar::Class;
use fx_doc_runs::{Held, Mode, goes};
use std::alloc::Global;

pub fn asked(alloc: Global, held: &Held, c: char) -> Result<Option<Mode>, Halt>
    ensures { Moves (in_asked (held_view held.now) c (class_of c)) held.now result }
{
    match Class::of(c) {
        Class::Letter => goes(held, Mode::Instructing(Word::of(alloc, c)?)),
        _ => Ok(None),
    }
}

#[tactic(auto, using(crate::proofs::Defaults::instructing_rest))]
pub fn instructing(alloc: Global, held: &Held, name: Word, c: char) -> Result<Option<Mode>, Halt>
    ensures { Moves (in_instructing (string_bytes name.text) (held_view held.now) c (class_of c)) held.now result }
{
    match Class::of(c) {
        Class::White => {
            let mut inside = String::new(alloc);
            inside.push(c)?;
            goes(held, Mode::Instructed(name, inside))
        }
        Class::Question => goes(held, Mode::NameAsked(name)),
        class => longer_name(held, name, c, class),
    }
}

#[tactic(auto, using(crate::proofs::Defaults::long_name))]
fn longer_name(held: &Held, mut name: Word, c: char, class: Class) -> Result<Option<Mode>, Halt>
    requires { class ≡ class_of c }
    ensures { Moves (some_if (in_name class)
        (instructing_state (held_view held.now) (string_bytes name.text ++ (c ∷ [])))) held.now result }
{
    if !class.is_named() {
        return Ok(None);
    }
    name.push(c)?;
    goes(held, Mode::Instructing(name))
}

pub fn name_asked(alloc: Global, held: &mut Held, name: Word, c: char) -> Result<Option<Mode>, Halt>
    ensures { Moves (in_name_asked (string_bytes name.text) (held_view held.old) (class_of c)) held.new result }
{
    match Class::of(c) {
        Class::Greater => behind(alloc, held, name, ""),
        _ => Ok(None),
    }
}

/// An instruction of this name and text is whole.
fn behind(alloc: Global, held: &mut Held, name: Word, inside: &str) -> Result<Option<Mode>, Halt>
    ensures { Moves (inside_state (with_instruction (held_view held.old) (string_bytes name.text) inside.now))
        held.new result }
{
    held.add_instruction(alloc, &name, inside)?;
    goes(held, Mode::Inside)
}

pub fn instructed(
    held: &Held,
    name: Word,
    mut inside: String,
    c: char,
) -> Result<Option<Mode>, Halt>
    ensures { Moves (in_instructed (string_bytes name.text) (string_bytes inside) (held_view held.now) c (class_of c))
        held.now result }
{
    match Class::of(c) {
        Class::Question => goes(held, Mode::EndAsked(name, inside)),
        _ => {
            inside.push(c)?;
            goes(held, Mode::Instructed(name, inside))
        }
    }
}

/// Behind a `?`, which belongs to the text unless `>` follows.
pub fn end_asked(
    alloc: Global,
    held: &mut Held,
    name: Word,
    mut inside: String,
    c: char,
) -> Result<Option<Mode>, Halt>
    ensures { Moves (in_end_asked (string_bytes name.text) (string_bytes inside) (held_view held.old) c (class_of c))
        held.new result }
{
    match Class::of(c) {
        Class::Greater => behind(alloc, held, name, inside.as_str()),
        Class::Question => {
            inside.push('?')?;
            goes(held, Mode::EndAsked(name, inside))
        }
        _ => {
            inside.push('?')?;
            inside.push(c)?;
            goes(held, Mode::Instructed(name, inside))
        }
    }
}
