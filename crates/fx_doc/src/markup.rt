//! The reader between tags: characters, references, comments and instructions, one function for each mode.
//! Each answers what the machine of `fx_doc_grammar` does in that mode.
ghost use Rattle.std.specs.Prelude.{◌≡◌, true, [], ◌∷◌, ◌++◌};
ghost use Rattle.std.specs.String.{string_bytes};
ghost use Rattle.fx_doc_grammar.specs.Characters.{class_of, in_name};
ghost use Rattle.fx_doc_grammar.specs.Machine as spec;
ghost use Rattle.fx_doc_runs.specs.Views.{stack_view, held_view, Moves, inside_state, referring_state, naming_state, instructing_state};

use fx_base::Position;
use fx_doc_drafts::{Halt, Word};
use fx_doc_grammar::{Class, Entity, Turn};
use fx_doc_runs::{Held, Mode, goes};
use std::alloc::Global;

#[tactic(auto, using(crate::proofs::Defaults::inside_rest))]
pub fn inside(held: &mut Held, position: Position, c: char) -> Result<Option<Mode>, Halt>
    ensures { Moves (spec.in_inside position (held_view held.old) c (class_of c)) held.new result }
{
    match Class::of(c) {
        Class::White => with_character(held, position, c),
        Class::Less => goes(held, Mode::Opening(position)),
        Class::Ampersand => refers(held, position),
        _ => shown(held, position, c),
    }
}

/// A reference begins, within an element alone.
fn refers(held: &Held, position: Position) -> Result<Option<Mode>, Halt>
    ensures { Moves (spec.some_if (spec.is_open (stack_view held.now.stack.items))
        (referring_state (held_view held.now) position)) held.now result }
{
    if !held.is_within() {
        return Ok(None);
    }
    goes(held, Mode::Referring(position, Entity::Begun))
}

/// A character stands within an element alone.
fn shown(held: &mut Held, position: Position, c: char) -> Result<Option<Mode>, Halt>
    ensures { Moves (spec.some_if (spec.is_open (stack_view held.old.stack.items))
        (inside_state (spec.with_sign position c (held_view held.old)))) held.new result }
{
    if !held.is_within() {
        return Ok(None);
    }
    with_character(held, position, c)
}

fn with_character(held: &mut Held, position: Position, c: char) -> Result<Option<Mode>, Halt>
    ensures { Moves (inside_state (spec.with_sign position c (held_view held.old))) held.new result }
{
    held.add_sign(position, c)?;
    goes(held, Mode::Inside)
}

pub fn referring(
    held: &mut Held,
    position: Position,
    entity: Entity,
    c: char,
) -> Result<Option<Mode>, Halt>
    ensures { Moves (spec.in_referring position (held_view held.old) (spec.entity_step entity c)) held.new result }
{
    match entity.step(c) {
        Some(Turn::Further(next)) => goes(held, Mode::Referring(position, next)),
        Some(Turn::Whole(found)) => with_character(held, position, found),
        None => Ok(None),
    }
}

/// Behind a `<`, which stands at that position.
pub fn opening(
    alloc: Global,
    held: &Held,
    position: Position,
    c: char,
) -> Result<Option<Mode>, Halt>
    ensures { Moves (spec.in_opening position (held_view held.now) c (class_of c)) held.now result }
{
    match Class::of(c) {
        Class::Letter => begins(alloc, held, position, c),
        Class::Bang => goes(held, Mode::Banged),
        Class::Question => goes(held, Mode::Asked),
        Class::Slash => begins_end(held),
        _ => Ok(None),
    }
}

/// An element begins: within another, or as the first.
fn begins(alloc: Global, held: &Held, position: Position, c: char) -> Result<Option<Mode>, Halt>
    requires { in_name (class_of c) ≡ true }
    ensures { Moves (spec.some_if (spec.may_begin (held_view held.now))
        (naming_state (held_view held.now) position (c ∷ [])))
        held.now result }
{
    if !held.may_begin() {
        return Ok(None);
    }
    goes(held, Mode::Naming(position, Word::of(alloc, c)?))
}

fn begins_end(held: &Held) -> Result<Option<Mode>, Halt>
    ensures { Moves (spec.begin_end (stack_view held.now.stack.items) (held_view held.now)) held.now result }
{
    if !held.is_within() {
        return Ok(None);
    }
    goes(held, Mode::Ending(0))
}
