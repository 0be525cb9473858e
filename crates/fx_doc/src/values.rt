//! The reader in the values of attributes, and in end tags, one function for each mode.
//! Each answers what the machine of `fx_doc_grammar` does in that mode.
ghost use Rattle.std.specs.Prelude.{◌≡◌, true, false, [], ◌∷◌, ◌++◌, ◌+◌, drop, not, ◌<◌, ◌^◌, length, OnOk, IfSome, IfNone};
ghost use Rattle.std.specs.String.{string_bytes};
ghost use Rattle.std.specs.Char.{encode_utf8};
ghost use Rattle.fx_doc_grammar.specs.Characters.{class_of};
ghost use Rattle.fx_doc_grammar.specs.Grammar.{is_quote, value_byte};
ghost use Rattle.fx_doc_grammar.specs.Machine.{with_attribute, entity_step, in_quoted, in_value, in_value_referring, in_ending};
ghost use Rattle.fx_doc_runs.specs.Views.{head_view, stack_view, held_view, open_name, Moves, tight_state, quoted_state};

use crate::tags::ended;
use fx_base::Position;
use fx_doc_drafts::Halt;
use fx_doc_grammar::{Class, Entity, Turn};
use fx_doc_runs::{Held, Mode, Valued, goes, shown};
use std::alloc::Global;

#[tactic(auto, using(crate::proofs::Defaults::quoted_rest))]
pub fn quoted(
    alloc: Global,
    held: &Held,
    valued: Valued,
    position: Position,
    c: char,
) -> Result<Option<Mode>, Halt>
    ensures { Moves (in_quoted position (head_view valued.head) valued.position (string_bytes valued.key.text)
        valued.quote (string_bytes valued.value.text) valued.value.count (held_view held.now) c (class_of c)) held.now
        result }
{
    match Class::of(c) {
        Class::Less => Ok(None),
        Class::Ampersand => goes(held, Mode::ValueReferring(valued, position, Entity::Begun)),
        class => in_text(alloc, held, valued, c, class),
    }
}

/// A character of a value that is no `<` and no `&`: its quote, or one more of its characters.
fn in_text(
    alloc: Global,
    held: &Held,
    valued: Valued,
    c: char,
    class: Class,
) -> Result<Option<Mode>, Halt>
    ensures { Moves (in_value (is_quote valued.quote class) (head_view valued.head) valued.position
        (string_bytes valued.key.text) valued.quote (string_bytes valued.value.text) valued.value.count
        (held_view held.now) c class) held.now result }
{
    if class.is_quote(valued.quote) {
        return whole(alloc, held, valued);
    }
    longer(held, valued, shown(c, class))
}

fn whole(alloc: Global, held: &Held, valued: Valued) -> Result<Option<Mode>, Halt>
    ensures { Moves (tight_state (held_view held.now)
        (with_attribute (head_view valued.head) valued.position (string_bytes valued.key.text)
        (string_bytes valued.value.text))) held.now result }
{
    let head = valued.into_head(alloc)?;
    goes(held, Mode::Tight(head))
}

#[tactic(auto, using(crate::proofs::Defaults::long_value))]
fn longer(held: &Held, mut valued: Valued, c: char) -> Result<Option<Mode>, Halt>
    ensures { Moves (quoted_state (held_view held.now) (head_view valued.head) valued.position
        (string_bytes valued.key.text) valued.quote (string_bytes valued.value.text ++ encode_utf8 c)
        (valued.value.count + 1)) held.now result }
{
    valued.value.push(c)?;
    goes(held, Mode::Quoted(valued))
}

pub fn value_referring(
    held: &Held,
    valued: Valued,
    position: Position,
    entity: Entity,
    c: char,
) -> Result<Option<Mode>, Halt>
    ensures { Moves (in_value_referring (head_view valued.head) valued.position (string_bytes valued.key.text)
        valued.quote (string_bytes valued.value.text) valued.value.count position (held_view held.now)
        (entity_step entity c)) held.now result }
{
    match entity.step(c) {
        Some(Turn::Further(next)) => goes(held, Mode::ValueReferring(valued, position, next)),
        Some(Turn::Whole(found)) => longer(held, valued, found),
        None => Ok(None),
    }
}

/// In an end tag, behind so many characters of the open name.
pub fn ending(alloc: Global, held: &mut Held, at: usize, c: char) -> Result<Option<Mode>, Halt>
    ensures { Moves (in_ending (drop at (open_name (stack_view held.old.stack.items))) (held_view held.old) c
        (class_of c)) held.new result }
{
    let Some(byte) = held.name_byte(at) else {
        return ended(alloc, held, c);
    };
    if u32::from(byte) != u32::from(c) {
        return Ok(None);
    }
    goes(held, Mode::Ending(at + 1))
}
