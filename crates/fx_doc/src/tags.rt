//! The reader in tags, one function for each mode; attribute values are in `values`.
//! Each answers what the machine of `fx_doc_grammar` does in that mode.
ghost use Rattle.std.specs.Prelude.{◌≡◌, true, [], ◌∷◌, ◌++◌, drop, not};
ghost use Rattle.std.specs.String.{string_bytes};
ghost use Rattle.fx_doc_grammar.specs.Characters.{class_of, in_name};
ghost use Rattle.fx_doc_grammar.specs.Machine as machine;
ghost use Rattle.fx_doc_runs.specs.Views as views;

use fx_base::Position;
use fx_doc_drafts::{Draft, Halt, Word};
use fx_doc_grammar::{Class, Quote};
use fx_doc_runs::{Head, Held, Mode, Valued, goes};
use std::alloc::Global;

/// An element begins with this tag.
fn opens(alloc: Global, held: &mut Held, head: Head) -> Result<Option<Mode>, Halt>
    ensures { views.Moves (views.inside_state
        (machine.open_element (views.held_view held.old) (views.head_view head))) held.new result }
{
    held.open(alloc, head)?;
    goes(held, Mode::Inside)
}

#[tactic(auto, using(crate::proofs::Defaults::naming_rest))]
pub fn naming(
    alloc: Global,
    held: &mut Held,
    position: Position,
    name: Word,
    c: char,
) -> Result<Option<Mode>, Halt>
    ensures { views.Moves (machine.in_naming position (string_bytes name.text) (views.held_view held.old) c
        (class_of c)) held.new result }
{
    match Class::of(c) {
        Class::White => goes(held, Mode::Spaced(Head::bare(alloc, position, name))),
        Class::Slash => goes(held, Mode::Slashed(Head::bare(alloc, position, name))),
        Class::Greater => opens(alloc, held, Head::bare(alloc, position, name)),
        class => longer_name(held, position, name, c, class),
    }
}

#[tactic(auto, using(crate::proofs::Defaults::long_name))]
fn longer_name(
    held: &Held,
    position: Position,
    mut name: Word,
    c: char,
    class: Class,
) -> Result<Option<Mode>, Halt>
    requires { class ≡ class_of c }
    ensures { views.Moves (machine.some_if (in_name class)
        (views.naming_state (views.held_view held.now) position (string_bytes name.text ++ (c ∷ [])))) held.now result }
{
    if !class.is_named() {
        return Ok(None);
    }
    name.push(c)?;
    goes(held, Mode::Naming(position, name))
}

pub fn spaced(
    alloc: Global,
    held: &mut Held,
    head: Head,
    position: Position,
    c: char,
) -> Result<Option<Mode>, Halt>
    ensures { views.Moves (machine.in_spaced position (views.head_view head) (views.held_view held.old) c
        (class_of c)) held.new result }
{
    match Class::of(c) {
        Class::White => goes(held, Mode::Spaced(head)),
        Class::Slash => goes(held, Mode::Slashed(head)),
        Class::Greater => opens(alloc, held, head),
        Class::Letter => goes(held, Mode::Keyed(head, position, Word::of(alloc, c)?)),
        _ => Ok(None),
    }
}

/// Behind a value: no attribute begins without white before it.
pub fn tight(alloc: Global, held: &mut Held, head: Head, c: char) -> Result<Option<Mode>, Halt>
    ensures { views.Moves (machine.in_tight (views.head_view head) (views.held_view held.old) (class_of c)) held.new
        result }
{
    match Class::of(c) {
        Class::White => goes(held, Mode::Spaced(head)),
        Class::Slash => goes(held, Mode::Slashed(head)),
        Class::Greater => opens(alloc, held, head),
        _ => Ok(None),
    }
}

#[tactic(auto, using(crate::proofs::Defaults::keyed_rest))]
pub fn keyed(
    held: &Held,
    head: Head,
    position: Position,
    key: Word,
    c: char,
) -> Result<Option<Mode>, Halt>
    ensures { views.Moves (machine.in_keyed (views.head_view head) position (string_bytes key.text)
        (views.held_view held.now) c (class_of c))
        held.now result }
{
    match Class::of(c) {
        Class::White => behind_key(held, head, position, key),
        Class::Equals => behind_sign(held, head, position, key),
        class => longer_key(held, head, position, key, c, class),
    }
}

fn behind_key(held: &Held, head: Head, position: Position, key: Word) -> Result<Option<Mode>, Halt>
    ensures { views.Moves (machine.some_if (machine.is_fresh (string_bytes key.text) (views.head_view head))
        (views.key_spaced_state (views.held_view held.now) (views.head_view head) position (string_bytes key.text)))
        held.now result }
{
    if !head.is_fresh(&key) {
        return Ok(None);
    }
    goes(held, Mode::KeySpaced(head, position, key))
}

fn behind_sign(held: &Held, head: Head, position: Position, key: Word) -> Result<Option<Mode>, Halt>
    ensures { views.Moves (machine.some_if (machine.is_fresh (string_bytes key.text) (views.head_view head))
        (views.signed_state (views.held_view held.now) (views.head_view head) position (string_bytes key.text)))
        held.now result }
{
    if !head.is_fresh(&key) {
        return Ok(None);
    }
    goes(held, Mode::Signed(head, position, key))
}

#[tactic(auto, using(crate::proofs::Defaults::long_name))]
fn longer_key(
    held: &Held,
    head: Head,
    position: Position,
    mut key: Word,
    c: char,
    class: Class,
) -> Result<Option<Mode>, Halt>
    requires { class ≡ class_of c }
    ensures { views.Moves (machine.some_if (in_name class)
        (views.keyed_state (views.held_view held.now) (views.head_view head) position
        (string_bytes key.text ++ (c ∷ [])))) held.now result }
{
    if !class.is_named() {
        return Ok(None);
    }
    key.push(c)?;
    goes(held, Mode::Keyed(head, position, key))
}

pub fn key_spaced(
    held: &Held,
    head: Head,
    position: Position,
    key: Word,
    c: char,
) -> Result<Option<Mode>, Halt>
    ensures { views.Moves (machine.in_key_spaced (views.head_view head) position (string_bytes key.text)
        (views.held_view held.now)
        (class_of c)) held.now result }
{
    match Class::of(c) {
        Class::White => goes(held, Mode::KeySpaced(head, position, key)),
        Class::Equals => goes(held, Mode::Signed(head, position, key)),
        _ => Ok(None),
    }
}

pub fn signed(
    alloc: Global,
    held: &Held,
    head: Head,
    position: Position,
    key: Word,
    c: char,
) -> Result<Option<Mode>, Halt>
    ensures { views.Moves (machine.in_signed (views.head_view head) position (string_bytes key.text)
        (views.held_view held.now) (class_of c))
        held.now result }
{
    match Class::of(c) {
        Class::White => goes(held, Mode::Signed(head, position, key)),
        Class::Quotation => goes(
            held,
            Mode::Quoted(Valued {
                head,
                position,
                key,
                quote: Quote::Double,
                value: Draft::new(alloc),
            }),
        ),
        Class::Apostrophe => goes(
            held,
            Mode::Quoted(Valued {
                head,
                position,
                key,
                quote: Quote::Single,
                value: Draft::new(alloc),
            }),
        ),
        _ => Ok(None),
    }
}

/// An element without content ends with its tag.
fn leaf(alloc: Global, held: &mut Held, head: Head) -> Result<Option<Mode>, Halt>
    ensures { views.Moves (views.inside_state (machine.with_leaf (views.held_view held.old) (views.head_view head)))
        held.new result }
{
    held.add_leaf(alloc, head)?;
    goes(held, Mode::Inside)
}

pub fn slashed(alloc: Global, held: &mut Held, head: Head, c: char) -> Result<Option<Mode>, Halt>
    ensures { views.Moves (machine.in_slashed (views.head_view head) (views.held_view held.old) (class_of c)) held.new
        result }
{
    match Class::of(c) {
        Class::Greater => leaf(alloc, held, head),
        _ => Ok(None),
    }
}

pub fn ended(alloc: Global, held: &mut Held, c: char) -> Result<Option<Mode>, Halt>
    ensures { views.Moves (machine.in_ended (views.held_view held.old) (class_of c)) held.new result }
{
    match Class::of(c) {
        Class::White => goes(held, Mode::Ended),
        Class::Greater => held.close(alloc),
        _ => Ok(None),
    }
}
