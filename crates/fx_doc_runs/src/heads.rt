//! The head of a tag: its name and its attributes so far, each name once.
//! The first eight names are looked through, and the others stand in a set beside: many attributes cost no more each.
ghost use Rattle.std.specs.Prelude.{◌≡◌, ◌∷◌, ◌++◌, ◌<◌, ◌≤◌, [], List, ℕ, length, take, if◌then◌else◌, nat_le, IfOk, IfErr, OnOk};
ghost use Rattle.std.specs.String.{string_bytes};
ghost use Rattle.fx_doc_grammar.specs.Grammar.{is_among};
ghost use Rattle.fx_doc_grammar.specs.Machine.{is_fresh, with_attribute};
ghost use Rattle.fx_doc_drafts.specs.Names.{HasNames};
ghost use Rattle.fx_doc_runs.specs.Attributes.{names_of};
ghost use Rattle.fx_doc_runs.specs.Views.{attr_view, bare_head, head_view};
ghost use Rattle.fx_doc_runs.specs.declared.document.DocError.TheVariants as fault;

use crate::document::{Attribute, DocError};
use crate::modes::Head;
use fx_base::{Position, Text};
use fx_doc_drafts::{Names, Word};
use std::alloc::{AllocError, Global};
use std::mem;

/// How many names are looked through.
const NEAR: usize = 8;

impl Head {
    /// The tag of this name alone.
    pub fn bare(alloc: Global, position: Position, name: Word) -> Head
        ensures { head_view result ≡ bare_head position (string_bytes name.text) }
    {
        Head {
            name: name.into_text(),
            attributes: Vec::new(alloc),
            position,
            later: Names::new(alloc),
        }
    }

    /// The tag of this name alone, which is a text already.
    pub fn named(alloc: Global, position: Position, name: Text) -> Head
        ensures { head_view result ≡ bare_head position name }
    {
        Head {
            name,
            attributes: Vec::new(alloc),
            position,
            later: Names::new(alloc),
        }
    }

    /// No tag: what stands in a head's place while that is worked on.
    fn empty(alloc: Global) -> Head {
        Head::named(alloc, Position::START, Text::new(alloc))
    }

    /// Adds an attribute of this name and value, whose name stands at that position.
    pub fn add(
        &mut self,
        alloc: Global,
        position: Position,
        name: &str,
        value: &str,
    ) -> Result<(), DocError>
        requires name { length name.now ≤ 4096 }
        requires value { length value.now ≤ 4096 }
        ensures added { OnOk result (head_view self.new
            ≡ with_attribute (head_view self.old) position name.now value.now) }
        ensures memory { IfErr result (λ e. e ≡ fault.Memory) }
    {
        if self.attributes.len() >= NEAR {
            return self.add_behind(alloc, position, name, value);
        }
        let Ok(attribute) = attribute_of(alloc, position, name, value) else {
            return Err(DocError::Memory);
        };
        match self.push_near(attribute) {
            Ok(()) => Ok(()),
            Err(_) => Err(DocError::Memory),
        }
    }

    /// Puts one of the first eight attributes behind the others.
    fn push_near(&mut self, attribute: Attribute) -> Result<(), AllocError>
        requires { length self.old.attributes.items < 8 }
        ensures { OnOk result (head_view self.new ≡ with_attribute (head_view self.old) attribute.position
            attribute.name attribute.value) }
    {
        self.attributes.push(attribute)?;
        Ok(())
    }

    /// Adds an attribute behind the first eight.
    fn add_behind(
        &mut self,
        alloc: Global,
        position: Position,
        name: &str,
        value: &str,
    ) -> Result<(), DocError>
        requires name { length name.now ≤ 4096 }
        requires value { length value.now ≤ 4096 }
        ensures added { OnOk result (head_view self.new
            ≡ with_attribute (head_view self.old) position name.now value.now) }
        ensures memory { IfErr result (λ e. e ≡ fault.Memory) }
    {
        let Ok(key) = Word::of_text(alloc, name) else {
            return Err(DocError::Memory);
        };
        // The value is short, so nothing but memory can be wanting.
        let Ok(value) = Text::from_str(alloc, value) else {
            return Err(DocError::Memory);
        };
        let head = mem::replace(self, Head::empty(alloc));
        let Ok(head) = head.with_attribute(alloc, position, key, value) else {
            return Err(DocError::Memory);
        };
        *self = head;
        Ok(())
    }

    /// Has the tag no attribute of this name?
    pub fn is_new(&self, alloc: Global, name: &str) -> Result<bool, DocError>
        requires { length name.now ≤ 4096 }
        ensures fresh { IfOk result (λ b. b ≡ is_fresh name.now (head_view self.now)) }
        ensures memory { IfErr result (λ e. e ≡ fault.Memory) }
    {
        if self.attributes.len() <= NEAR {
            return Ok(!is_named(self.attributes.as_slice(), name));
        }
        match Word::of_text(alloc, name) {
            Ok(key) => Ok(self.is_fresh(&key)),
            Err(_) => Err(DocError::Memory),
        }
    }

    /// Has the tag no attribute of this name?
    pub fn is_fresh(&self, key: &Word) -> bool
        ensures { result ≡ is_fresh (string_bytes key.now.text) (head_view self.now) }
    {
        if is_named(near(self.attributes.as_slice()), key.text.as_str()) {
            return false;
        }
        !self.later.has(key)
    }

    /// With one more attribute, whose name stands at that position.
    pub fn with_attribute(
        self,
        alloc: Global,
        position: Position,
        key: Word,
        value: Text,
    ) -> Result<Head, AllocError>
        ensures { IfOk result (λ h. head_view h
            ≡ with_attribute (head_view self) position (string_bytes key.text) value) }
    {
        let Head {
            name,
            mut attributes,
            position: tag,
            mut later,
        } = self;
        let key = key.into_text();
        add_later(alloc, &mut later, attributes.len(), key.as_str())?;
        attributes.push(Attribute {
            name: key,
            value,
            position,
        })?;
        Ok(Head {
            name,
            attributes,
            position: tag,
            later,
        })
    }
}

/// Adds a name, unless it is one of the first.
fn add_later(alloc: Global, later: &mut Names, count: usize, name: &str) -> Result<(), AllocError>
    ensures { OnOk result ((names : List (List ℕ)) → HasNames later.old names
        → HasNames later.new (if nat_le 8 count then names ++ name.now ∷ [] else names)) }
{
    if count < NEAR {
        return Ok(());
    }
    later.add(alloc, name)
}

fn near(attributes: &[Attribute]) -> &[Attribute]
    ensures { result.now ≡ take 8 attributes.now }
{
    if attributes.len() <= NEAR {
        return attributes;
    }
    &attributes[..NEAR]
}

/// An attribute of this name and value, whose name stands at that position.
fn attribute_of(
    alloc: Global,
    position: Position,
    name: &str,
    value: &str,
) -> Result<Attribute, DocError>
    requires name { length name.now ≤ 4096 }
    requires value { length value.now ≤ 4096 }
    ensures made { IfOk result (λ a. attr_view a
        ≡ record { name = name.now; value = value.now; position = position }) }
    ensures memory { IfErr result (λ e. e ≡ fault.Memory) }
{
    // Both are short, so nothing but memory can be wanting.
    let Ok(name) = Text::from_str(alloc, name) else {
        return Err(DocError::Memory);
    };
    let Ok(value) = Text::from_str(alloc, value) else {
        return Err(DocError::Memory);
    };
    Ok(Attribute {
        name,
        value,
        position,
    })
}

/// Has one of these this name?
fn is_named(attributes: &[Attribute], name: &str) -> bool
    ensures { result ≡ is_among name.now (names_of attributes.now) }
{
    for attribute in attributes {
        if attribute.name.equals(name) {
            return true;
        }
    }
    false
}
