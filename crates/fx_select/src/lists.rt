//! Lists of selectors by a name: an id, a class or a type.
//! The index keeps three of them.
ghost use Rattle.std.specs.Prelude.{◌≡◌, ◌++◌, ◌∷◌, [], ℕ, List, OnOk, if◌then◌else◌};
ghost use Rattle.std.specs.Str.{bytes_eq};
ghost use Rattle.fx_select.specs.Named.{grouped, under};

use std::alloc::{AllocError, Global};
use std::collections::HashMap;
use std::marker::Model;

/// A selector by the places of its sheet and rule and its own place there, or a rule that has no selector.
#[derive(Clone, Copy, PartialEq, Eq, Debug)]
pub struct SelectorAt {
    pub sheet: usize,
    pub rule: usize,
    pub selector: Option<usize>,
}

/// One list of selectors for each name. Contracts see the names with their lists.
#[derive(Drop)]
pub struct NamedLists {
    lists: HashMap<String, Vec<SelectorAt>>,
}

impl Model for NamedLists {
    ghost use Rattle.std.specs.Prelude.{ℕ, List};
    ghost use Rattle.fx_select.specs.declared.lists.SelectorAt.{SelectorAt as Listed};
    ghost use Rattle.fx_select.specs.Named.{entries_of};

    ghost Value = { List (List ℕ × List Listed) };

    ghost view = { λ l. entries_of l.lists };
}

impl NamedLists {
    /// Nothing is listed.
    pub fn new(alloc: Global) -> NamedLists
        ensures { result ≡ [] }
    {
        NamedLists {
            lists: HashMap::new(alloc),
        }
    }

    /// Puts a selector behind those of a name.
    pub fn add(&mut self, alloc: Global, name: &str, at: SelectorAt) -> Result<(), AllocError>
        ensures { OnOk result ((other : List ℕ) → under self.new other
            ≡ (if bytes_eq other name.now then under self.old other ++ at ∷ [] else under self.old other)) }
    {
        push_under(alloc, &mut self.lists, name, at)
    }

    /// The selectors of a name.
    pub fn under(&self, name: &str) -> &[SelectorAt]
        ensures { result.now ≡ under self.now name.now }
    {
        list_under(&self.lists, name)
    }
}

fn push_under(
    alloc: Global,
    lists: &mut HashMap<String, Vec<SelectorAt>>,
    name: &str,
    at: SelectorAt,
) -> Result<(), AllocError>
    ensures { OnOk result ((other : List ℕ) → grouped lists.new other
        ≡ (if bytes_eq other name.now then grouped lists.old other ++ at ∷ [] else grouped lists.old other)) }
{
    let key = String::from_str(alloc, name)?;
    lists.entry(key)?.or_default().push(at)?;
    Ok(())
}

#[tactic(auto, using(crate::proofs::NamedLemmas::none_grouped))]
fn list_under<'a>(lists: &'a HashMap<String, Vec<SelectorAt>>, name: &str) -> &'a [SelectorAt]
    ensures { result.now ≡ grouped lists.now name.now }
{
    // Most indexes have no ids, and many no classes: nothing is hashed for those.
    if lists.is_empty() {
        return &[];
    }
    match lists.get(name) {
        Some(list) => list.as_slice(),
        None => &[],
    }
}
