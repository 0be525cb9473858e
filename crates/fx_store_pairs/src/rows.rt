//! For each name the names that stand in a pair with it, so that those of a name are found without a look at all pairs.
ghost use Rattle.std.specs.Prelude.{◌≡◌, ◌==◌, ◌++◌, ◌∷◌, [], ℕ, All, IsTrue, List, OnErr, OnOk};
ghost use Rattle.std.specs.Prelude.{filter, if◌then◌else◌, not};
ghost use Rattle.std.specs.Bool.{OnFalse};
ghost use Rattle.std.specs.List.{position};
ghost use Rattle.std.specs.Set.{remove_key};
ghost use Rattle.fx_base.specs.declared.keys.Name.{Name as Named};
ghost use Rattle.fx_base.specs.Names.{numbers};
ghost use Rattle.fx_store_pairs.specs.Pairs.{is_among as stands_among};
ghost use Rattle.fx_store_pairs.specs.Rows.{partners, row, without_last, without_partner};

use crate::searching::{Searched, is_among};
use fx_base::Name;
use std::alloc::{AllocError, Global};
use std::collections::HashMap;

/// The partners of names in the order of their pairs, under the number of each. A row that has become empty stays for
/// the pairs to come, until its name is forgotten.
#[derive(Drop)]
pub struct Rows {
    rows: HashMap<u32, Vec<Name>>,
}

impl Rows {
    pub fn new(alloc: Global) -> Rows
        ensures { (name : ℕ) → row result name ≡ [] }
    {
        Rows {
            rows: HashMap::new(alloc),
        }
    }

    /// The partners of a name.
    pub fn row(&self, name: Name) -> &[Name]
        ensures { numbers result.now ≡ row self.now name.0 }
    {
        match self.rows.get(&name.0) {
            Some(others) => others.as_slice(),
            None => &[],
        }
    }

    /// Puts a partner behind those of a name.
    fn push(&mut self, name: Name, other: Name) -> Result<(), AllocError>
        ensures ok { OnOk result ((number : ℕ) → row self.new number
            ≡ (if name.0 == number then row self.old number ++ other.0 ∷ [] else row self.old number)) }
        ensures err { OnErr result ((number : ℕ) → row self.new number ≡ row self.old number) }
    {
        self.rows.entry(name.0)?.or_default().push(other)?;
        Ok(())
    }

    /// Takes the last partner from a name.
    fn pop(&mut self, name: Name)
        ensures { (number : ℕ) → row self.new number
            ≡ (if name.0 == number then without_last (row self.old number) else row self.old number) }
    {
        if let Some(others) = self.rows.get_mut(&name.0) {
            drop_last(others);
        }
    }

    /// Takes the first of these partners from a name.
    fn remove(&mut self, name: Name, other: Name)
        ensures { (number : ℕ) → row self.new number
            ≡ (if name.0 == number then remove_key (λ (partner : ℕ). partner == other.0) (row self.old number)
            else row self.old number) }
    {
        if let Some(others) = self.rows.get_mut(&name.0) {
            remove_first(others, other);
        }
    }

    /// Whether the other stands in a pair with the name.
    pub fn has(&self, name: Name, other: Name) -> bool
        ensures { result ≡ stands_among (row self.now name.0) other.0 }
    {
        is_among(self.row(name), other)
    }

    /// A further pair, behind the others.
    pub fn add_pair(&mut self, one: Name, other: Name) -> Result<(), AllocError>
        ensures ok { OnOk result ((number : ℕ) → row self.new number
            ≡ row self.old number ++ partners number ((one.0, other.0) ∷ [])) }
        ensures err { OnErr result ((number : ℕ) → row self.new number ≡ row self.old number) }
    {
        self.push(one, other)?;
        if one.0 == other.0 {
            return Ok(());
        }
        if self.push(other, one).is_err() {
            self.pop(one);
            return Err(AllocError);
        }
        Ok(())
    }

    /// Takes back the last pair, which is of these two.
    pub fn remove_last_pair(&mut self, one: Name, other: Name)
        ensures { (number : ℕ) (others : List ℕ)
            → row self.old number ≡ others ++ partners number ((one.0, other.0) ∷ [])
            → row self.new number ≡ others }
    {
        self.pop(one);
        if one.0 != other.0 {
            self.pop(other);
        }
    }

    /// Ends the first pair of the two.
    pub fn remove_first_pair(&mut self, one: Name, other: Name)
        ensures { (number : ℕ) → row self.new number ≡ without_partner one.0 other.0 number (row self.old number) }
    {
        self.remove(one, other);
        if one.0 != other.0 {
            self.remove(other, one);
        }
    }

    /// Whether one of the names has a row.
    pub fn has_one_of(&self, names: &[Name]) -> bool
        ensures { OnFalse result (All (λ (name : Named). row self.now name.0 ≡ []) names.now) }
    {
        names.iter().any(|name| self.rows.contains_key(&name.0))
    }

    /// Ends the rows of these names, and takes them from the rows of others.
    pub fn forget(&mut self, names: &Searched)
        ensures { (number : ℕ) → row self.new number
            ≡ (if stands_among names.now number then []
            else filter (λ (partner : ℕ). not (stands_among names.now partner)) (row self.old number)) }
    {
        self.rows
            .retain(|number, others| keep_others(others, Name(*number), names));
    }
}

fn drop_last(others: &mut Vec<Name>)
    ensures { numbers others.new.items ≡ without_last (numbers others.old.items) }
{
    others.pop();
}

fn place_of(others: &[Name], other: Name) -> Option<usize>
    ensures { result ≡ position (λ (partner : Named). partner.0 == other.0) others.now }
{
    others.iter().position(|partner| partner.0 == other.0)
}

fn remove_first(others: &mut Vec<Name>, other: Name)
    ensures { numbers others.new.items ≡ remove_key (λ (partner : ℕ). partner == other.0) (numbers others.old.items) }
{
    if let Some(place) = place_of(others.as_slice(), other) {
        others.remove(place);
    }
}

fn drop_those(others: &mut Vec<Name>, names: &Searched)
    ensures { numbers others.new.items
        ≡ filter (λ (partner : ℕ). not (stands_among names.now partner)) (numbers others.old.items) }
{
    others.retain(|partner| !names.has(*partner));
}

/// Leaves those of a name's partners that are not among the names; whether the name isn't among them either.
fn keep_others(others: &mut Vec<Name>, name: Name, names: &Searched) -> bool
    ensures kept { result ≡ not (stands_among names.now name.0) }
    ensures others { IsTrue result → numbers others.new.items
        ≡ filter (λ (partner : ℕ). not (stands_among names.now partner)) (numbers others.old.items) }
{
    if names.has(name) {
        return false;
    }
    drop_those(others, names);
    true
}
