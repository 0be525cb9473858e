//! Edges from a property to the properties that are bound to it. Marking follows them upwards, so that it looks at no
//! more than it marks.
ghost use Rattle.std.specs.Prelude.{◌≡◌, ◌+◌, ◌<◌, ◌≤◌, ◌++◌, ◌∷◌, [], ℕ, filter, not, ◌==◌, OnOk, vec_len, vec_capacity};

use std::alloc::{AllocError, Global};
use std::marker::Model;

/// Who reads a property, by places in the store; who reads it twice stands here twice. Contracts see these places and
/// for how many more there is room.
#[derive(Drop)]
pub struct Users {
    places: Vec<usize>,
}

impl Model for Users {
    ghost use Rattle.std.specs.Prelude.{◌-◌, vec_len, vec_capacity};
    ghost use Rattle.fx_graph_model.specs.Users.{Row};

    ghost Value = { Row };

    ghost view = { λ users. record {
      items = users.places.items;
      room = vec_capacity users.places - vec_len
          users.places;
    } };
}

impl Users {
    /// Nobody reads the property.
    pub fn new(alloc: Global) -> Users
        ensures { result.items ≡ [] }
    {
        Users {
            places: Vec::new(alloc),
        }
    }

    /// Who reads the property.
    pub fn as_slice(&self) -> &[usize]
        ensures { result.now ≡ self.now.items }
    {
        self.places.as_slice()
    }

    /// Makes room for so many more.
    pub fn reserve(&mut self, more: usize) -> Result<(), AllocError>
        ensures items { self.new.items ≡ self.old.items }
        ensures room { OnOk result (more ≤ self.new.room) }
        ensures grown { self.old.room ≤ self.new.room }
    {
        self.places.reserve(more)
    }

    /// Puts a user behind the others, where there is room.
    pub fn push(&mut self, user: usize)
        requires { 0 < self.old.room }
        ensures items { self.new.items ≡ self.old.items ++ user ∷ [] }
        ensures room { self.old.room ≤ self.new.room + 1 }
    {
        push_reserved(&mut self.places, user);
    }

    /// Takes the user out, as often as it stands here.
    pub fn remove(&mut self, user: usize)
        ensures items { self.new.items ≡ filter (λ k. not (k == user)) self.old.items }
        ensures room { self.old.room ≤ self.new.room }
    {
        self.places.retain(|place| *place != user);
    }
}

fn push_reserved(items: &mut Vec<usize>, item: usize)
    requires { vec_len items.old < vec_capacity items.old }
    ensures items { items.new.items ≡ items.old.items ++ item ∷ [] }
    ensures room { vec_capacity items.old ≤ vec_capacity items.new }
    ensures len { vec_len items.new ≡ vec_len items.old + 1 }
{
    match items.push(item) {
        Ok(()) => {}
        Err(_) => unreachable!(),
    }
}
