//! Edges of one binding: room for them, their end and their making. A binding makes room first, so that what follows
//! can't fail.
ghost use Rattle.std.specs.Prelude.{ℕ, ◌≡◌, ◌≤◌, ◌<◌, ◌+◌, ◌++◌, ◌∷◌, [], ◌==◌, not, filter, slice_set, Contains, length, OnOk, OnErr};
ghost use Rattle.fx_base.specs.Names.{numbers};
ghost use Rattle.fx_graph_model.specs.declared.entries.Entry.{Entry as Stored};
ghost use Rattle.fx_graph_model.specs.Uses.{operands_in, uses};
ghost use Rattle.fx_graph_model.specs.Users.{users_of, room_of, Mirrors, Unlinks, Links, Roomier};
ghost use Rattle.fx_graph_edges.specs.Rows.{row_of};

use crate::users::Users;
use fx_base::Name;
use fx_graph_model::{Definition, Entry};
use std::alloc::AllocError;

fn reserve_row(users: &mut [Users], place: usize, count: usize) -> Result<(), AllocError>
    requires { place < length users.old }
    ensures set { users.new ≡ slice_set users.old place (row_of users.new place) }
    ensures items { (row_of users.new place).items ≡ users_of users.old place }
    ensures room { OnOk result (count ≤ (row_of users.new place).room) }
{
    let row = &mut users[place];
    row.reserve(count)
}

/// Makes room in the rows of these names for as many users as there are names.
fn reserve_links(users: &mut [Users], operands: &[Name]) -> Result<(), AllocError>
    requires { (name : ℕ) → Contains (numbers operands.now) name → name < length users.old }
    ensures rows { length users.new ≡ length users.old }
    ensures same { (name : ℕ) → users_of users.new name ≡ users_of users.old name }
    ensures ok { OnOk result (Roomier (numbers operands.now) (length operands.now) users.old users.new) }
{
    for operand in operands {
        reserve_row(users, operand.0 as usize, operands.len())?;
    }
    Ok(())
}

fn unlink_one(users: &mut [Users], place: usize, user: usize)
    requires { place < length users.old }
    ensures set { users.new ≡ slice_set users.old place (row_of users.new place) }
    ensures items { (row_of users.new place).items ≡ filter (λ k. not (k == user)) (users_of users.old place) }
    ensures room { room_of users.old place ≤ (row_of users.new place).room }
{
    let row = &mut users[place];
    row.remove(user);
}

/// Takes the user out of the rows of these names.
fn unlink(users: &mut [Users], operands: &[Name], user: usize)
    requires { (name : ℕ) → Contains (numbers operands.now) name → name < length users.old }
    ensures unlinked { Unlinks user (numbers operands.now) users.old users.new }
    ensures grown { (name : ℕ) → room_of users.old name ≤ room_of users.new name }
{
    for operand in operands {
        unlink_one(users, operand.0 as usize, user);
    }
}

/// Takes the user out of the rows of what its definition reads.
pub fn release(users: &mut [Users], definition: &Definition, user: usize)
    requires { (name : ℕ) → Contains (operands_in definition.now) name → name < length users.old }
    ensures unlinked { Unlinks user (operands_in definition.now) users.old users.new }
    ensures grown { (name : ℕ) → room_of users.old name ≤ room_of users.new name }
{
    match definition {
        Definition::Base(_) => {}
        Definition::Bound(_, operands) => unlink(users, operands.as_slice(), user),
        Definition::Forgotten => {}
    }
}

fn link_one(users: &mut [Users], place: usize, user: usize)
    requires known { place < length users.old }
    requires room { 0 < room_of users.old place }
    ensures set { users.new ≡ slice_set users.old place (row_of users.new place) }
    ensures items { (row_of users.new place).items ≡ users_of users.old place ++ user ∷ [] }
    ensures room { room_of users.old place ≤ (row_of users.new place).room + 1 }
{
    let row = &mut users[place];
    row.push(user);
}

/// Puts the user into the rows of these names, where there is room.
fn link(users: &mut [Users], operands: &[Name], user: usize)
    requires known { (name : ℕ) → Contains (numbers operands.now) name → name < length users.old }
    requires room { (name : ℕ) → Contains (numbers operands.now) name → length operands.now ≤ room_of users.old name }
    ensures { Links user (numbers operands.now) users.old users.new }
{
    for operand in operands {
        link_one(users, operand.0 as usize, user);
    }
}

/// Takes the name out of the rows of what it reads.
pub fn release_at(entries: &[Entry], users: &mut [Users], name: usize)
    requires known { name < length entries.now }
    requires used { (operand : ℕ) → Contains (uses entries.now name) operand → operand < length users.old }
    ensures unlinked { Unlinks name (uses entries.now name) users.old users.new }
    ensures grown { (operand : ℕ) → room_of users.old operand ≤ room_of users.new operand }
{
    release(users, &entries[name].definition, name);
}

/// Makes the edges of a binding of the name to these operands in place of those that it has.
pub fn relink(
    entries: &[Entry],
    users: &mut [Users],
    operands: &[Name],
    name: usize,
) -> Result<(), AllocError>
    requires mirrors { Mirrors entries.now users.old }
    requires known { name < length entries.now }
    requires used { (operand : ℕ) → Contains (uses entries.now name) operand → operand < length entries.now }
    requires operands { (operand : ℕ) → Contains (numbers operands.now) operand → operand < length entries.now }
    ensures err { OnErr result (Mirrors entries.now users.new) }
    ensures ok { OnOk result ((entry : Stored) → operands_in entry.definition ≡ numbers operands.now
        → Mirrors (slice_set entries.now name entry) users.new) }
{
    reserve_links(users, operands)?;
    release_at(entries, users, name);
    link(users, operands, name);
    Ok(())
}
