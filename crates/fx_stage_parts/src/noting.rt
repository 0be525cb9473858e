//! What is kept of a listener beside the store: the path by which it was asked for, and the action that it runs.
ghost use Rattle.std.specs.Prelude.{◌≡◌, ◌<◌, ◌≤◌, true, ◌++◌, ◌∷◌, [], All, OnOk, option_to_list, vec_capacity, vec_len};
ghost use Rattle.fx_stage_parts.specs.Noting.{has_listener_behind, run_if, written_if};
ghost use Rattle.indexmap.specs.IndexMap.{spare};

use fx_base::{List, Text};
use fx_store::Store;
use indexmap::IndexMap;
use std::alloc::AllocError;

/// Whether there is a listener of the number behind this one.
pub fn has_new(store: &Store, given: u32) -> bool
    ensures { result ≡ has_listener_behind given store.now.listeners }
{
    given < u32::MAX && store.is_listening(given + 1)
}

/// Keeps what is to be kept of a listener, if it is there.
pub fn note_if(
    there: bool,
    run: &mut Vec<Text>,
    written: &mut IndexMap<u32, List<Text>>,
    given: u32,
    asked: List<Text>,
    runs: Option<Text>,
)
    requires number { there ≡ true → given < 4294967295 }
    requires run_room { vec_len run.old < vec_capacity run.old }
    requires written_room { 0 < spare written.old }
    requires new { All (λ entry. entry.0 ≤ given) written.old.entries }
    ensures run { run.new.items ≡ run_if there runs run.old.items }
    ensures written { written.new.entries ≡ written_if there given asked written.old.entries }
{
    if !there {
        return;
    }
    note(run, written, given + 1, asked, runs);
}

/// Makes room for one more action and one more path.
pub fn reserve_note(
    run: &mut Vec<Text>,
    written: &mut IndexMap<u32, List<Text>>,
) -> Result<(), AllocError>
    ensures run { run.new.items ≡ run.old.items }
    ensures written { written.new.entries ≡ written.old.entries }
    ensures run_room { OnOk result (vec_len run.new < vec_capacity run.new) }
    ensures written_room { OnOk result (0 < spare written.new) }
{
    run.reserve(1)?;
    written.reserve(1)
}

/// Keeps the path of a new listener, and the action that it runs if that is a new one.
fn note(
    run: &mut Vec<Text>,
    written: &mut IndexMap<u32, List<Text>>,
    number: u32,
    asked: List<Text>,
    runs: Option<Text>,
)
    requires run_room { vec_len run.old < vec_capacity run.old }
    requires written_room { 0 < spare written.old }
    requires new { All (λ entry. entry.0 < number) written.old.entries }
    ensures run { run.new.items ≡ run.old.items ++ option_to_list runs }
    ensures written { written.new.entries ≡ written.old.entries ++ (number, asked) ∷ [] }
{
    if let Some(action) = runs {
        match run.push(action) {
            Ok(()) => {}
            Err(_) => unreachable!(),
        }
    }
    match written.insert(number, asked) {
        Ok(_) => {}
        Err(_) => unreachable!(),
    }
}
