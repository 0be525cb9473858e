//! Whether there is room for more properties and for more nodes.
ghost use Rattle.std.specs.Prelude.{◌≡◌, ◌+◌, ◌||◌, is_some, length, nat_le, nat_lt};
ghost use Rattle.std.specs.Map.{lookup};
ghost use Rattle.std.specs.Str.{bytes_eq};
ghost use Rattle.fx_kinds.specs.Properties.{rows_of};
ghost use Rattle.fx_stage_model.specs.Graphs.{is_full_of_nodes};

use fx_base::{Name, Text};
use fx_kinds::Class;
use fx_stage_graph::Graph;
use fx_stage_rows::row_count;
use fx_stage_tables::NameMap;
use fx_store::Store;

/// The most free properties of a script.
const MOST_FREE: usize = 10_000;

/// The most names that are ever declared.
const MOST_NAMES: usize = 4_000_000;

/// Whether there is a free property of this name.
pub fn has_free(free: &NameMap<Name>, name: &Text) -> bool
    ensures { result ≡ is_some (lookup (bytes_eq name.now) free.now.entries) }
{
    free.get(name).is_some()
}

/// Whether no further free property can be declared.
pub fn has_no_room(free: &NameMap<Name>, store: &Store) -> bool
    ensures { result ≡ (nat_le 10000 (length free.now.entries) || nat_le 4000000 (length store.now.entries)) }
{
    free.len() >= MOST_FREE || store.count() >= MOST_NAMES
}

/// Whether no further node of the class can be made.
pub fn has_no_room_for(graph: &Graph, store: &Store, class: Class) -> bool
    ensures { result ≡ (is_full_of_nodes graph.now
        || nat_lt 4000000 (length store.now.entries + length (rows_of class))) }
{
    store.laws();
    graph.is_full() || store.count() + row_count(class) > MOST_NAMES
}
