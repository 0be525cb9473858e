//! Declaring the properties of a node.
ghost use Rattle.std.specs.Prelude.{◌≡◌, ◌+◌, ◌<◌, ◌≤◌, IfOk, OnErr, OnOk, length};
ghost use Rattle.fx_kinds.specs.Properties.{rows_of};
ghost use Rattle.fx_stage_model.specs.Nodes.{with_rows};
ghost use Rattle.fx_stage_rows.specs.Passed.{IsPassed};

use fx_base::Value;
use fx_graph::Rows;
use fx_kinds::{Class, initial, properties};
use fx_store::Store;
use std::alloc::{AllocError, Global};

/// How many properties a node of the class has.
pub fn row_count(class: Class) -> usize
    ensures count { result ≡ length (rows_of class) }
    ensures small { result < 100 }
{
    properties(class).len()
}

/// Declares the properties of a node of the class, in the order of its rows, and answers the number of the first. Where
/// memory is wanting, numbers of names may be given to properties that nobody has.
pub fn declare_rows(store: &mut Store, alloc: Global, class: Class) -> Result<u32, AllocError>
    requires room { length store.old.entries + length (rows_of class) ≤ 4000000 }
    ensures first { IfOk result (λ first. first ≡ length store.old.entries) }
    ensures ok { OnOk result (store.new ≡ with_rows class (rows_of class) store.old) }
    ensures err { OnErr result (IsPassed store.old store.new) }
{
    let first = store.count() as u32;
    store.declare_all(alloc, &ClassRows { class })?;
    Ok(first)
}

/// The properties of a node of the class, as they are declared.
#[derive(Clone, Copy)]
struct ClassRows {
    class: Class,
}

impl Rows for ClassRows {
    ghost use Rattle.fx_stage_rows.specs.Passed.{declared_rows};

    ghost rows = { λ it. declared_rows it.class };

    fn count(&self) -> usize {
        row_count(self.class)
    }

    fn row(&self, alloc: Global, place: usize) -> (bool, Value) {
        let row = &properties(self.class)[place];
        match initial(alloc, self.class, place) {
            Ok(value) => (row.read_only, value),
            Err(_) => unreachable!(),
        }
    }
}
