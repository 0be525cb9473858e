//! The properties of a node in a store.
use fx_base::{Kind, Name};
use fx_kinds::Class;
use fx_stage_rows::{declare_rows, row_count};
use fx_store::Store;
use std::alloc::Global;

fn has_a_region(store: &mut Store, alloc: Global) -> bool {
    if store.count() != 0 || row_count(Class::Region) != 15 {
        return false;
    }
    let Ok(first) = declare_rows(store, alloc, Class::Region) else {
        return false;
    };
    first == 0
        && store.kind(Name(14)) == Some(Kind::Int)
        && store.is_read_only(Name(14))
        && store.kind(Name(15)).is_none()
}

#[test]
fn a_region_has_its_properties_in_their_order(rt: HostRuntime) {
    let alloc = rt.alloc();
    let mut store = Store::new(alloc);
    assert!(rt; has_a_region(&mut store, alloc));
}
