//! Owners of listeners by their labels.
ghost use Rattle.std.specs.Prelude.{◌≡◌};
ghost use Rattle.fx_stage_parts.specs.Owners.{is_label_living};

use fx_base::Text;
use fx_handles::Owner;
use fx_stage_tables::NameMap;
use fx_store::Store;

/// Whether the label is that of a living owner.
pub fn has_living_owner(labels: &NameMap<Owner>, store: &Store, label: &Text) -> bool
    ensures { result ≡ is_label_living labels.now.entries store.now.owners.living label.now }
{
    match labels.get(label) {
        None => false,
        Some(owner) => store.is_alive(*owner),
    }
}
