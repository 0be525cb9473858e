//! How specific a selector is (Selectors Level 3, "Calculating a selector's specificity").
//! Candidates carry it to the cascade.
ghost use Rattle.std.specs.Prelude.{◌≡◌, ◌≤◌};
ghost use Rattle.fx_css_types.specs.Specificity.{part_count, specificity_of};

use fx_css_types::Selector;

/// The number of its ids, of its classes and pseudo-classes, and of its types.
pub fn specificity(selector: &Selector) -> (u32, u32, u32)
    requires { part_count selector.now ≤ 4194304 }
    ensures { result ≡ specificity_of selector.now }
{
    let mut ids = 0usize;
    let mut classes = 0usize;
    let mut types = 0usize;
    let compounds = selector.compounds.as_slice();
    for compound in compounds {
        ids += compound.ids.as_slice().len();
        classes += compound.classes.as_slice().len() + compound.pseudos.as_slice().len();
        if compound.kind.is_some() {
            types += 1;
        }
    }
    (ids as u32, classes as u32, types as u32)
}
