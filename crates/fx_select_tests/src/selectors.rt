//! The parts of a selector are counted. Which nodes selectors match, and which rules match a node, as the reference
//! player says, are stored cases of style_cases.
ghost use Rattle.std.specs.Prelude.{IsTrue, ◌≤◌};
ghost use Rattle.fx_css_types.specs.Specificity.{part_count};

use fx_css_parts::read_selectors;
use fx_css_types::Selector;
use fx_select::specificity;
use std::test::Fail;

fn is_short(selector: &Selector) -> bool
    ensures { IsTrue result → part_count selector.now ≤ 4194304 }
{
    let mut count = 0usize;
    for compound in selector.compounds.as_slice() {
        let classes = compound.classes.as_slice().len();
        let ids = compound.ids.as_slice().len();
        let pseudos = compound.pseudos.as_slice().len();
        if count > 1000 || classes > 1000 || ids > 1000 || pseudos > 1000 {
            return false;
        }
        count += classes + ids + pseudos + 1;
    }
    true
}

fn weight(selector: &Selector) -> Option<(u32, u32, u32)> {
    if !is_short(selector) {
        return None;
    }
    Some(specificity(selector))
}

#[test]
fn counts_parts(rt: HostRuntime) -> Result<(), Fail> {
    let read = read_selectors(rt.alloc(), b"HBox > .a:hover #x")?.ok_or("no selectors")?;
    match read.selectors.as_slice() {
        [only] => assert!(rt; weight(only) == Some((1, 2, 1))),
        _ => return Err(Fail::from("not one selector")),
    }
    Ok(())
}
