//! A look and paints written in the place of others, which mostly hold the same lists already.
ghost use Rattle.std.specs.Prelude.{◌≡◌, ◌≤◌, ◌↔◌, ◌∷◌, [], IsTrue, OnOk, length};

use fx_base::{List, Same};
use fx_look::Look;
use fx_lookup::NamedPaint;
use std::alloc::{AllocError, Global};
use std::mem;

/// Makes a look one of the same contents as another.
pub fn write_copy(alloc: Global, look: &mut Look, from: &Look) -> Result<(), AllocError>
    ensures { OnOk result (look.new ≡ from.now) }
{
    write_list(alloc, &mut look.background_color, &from.background_color)?;
    write_list(alloc, &mut look.background_insets, &from.background_insets)?;
    write_list(alloc, &mut look.border_color, &from.border_color)?;
    write_list(alloc, &mut look.border_width, &from.border_width)?;
    write_list(alloc, &mut look.border_insets, &from.border_insets)?;
    look.padding = from.padding;
    look.alignment = from.alignment;
    look.spacing = from.spacing;
    look.hgap = from.hgap;
    look.vgap = from.vgap;
    look.fill_width = from.fill_width;
    look.fill_height = from.fill_height;
    look.min_width = from.min_width;
    look.min_height = from.min_height;
    look.pref_width = from.pref_width;
    look.pref_height = from.pref_height;
    look.max_width = from.max_width;
    look.max_height = from.max_height;
    look.text_fill = from.text_fill;
    look.font_size = from.font_size;
    look.wrap_text = from.wrap_text;
    look.visibility = from.visibility;
    Ok(())
}

/// Makes a list one of the same items, with room for no more than these: most have one.
fn write_list<T: Same + Copy>(
    alloc: Global,
    list: &mut List<T>,
    from: &List<T>,
) -> Result<(), AllocError>
    ensures { OnOk result (list.new ≡ from.now) }
{
    if list.is_same(from) {
        return Ok(());
    }
    let mut items = mem::replace(list, List::new(alloc)).into_vec();
    items.clear();
    items.reserve_exact(from.as_slice().len())?;
    items.extend_from_slice(from.as_slice())?;
    *list = List::from_vec(items);
    Ok(())
}

/// Makes a list of paints one of the same contents as another.
pub fn write_paints(
    alloc: Global,
    paints: &mut List<NamedPaint>,
    from: &List<NamedPaint>,
) -> Result<(), AllocError>
    ensures { OnOk result (paints.new ≡ from.now) }
{
    if are_same_few(paints.as_slice(), from.as_slice()) {
        return Ok(());
    }
    *paints = from.copy(alloc)?;
    Ok(())
}

/// Are the paints the same, and at most one, as most nodes have?
fn are_same_few(paints: &[NamedPaint], others: &[NamedPaint]) -> bool
    ensures same { IsTrue result → paints.now ≡ others.now }
    ensures only { length paints.now ≤ 1 → paints.now ≡ others.now → IsTrue result }
{
    match paints {
        [] => others.is_empty(),
        [paint] => is_only(paint, others),
        _ => false,
    }
}

fn is_only(paint: &NamedPaint, others: &[NamedPaint]) -> bool
    ensures { IsTrue result ↔ (paint.now ∷ [] ≡ others.now) }
{
    match others {
        [other] => is_same_paint(paint, other),
        _ => false,
    }
}

fn is_same_paint(one: &NamedPaint, other: &NamedPaint) -> bool
    ensures { IsTrue result ↔ (one.now ≡ other.now) }
{
    one.name.is_same(&other.name) && one.paint.is_same(&other.paint)
}
