//! The style of a node from the rules that match it and the styles of its ancestors.
ghost use Rattle.std.specs.Prelude.{◌≡◌, ◌∷◌, ◌+◌, IfOk, OnOk, map};
ghost use Rattle.std.specs.Option.{option_copied};
ghost use Rattle.fx_look.specs.Looks.{initial_look};
ghost use Rattle.fx_lookup.specs.Lookups.{resolved};
ghost use Rattle.fx_css_types.specs.Limits.{AreWithinLimits};
ghost use Rattle.fx_cascade.specs.Tables.{AreRows};
ghost use Rattle.fx_node_style.specs.Keeping.{paints_of};
ghost use Rattle.fx_node_style.specs.Looking.{look_of, rows_of};
ghost use Rattle.fx_node_style.specs.Styling.{inherited, style_under, style_with};
ghost use Rattle.fx_node_style.specs.Values.{WinsBy, row_value};

use crate::keeping::kept_paints;
use crate::looking::{Rows, write_look};
use crate::node_styles::NodeStyle;
use crate::rooms::Room;
use fx_base::{Ledgers, List, Work};
use fx_cascade::Winners;
use fx_css_types::{Candidate, SheetAt};
use fx_look::{CodeValue, Look};
use fx_lookup::NamedPaint;
use std::alloc::{AllocError, Global};
use std::mem;

/// What the style of a node hangs on: the sheets and the rules of them that match it, its code values, the alignment of
/// its class, its parent's look, and the paints of its ancestors from the nearest.
#[derive(Clone, Copy)]
pub struct Ground<'a> {
    pub sheets: &'a [SheetAt],
    pub matched: &'a [Candidate],
    pub codes: &'a [CodeValue],
    pub alignment: u8,
    pub parent: Option<&'a Look>,
    pub above: &'a [&'a [NamedPaint]],
}

/// The style of a node, in the room of one that is gone, or in new room. Counts one styled node.
pub fn style_in<L: Ledgers>(
    alloc: Global,
    room: Room,
    ground: Ground<'_>,
    work: &mut Work<L>,
) -> Result<NodeStyle, AllocError>
    requires rows { AreRows ground.codes.now }
    requires sheets { AreWithinLimits ground.sheets.now }
    ensures style { IfOk result (λ style. style
        ≡ style_under ground.entry.sheets.now ground.entry.matched.now ground.entry.codes.now ground.entry.alignment
        (option_copied ground.entry.parent) (map (λ n. n.now) ground.entry.above.now)) }
    ensures cost { work.new ≡ record work.old { styled = work.old.styled + 1 } }
{
    let mut style = room.into_style();
    let mut winners = Winners::new(alloc);
    restyle(alloc, &mut style, &mut winners, ground, work)?;
    Ok(style)
}

/// Makes the style of a node as `style_in` does, in the place of another style and in this table of winners, whatever
/// they hold.
pub fn restyle<L: Ledgers>(
    alloc: Global,
    style: &mut NodeStyle,
    winners: &mut Winners,
    ground: Ground<'_>,
    work: &mut Work<L>,
) -> Result<(), AllocError>
    requires rows { AreRows ground.codes.now }
    requires sheets { AreWithinLimits ground.sheets.now }
    ensures style { OnOk result (style.new
        ≡ style_under ground.entry.sheets.now ground.entry.matched.now ground.entry.codes.now ground.entry.alignment
        (option_copied ground.entry.parent) (map (λ n. n.now) ground.entry.above.now)) }
    ensures cost { work.new ≡ record work.old { styled = work.old.styled + 1 } }
{
    winners.clear();
    winners.find(alloc, ground.sheets, ground.matched, ground.codes, work)?;
    write_style(alloc, style, ground, winners)
}

#[tactic(auto, unfolding(crate::specs::Styling::style_under))]
fn write_style(
    alloc: Global,
    style: &mut NodeStyle,
    ground: Ground<'_>,
    winners: &Winners,
) -> Result<(), AllocError>
    requires wins { WinsBy winners.now ground.sheets.now ground.matched.now ground.codes.now }
    requires sheets { AreWithinLimits ground.sheets.now }
    ensures { OnOk result (style.new
        ≡ style_under ground.entry.sheets.now ground.entry.matched.now ground.entry.codes.now ground.entry.alignment
        (option_copied ground.entry.parent) (map (λ n. n.now) ground.entry.above.now)) }
{
    let rows = Rows {
        sheets: ground.sheets,
        matched: ground.matched,
        codes: ground.codes,
        winners,
    };
    let room = mem::replace(&mut style.paints, List::new(alloc)).into_vec();
    let paints = kept_paints(alloc, room, rows)?;
    write_look_by(alloc, &mut style.look, rows, ground, paints.as_slice())?;
    style.paints = List::from_vec(paints);
    Ok(())
}

fn write_look_by<'a>(
    alloc: Global,
    look: &mut Look,
    rows: Rows<'a>,
    ground: Ground<'a>,
    paints: &'a [NamedPaint],
) -> Result<(), AllocError>
    requires wins { WinsBy rows.winners.now rows.sheets.now rows.matched.now rows.codes.now }
    ensures { OnOk result (look.new ≡ look_of (rows_of rows.entry)
        (resolved (paints.now ∷ map (λ n. n.now) ground.entry.above.now)) ground.entry.alignment
        (inherited ground.entry.alignment (option_copied ground.entry.parent))) }
{
    match paints {
        [] => {
            write_under(
                alloc,
                look,
                rows,
                ground.above,
                ground.alignment,
                ground.parent,
            )?;
            Ok(())
        }
        [_, ..] => {
            let chain = chain_of(alloc, paints, ground.above)?;
            write_under(
                alloc,
                look,
                rows,
                chain.as_slice(),
                ground.alignment,
                ground.parent,
            )
        }
    }
}

fn write_under<'a>(
    alloc: Global,
    look: &mut Look,
    rows: Rows<'a>,
    chain: &[&'a [NamedPaint]],
    alignment: u8,
    parent: Option<&Look>,
) -> Result<(), AllocError>
    requires wins { WinsBy rows.winners.now rows.sheets.now rows.matched.now rows.codes.now }
    ensures { OnOk result (look.new ≡ look_of (rows_of rows.entry) (resolved (map (λ n. n.now) chain.now)) alignment
        (inherited alignment (option_copied parent.entry))) }
{
    match parent {
        Some(parent) => write_look(alloc, look, rows, chain, alignment, parent),
        None => {
            let initial = Look::initial(alloc, alignment)?;
            write_look(alloc, look, rows, chain, alignment, &initial)
        }
    }
}

/// The paints of a node, followed by those of its ancestors.
fn chain_of<'a>(
    alloc: Global,
    paints: &'a [NamedPaint],
    above: &[&'a [NamedPaint]],
) -> Result<Vec<&'a [NamedPaint]>, AllocError>
    ensures { IfOk result (λ chain. map (λ n. n.now) chain.items ≡ paints.now ∷ map (λ n. n.now) above.now) }
{
    let mut chain = Vec::with_capacity(alloc, above.len() + 1)?;
    chain.push(paints)?;
    for node in above {
        chain.push(*node)?;
    }
    Ok(chain)
}
