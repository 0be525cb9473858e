//! What wins on one node, its style, and the paints that are looked up on it. Looks after updates are stored cases of
//! style_cases.
ghost use Rattle.std.specs.Prelude.{◌≡◌};
ghost use Rattle.fx_css_types.specs.Limits.{AreWithinLimits};

use crate::scenes::{BLUE, sheets};
use fx_base::{Ledgers, Text, Work};
use fx_cascade::{Source, Winner, best, declarations_at, is_below};
use fx_css_types::{Candidate, SheetAt, SheetOrigin};
use fx_lookup::{NamedPaint, nearest, resolve};
use fx_node_style::{Ground, NodeStyle, Room, style_in};
use std::alloc::{AllocError, Global};
use std::marker::Brand;
use std::process::Abort;
use std::sync::ledger::Blank;
use std::test::Fail;

/// The rule of the sheet, as it matches a button.
const MATCHED: [Candidate; 1] = [Candidate {
    sheet: 1,
    rule: 0,
    specificity: (0, 0, 1),
    origin: SheetOrigin::Scene,
}];

const TEXT: &str = "Button{-fx-padding:1;-c:red;-c:blue;-d:-c}";

/// Does the second of the colours win?
fn does_blue_win(sheets: &[SheetAt]) -> bool {
    let (red, blue) = (Source::Declared(0, 1), Source::Declared(0, 2));
    declarations_at(sheets, &MATCHED[0]).len() == 4
        && best(sheets, &MATCHED, &[], "-c") == Some(Winner::Declared(0, 2))
        && is_below(&MATCHED, red, blue)
        && !is_below(&MATCHED, blue, red)
}

#[test]
fn the_later_declaration_wins(rt: HostRuntime) -> Result<(), Fail> {
    let sheets = sheets(rt.alloc(), TEXT)?;
    assert!(rt; does_blue_win(sheets.as_slice()));
    Ok(())
}

/// The style of a button.
fn button<L: Ledgers>(
    alloc: Global,
    sheets: &[SheetAt],
    work: &mut Work<L>,
) -> Result<NodeStyle, AllocError>
    requires { AreWithinLimits sheets.now }
{
    let ground = Ground {
        sheets,
        matched: &MATCHED,
        codes: &[],
        alignment: 4,
        parent: None,
        above: &[],
    };
    style_in(alloc, Room::new(alloc), ground, work)
}

/// Is the second of the colours found, by the name of its name?
fn is_found(alloc: Global, paints: &[NamedPaint]) -> Result<bool, Fail> {
    let chain = [paints];
    let name = Text::from_str(alloc, "-d")?;
    let color = resolve(alloc, &name, &chain)?;
    Ok(nearest(&chain, "-d").is_some() && color == Some(BLUE))
}

fn paint<L: Ledgers, R: Abort + AllocGlobal>(
    rt: &R,
    evaluated: Blank,
    styled: Blank,
    laid: Blank,
    painted: Blank,
) -> Result<(), Fail>
    requires evaluated { (evaluated.name ≡ L.evaluated_name) × (evaluated.parts ≡ 1) }
    requires styled { (styled.name ≡ L.styled_name) × (styled.parts ≡ 1) }
    requires laid { (laid.name ≡ L.laid_name) × (laid.parts ≡ 1) }
    requires painted { (painted.name ≡ L.painted_name) × (painted.parts ≡ 1) }
{
    let alloc = rt.alloc();
    let mut work: Work<L> = Work::new(evaluated, styled, laid, painted);
    let sheets = sheets(alloc, TEXT)?;
    let style = button(alloc, sheets.as_slice(), &mut work)?;
    assert!(rt; style.look.padding.top == 1);
    assert!(rt; is_found(alloc, style.paints.as_slice())?);
    Ok(())
}

#[test]
fn paints_are_kept_and_looked_up(rt: HostRuntime) -> Result<(), Fail> {
    paint::<Brand, HostRuntime>(
        &rt,
        Blank::new(1),
        Blank::new(1),
        Blank::new(1),
        Blank::new(1),
    )
}
