//! A sheet of rules of four forms, written and read.
ghost use Rattle.std.specs.Prelude.{IfOk, OnOk};
ghost use Rattle.fx_css_types.specs.Limits.{AreWithinLimits, IsWithinLimits};

use anyhow::anyhow;
use fx_css::{read_inline, read_sheet};
use fx_css_types::{SheetAt, SheetOrigin};
use std::alloc::{AllocError, Global};

/// What stands before each rule of a sheet with comments.
const COMMENT: &str = "/* one of many; {not a rule} */\n";

/// The text of so many rules, of which so many name the same class, with comments or without.
pub fn sheet_text(
    alloc: Global,
    rules: usize,
    sharing: usize,
    commented: bool,
) -> Result<String, AllocError> {
    let mut text = String::new(alloc);
    for rule in 0..rules {
        let class = if sharing == 0 { rule } else { rule / sharing };
        if commented {
            text.push_str(COMMENT)?;
        }
        text.push_str(heading(alloc, rule, class)?.as_str())?;
        text.push_str(body(rule))?;
    }
    Ok(text)
}

/// The selectors of a rule: ids, classes, types and pseudo-classes.
fn heading(alloc: Global, rule: usize, class: usize) -> Result<String, AllocError> {
    match rule % 4 {
        0 => format!(in alloc; ".c{class}.wide, #id{rule}:hover > .label"),
        1 => format!(in alloc; "Pane > .c{class}"),
        2 => format!(in alloc; ".root .c{class}, .d{rule} Label:focused"),
        _ => format!(in alloc; "Button.c{class}, Kind{rule}"),
    }
}

/// The declarations of a rule.
fn body(rule: usize) -> &'static str {
    match rule % 3 {
        0 => {
            " {\n    -fx-background-color: #1040a0, navy;\n    -fx-padding: 1 2 3 4;\n    -fx-spacing: 12;\n}\n"
        }
        1 => {
            " {\n    -fx-text-fill: rgb(10, 20, 30);\n    -fx-font-size: 14;\n    -fx-alignment: center-left;\n}\n"
        }
        _ => {
            " { -fx-pref-width: 120; -fx-border-width: 1, 2 3 4 5; -accent: #fff; visibility: hidden; }\n"
        }
    }
}

/// The sheet of a text, as a scene has it.
pub fn read(alloc: Global, text: &str) -> anyhow::Result<SheetAt>
    ensures { IfOk result (λ sheet. IsWithinLimits sheet.sheet) }
{
    if text.len() > 4194304 {
        return Err(anyhow!("the sheet is too long"));
    }
    Ok(SheetAt {
        sheet: read_sheet(alloc, text.as_bytes(), 0)?,
        origin: SheetOrigin::Scene,
    })
}

/// Puts so many inline styles behind the sheets.
pub fn push_styles(alloc: Global, sheets: &mut Vec<SheetAt>, count: usize) -> anyhow::Result<()>
    requires { AreWithinLimits sheets.old.items }
    ensures { OnOk result (AreWithinLimits sheets.new.items) }
{
    for _ in 0..count {
        sheets.push(style(alloc)?)?;
    }
    Ok(())
}

fn style(alloc: Global) -> anyhow::Result<SheetAt>
    ensures { IfOk result (λ sheet. IsWithinLimits sheet.sheet) }
{
    Ok(SheetAt {
        sheet: read_inline(alloc, "-fx-padding: 3; -fx-spacing: 2")?,
        origin: SheetOrigin::Inline,
    })
}
