//! A sheet of twelve rules, of which ten match each button, and of two more, of which one matches each label.
ghost use Rattle.std.specs.Prelude.{IfOk};
ghost use Rattle.fx_css_types.specs.Limits.{AreWithinLimits};

use fx_css::read_sheet;
use fx_css_types::{SheetAt, SheetOrigin};
use std::alloc::Global;

/// Each of the twelve has three declarations; the paints of `-accent` are looked up by two names.
const SHEET: &str = ".a { -fx-padding: 1 2 3 4; -fx-spacing: 2; -fx-text-fill: -accent }
.b { -fx-hgap: 1; -fx-vgap: 2; -fx-font-size: 14 }
.a.b { -fx-pref-width: 100; -fx-pref-height: 20; -fx-min-width: 10 }
VBox .a { -fx-max-width: 200; -fx-max-height: 30; -fx-min-height: 5 }
VBox .b { -fx-background-color: -accent, white; -fx-background-insets: 0, 1; -fx-padding: 2 }
VBox > .c, VBox HBox > .c { -fx-border-color: -base; -fx-border-width: 2; -fx-border-insets: 1 }
.c { -base: #102030; -accent: -base; -fx-wrap-text: true }
VBox .d { -fx-alignment: center; -fx-fill-width: false; -fx-fill-height: false }
.d { visibility: hidden; -fx-spacing: 3; -fx-hgap: 4 }
VBox .c.d { -fx-text-fill: -accent; -fx-background-color: -accent; -fx-font-size: 13 }
.a:hover { -fx-text-fill: red; -fx-background-color: white; -fx-border-color: black }
.b:focused { -fx-text-fill: red; -fx-background-color: white; -fx-border-color: black }
.label { -fx-background-color: skyblue }
.hot { -fx-background-color: orange }";

/// The sheet, as a scene has it.
pub fn sheets(alloc: Global) -> anyhow::Result<Vec<SheetAt>>
    ensures { IfOk result (λ sheets. AreWithinLimits sheets.items) }
{
    let sheet = SheetAt {
        sheet: read_sheet(alloc, SHEET.as_bytes(), 0)?,
        origin: SheetOrigin::Scene,
    };
    let mut sheets = Vec::new(alloc);
    sheets.push(sheet)?;
    Ok(sheets)
}
