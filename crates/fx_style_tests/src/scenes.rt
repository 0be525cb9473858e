//! The sheets that the tests begin with.
ghost use Rattle.std.specs.Prelude.{IfOk, OnOk};
ghost use Rattle.fx_css_types.specs.Limits.{AreWithinLimits, IsWithinLimits};

use fx_base::Color;
use fx_css::{agent_sheet, read_sheet};
use fx_css_types::{SheetAt, SheetOrigin};
use std::alloc::Global;
use std::test::Fail;

pub const BLUE: Color = Color {
    r: 0,
    g: 0,
    b: 255,
    a: 255,
};

/// The sheet of the user agent, and a sheet of the scene.
pub fn sheets(alloc: Global, text: &str) -> Result<Vec<SheetAt>, Fail>
    ensures { IfOk result (λ sheets. AreWithinLimits sheets.items) }
{
    if text.len() > 4096 {
        return Err(Fail::from("the text is too long"));
    }
    let agent = SheetAt {
        sheet: agent_sheet(alloc)?,
        origin: SheetOrigin::Agent,
    };
    let scene = SheetAt {
        sheet: read_sheet(alloc, text.as_bytes(), 0)?,
        origin: SheetOrigin::Scene,
    };
    let mut sheets = Vec::new(alloc);
    sheets.push(agent)?;
    sheets.push(scene)?;
    Ok(sheets)
}
