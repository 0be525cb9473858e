//! The `style` of a node: its whole text is the body of one rule without selector.
//! A script or a document gives the text, the cascade takes the rule.
ghost use Rattle.std.specs.Prelude.{◌≡◌, ◌≤◌, List as Items, [], length, IfOk, IfErr};
ghost use Rattle.fx_base.specs.declared.positions.Place.{Place};
ghost use Rattle.fx_css_types.specs.declared.sheets.Rule.{Rule};
ghost use Rattle.fx_css_types.specs.Limits.{IsWithinLimits};
ghost use Rattle.fx_css.specs.Numbered.{shown};
ghost use Rattle.fx_css.specs.Sheets.{AreStyle, IsStyleText, HasStyleFault, IsGiven};

use crate::declarations::read_declarations;
use crate::errors::{SheetError, Stop};
use crate::parts::Part;
use crate::rules::Draft;
use crate::sheets::{Form, read_as};
use fx_base::List;
use fx_css_types::{Rule, Sheet};
use std::alloc::Global;

/// The one rule of a whole `style`.
pub fn read_style(alloc: Global, whole: Part<'_>) -> Result<Draft, Stop>
    ensures { AreStyle (shown whole.entry) result }
{
    let mut warnings = Vec::new(alloc);
    let declarations = read_declarations(alloc, whole, &mut warnings)?;
    let mut rules = Vec::new(alloc);
    rules.push(Rule {
        selectors: List::new(alloc),
        declarations: List::from_vec(declarations),
    })?;
    Ok(Draft { rules, warnings })
}

/// The rule of a `style` (JavaFX 21 API, `Node.setStyle`), with the places of what was dropped, in file 0; or the first
/// declaration or layer past its limit.
pub fn read_inline(alloc: Global, text: &str) -> Result<Sheet, SheetError>
    requires { length text.now ≤ 4194304 }
    ensures read { IfOk result (λ sheet. IsStyleText text.now sheet.rules sheet.warnings []) }
    ensures fault { IfErr result (HasStyleFault text.now) }
    ensures within { IfOk result (λ sheet. IsWithinLimits sheet) }

    // The other way round: every text is read, and in one way.
    ensures exact { (rules : Items Rule) (warnings past : Items Place) → IsStyleText text.now rules warnings past
        → IsGiven rules warnings past result }
{
    read_as(alloc, Form::Style, text.as_bytes(), 0)
}
