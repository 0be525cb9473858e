//! Sheets are read from bytes, and the `style` of a node from its text.
//! What was dropped is told by its places; a limit is told by the first part past it.
ghost use Rattle.std.specs.Prelude.{◌≡◌, ◌≤◌, List as Items, [], length, IfOk, IfErr, OnOk};
ghost use Rattle.std.specs.Str.{IsUtf8, IsValidUpTo};
ghost use Rattle.fx_base.specs.declared.positions.Place.{Place};
ghost use Rattle.fx_base.specs.declared.positions.Position.{Position};
ghost use Rattle.fx_css_types.specs.declared.sheets.Rule.{Rule};
ghost use Rattle.fx_css_types.specs.Limits.{IsWithinLimits};
ghost use Rattle.fx_css_marks.specs.declared.marks.Mark.{Mark};
ghost use Rattle.fx_base.specs.Positions.{start};
ghost use Rattle.fx_css_marks.specs.Marks.{Marked};
ghost use Rattle.fx_css.specs.Numbered.{shown, numbered_marks};
ghost use Rattle.fx_css.specs.Sheets.{AreRead, AreReadAs, IsReadAs, IsToldStop, IsTold, IsSheetText, HasFault, IsGiven, IsRefused};

use crate::errors::{SheetError, Stop};
use crate::inline::read_style;
use crate::parts::Part;
use crate::rules::{Draft, RULE_LIMIT, read_turn};
use fx_base::List;
use fx_css_marks::{is_bare, places, position, spoken};
use fx_css_types::Sheet;
use std::alloc::Global;
use std::str;

/// What a text is read as.
#[derive(Clone, Copy)]
pub enum Form {
    Sheet,
    /// The body of one rule without selector.
    Style,
}

/// Few rules have fewer bytes: room for a rule is taken for each so many, so that rules are seldom moved.
const COMMON_LENGTH: usize = 64;

/// The rules of a whole sheet.
fn read_rules(alloc: Global, whole: Part<'_>) -> Result<Draft, Stop>
    ensures { AreRead (shown whole.entry) result }
{
    let room = RULE_LIMIT.min(whole.len() / COMMON_LENGTH);
    let mut draft = Draft {
        rules: Vec::with_capacity(alloc, room)?,
        warnings: Vec::new(alloc),
    };
    let mut rest = whole;
    while !rest.is_empty() {
        let taken = read_turn(alloc, rest, &mut draft)?;
        rest = rest.behind(taken);
    }
    Ok(draft)
}

fn read_part(alloc: Global, form: Form, whole: Part<'_>) -> Result<Draft, Stop>
    ensures { AreReadAs form (shown whole.entry) result }
{
    match form {
        Form::Sheet => read_rules(alloc, whole),
        Form::Style => read_style(alloc, whole),
    }
}

/// The rules of a text, with the numbers of what was dropped.
fn read_text(alloc: Global, form: Form, text: &[u8]) -> Result<Draft, Stop>
    ensures { (p : Position) (marks : Items Mark) → Marked p text.now marks
        → AreReadAs form (numbered_marks marks) result }
{
    if is_bare(text) {
        return read_part(alloc, form, Part::whole(text, text));
    }
    let said = spoken(alloc, text)?;
    let whole = Part::whole(said.bytes.as_slice(), said.signs.as_slice());
    read_part(alloc, form, whole)
}

/// Why reading a text stopped, with a position for a number.
fn told_stop(stop: Stop, text: &[u8]) -> SheetError
    requires { length text.now ≤ 4194304 }
    ensures { (marks : Items Mark) → Marked start text.now marks → IsToldStop marks stop result }
{
    match stop {
        Stop::Past(number) => SheetError::Limit(position(text, number)),
        Stop::Memory => SheetError::Memory,
    }
}

/// What was read of a text, with places for numbers.
fn told(
    alloc: Global,
    read: Result<Draft, Stop>,
    text: &[u8],
    file: u32,
) -> Result<Sheet, SheetError>
    requires { length text.now ≤ 4194304 }
    ensures { (marks : Items Mark) → Marked start text.now marks → IsTold file marks read result }
{
    match read {
        Ok(Draft { rules, warnings }) => {
            let warnings = places(alloc, text, file, warnings.as_slice())?;
            Ok(Sheet {
                rules: List::from_vec(rules),
                warnings: List::from_vec(warnings),
            })
        }
        Err(stop) => Err(told_stop(stop, text)),
    }
}

/// The text of this file, read as a sheet or a `style`.
pub fn read_as(alloc: Global, form: Form, text: &[u8], file: u32) -> Result<Sheet, SheetError>
    requires { length text.now ≤ 4194304 }
    ensures { (marks : Items Mark) → Marked start text.now marks → IsReadAs form file marks result }
{
    told(alloc, read_text(alloc, form, text), text, file)
}

/// The sheet of these bytes of a CSS file (JavaFX CSS Reference Guide 21), with the places of what was dropped, or why
/// it can't be held: not UTF-8, or past a limit, first of which is 4,096 rules of a sheet, 64 selectors of a rule, 16
/// compounds of a selector, 256 declarations of a rule and 8 layers of one.
pub fn read_sheet(alloc: Global, bytes: &[u8], file: u32) -> Result<Sheet, SheetError>
    requires { length bytes.now ≤ 4194304 }
    ensures read { IfOk result (λ sheet. IsSheetText file bytes.now sheet.rules sheet.warnings []) }
    ensures utf8 { OnOk result (IsUtf8 bytes.now) }
    ensures fault { IfErr result (HasFault file bytes.now) }
    ensures within { IfOk result (λ sheet. IsWithinLimits sheet) }

    // The other way round: every text is read, and in one way.
    ensures exact { (rules : Items Rule) (warnings past : Items Place) → IsUtf8 bytes.now
        → IsSheetText file bytes.now rules warnings past → IsGiven rules warnings past result }
    ensures refused { (IsUtf8 bytes.now → ⊥) → IsRefused result }
{
    match str::from_utf8(bytes) {
        Ok(_) => read_as(alloc, Form::Sheet, bytes, file),
        Err(error) => Err(SheetError::NotUtf8(error.valid_up_to())),
    }
}
