//! Reading the style sheets of a run.
ghost use Rattle.std.specs.Prelude.{◌≡◌, ◌≤◌, ◌<◌, Err, Some, length};
ghost use Rattle.fx_css.specs.Sheets.{HasFault as IsFaulty};
ghost use Rattle.fx_load_parts.specs.Says.{SaysSuch};
ghost use Rattle.fx_css_types.specs.declared.sheets.Sheet.{Sheet};
ghost use Rattle.fx_load_parts.specs.Sheets.{AreSheets, IsSheetIn, IsSheetOfText};
ghost use Rattle.fx_load_parts.specs.Views.{fault_of};
ghost use Rattle.fx_load_parts.specs.declared.files.LoadError.TheVariants.{Failed};
ghost use Rattle.fx_port.specs.Causes.{HasCause};
ghost use Rattle.fx_port.specs.Files.{Files};

use crate::files::{FileFault, LoadError, fetch_file};
use crate::scripts::place_behind;
use fx_base::Str;
use fx_css::{SheetError, read_sheet};
use fx_css_types::Sheet;
use fx_port::Shelf;
use fx_scene_flaws::{FaultKind, Flaw};
use std::alloc::Global;

/// The sheets of these names, in their order, or the first fault. Warnings have the number of a sheet among them.
pub fn read_sheets<'a, F: Shelf>(
    alloc: Global,
    shelf: &mut F,
    names: &'a [Str],
) -> Result<Vec<Sheet>, LoadError<'a>>
    ensures held { F.held shelf.new ≡ F.held shelf.old }
    ensures cause { HasCause Failed (F.faults shelf.old) (F.faults shelf.new) result }
    ensures says { (files : Files) → F.held shelf.old ≡ Some files
        → SaysSuch (λ sheets. sheets.items) (AreSheets files names.now) result }
{
    let mut sheets = Vec::new(alloc);
    for file in 0..names.len() {
        sheets.push(fetch_sheet(alloc, shelf, file, names[file].as_str())?)?;
    }
    Ok(sheets)
}

/// The sheet of this name, the file of this number behind the script.
pub fn fetch_sheet<'a, F: Shelf>(
    alloc: Global,
    shelf: &mut F,
    file: usize,
    name: &'a str,
) -> Result<Sheet, LoadError<'a>>
    ensures held { F.held shelf.new ≡ F.held shelf.old }
    ensures cause { HasCause Failed (F.faults shelf.old) (F.faults shelf.new) result }
    ensures says { (files : Files) → F.held shelf.old ≡ Some files
        → SaysSuch (λ sheet. sheet) (IsSheetIn files file name.now) result }
{
    let bytes = fetch_file(alloc, shelf, file, name)?;
    sheet_of(alloc, file, name, bytes.as_slice())
}

/// The sheet that the bytes of this file are.
fn sheet_of<'a>(
    alloc: Global,
    file: usize,
    name: &'a str,
    bytes: &[u8],
) -> Result<Sheet, LoadError<'a>>
    requires few { file < 63 }
    requires size { length bytes.now ≤ 4194304 }
    ensures says { SaysSuch (λ sheet. sheet) (IsSheetOfText file name.now bytes.now) result }
    ensures fetches_nothing { ¬ (result ≡ Err LoadError.Failed) }
{
    match read_sheet(alloc, bytes, file as u32) {
        Ok(sheet) => Ok(sheet),
        Err(error) => Err(refused(file as u32, name, bytes, error)),
    }
}

/// The refusal of a file that is no sheet.
fn refused<'a>(file: u32, name: &'a str, bytes: &[u8], error: SheetError) -> LoadError<'a>
    requires size { length bytes.now ≤ 4194304 }
    requires fault { IsFaulty file bytes.now error }
    ensures says { SaysSuch (λ (sheet : Sheet). sheet) (IsSheetOfText file name.now bytes.now) (Err result) }
    ensures fetches_nothing { ¬ (result ≡ LoadError.Failed) }
{
    match error {
        SheetError::NotUtf8(valid) => {
            let position = place_behind(bytes.split_at(valid).0);
            LoadError::Fault(FileFault::at(FaultKind::NotUtf8, name, position))
        }
        SheetError::Limit(position) => LoadError::Fault(FileFault::at(
            FaultKind::Flawed(Flaw::Limit),
            name,
            position,
        )),
        SheetError::Memory => LoadError::Memory,
    }
}
