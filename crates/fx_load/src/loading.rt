//! Loading a run: the script first, then the sheets, and then the scene.
ghost use Rattle.std.specs.Prelude.{◌≡◌, ◌≤◌, [], ◌∷◌, ◌++◌, IfErr, IfOk, Some, map, vec_len};
ghost use Rattle.fx_load.specs.Loading as spec;
ghost use Rattle.fx_load.specs.Loading.{IsElaborated};
ghost use Rattle.fx_load.specs.Loads.{loaded_of};
ghost use Rattle.fx_load_parts.specs.Says.{LoadSays, SaysSuch};
ghost use Rattle.fx_load_parts.specs.Scripts.{script_in};
ghost use Rattle.fx_load_parts.specs.Views.{run_of};
ghost use Rattle.fx_load_parts.specs.declared.files.LoadError.TheVariants.{Failed, Memory};
ghost use Rattle.fx_port.specs.Causes.{HasCause};
ghost use Rattle.fx_port.specs.Files.{Files};
ghost use Rattle.fx_script_commands.specs.Requests.{line_view};

use crate::telling::warnings_of;
use fx_base::{Place, Position, Str};
use fx_css_types::Sheet;
use fx_load_parts::{LoadError, Run, read_file, read_script, read_sheets};
use fx_port::Shelf;
use fx_scene_acts::{Doing, Task};
use fx_scene_load::{Scene, add_scene, fetch_document};
use fx_scene_plan::PlannedStep;
use fx_script_commands::Line;
use std::alloc::{AllocError, Global};

/// What builds the scene of a run, the names of all files that were fetched behind its script, the lines of the script,
/// and the lines that tell what was dropped of sheets and of inline styles.
#[derive(Drop)]
pub struct Loaded {
    pub tasks: Vec<Task>,
    pub files: Vec<Str>,
    pub lines: Vec<Line>,
    pub warnings: Vec<u8>,
}

/// The script, the sheets and the scene of a run with the files that it asks for, or the first fault in the order of
/// work that comes before the scene is known. What comes later is the last task.
pub fn load<'a, F: Shelf>(
    alloc: Global,
    run: &Run<'a>,
    shelf: &mut F,
) -> Result<Loaded, LoadError<'a>>
    ensures held { F.held shelf.new ≡ F.held shelf.old }
    ensures cause { HasCause Failed (F.faults shelf.old) (F.faults shelf.new) result }
    ensures says { (files : Files) → F.held shelf.old ≡ Some files
        → SaysSuch loaded_of (IsElaborated (run_of run.now) files) result }
    ensures few { IfOk result (λ loaded. vec_len loaded.lines ≤ 100000) }
{
    let lines = read_lines(alloc, shelf, run.script)?;
    let sheets = read_sheets(alloc, shelf, run.sheets)?;
    let document = fetch_document(alloc, shelf, run.sheets.len(), run.scene)?;
    let before = Scene {
        tasks: sheet_tasks(alloc, sheets)?,
        files: names_of(alloc, run.sheets, run.scene)?,
    };
    let file = run.sheets.len() as u32;
    let scene = add_scene(alloc, shelf, file, run.scene, &document, before)?;
    loaded_by(alloc, scene, lines)
}

fn loaded_by<'a>(alloc: Global, scene: Scene, lines: Vec<Line>) -> Result<Loaded, LoadError<'a>>
    ensures loaded { IfOk result (λ loaded. loaded_of loaded
        ≡ spec.loaded_by scene.tasks.items scene.files.items (map line_view lines.items)) }
    ensures lines { IfOk result (λ loaded. loaded.lines ≡ lines) }
    ensures err { IfErr result (λ error. error ≡ Memory) }
{
    let Scene { tasks, files } = scene;
    let warnings = warnings_of(alloc, files.as_slice(), tasks.as_slice())?;
    Ok(Loaded {
        tasks,
        files,
        lines,
        warnings,
    })
}

/// The names of the sheets, and behind them that of the scene.
fn names_of(alloc: Global, sheets: &[Str], scene: &str) -> Result<Vec<Str>, AllocError>
    ensures { IfOk result (λ names. names.items ≡ sheets.now ++ (scene.now ∷ [])) }
{
    let mut names = Vec::with_capacity(alloc, sheets.len())?;
    for sheet in sheets {
        names.push(sheet.copy(alloc)?)?;
    }
    names.push(Str::from_string(String::from_str(alloc, scene)?))?;
    Ok(names)
}

/// The lines of the script of this name.
fn read_lines<'a, F: Shelf>(
    alloc: Global,
    shelf: &mut F,
    name: &'a str,
) -> Result<Vec<Line>, LoadError<'a>>
    ensures held { F.held shelf.new ≡ F.held shelf.old }
    ensures cause { HasCause Failed (F.faults shelf.old) (F.faults shelf.new) result }
    ensures says { (files : Files) → F.held shelf.old ≡ Some files
        → LoadSays (λ lines. map line_view lines.items) result (script_in files name.now) }
    ensures few { IfOk result (λ lines. vec_len lines ≤ 100000) }
{
    let bytes = read_file(alloc, shelf, name)?;
    read_script(alloc, name, bytes.as_slice())
}

/// The tasks that give the scene these sheets.
fn sheet_tasks(alloc: Global, sheets: Vec<Sheet>) -> Result<Vec<Task>, AllocError>
    ensures { IfOk result (λ tasks. tasks.items ≡ map spec.sheet_task sheets.items) }
{
    let mut tasks = Vec::with_capacity(alloc, sheets.len())?;
    for sheet in sheets {
        tasks.push(sheet_task(sheet))?;
    }
    Ok(tasks)
}

fn sheet_task(sheet: Sheet) -> Task
    ensures { result ≡ spec.sheet_task sheet }
{
    Task {
        place: Place {
            file: 0,
            position: Position { line: 0, column: 0 },
        },
        doing: Doing::Step(PlannedStep::Sheet(None, sheet)),
    }
}
