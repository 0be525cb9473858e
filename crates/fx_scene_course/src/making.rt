//! What is done for the acts of a document.
ghost use Rattle.std.specs.Prelude.{◌≡◌, ◌≤◌, ◌<◌, IfOk, OnOk, Some, drop, length, take};
ghost use Rattle.fx_load_parts.specs.Sheets.{IsSheetIn};
ghost use Rattle.fx_port.specs.Causes.{HasCause};
ghost use Rattle.fx_port.specs.Files.{Files};
ghost use Rattle.fx_port.specs.declared.files.FetchError.TheVariants.{Failed};
ghost use Rattle.fx_scene_acts.specs.Acts.{act_of};
ghost use Rattle.fx_scene_acts.specs.declared.acts.Deed.TheVariants as deed;
ghost use Rattle.fx_scene_course.specs.Courses.{place_in};
ghost use Rattle.fx_scene_course.specs.Made.{IsSheetKept};
ghost use Rattle.fx_scene_course.specs.Making as spec;
ghost use Rattle.fx_scene_course.specs.Making.{AreActsDone, IsActDone, IsSheetAdded};
ghost use Rattle.fx_scene_course.specs.Views.{course_view, open_view};

use crate::courses::{
    Course, add_binding, add_fault_in, add_file, add_flaw, add_step, add_task, place_in,
};
use crate::opens::{Open, step_in};
use fx_base::{Place, Position, Str};
use fx_css_types::Sheet;
use fx_load_parts::{LoadError, MOST_FETCHES, fetch_sheet};
use fx_port::{FetchError, Shelf};
use fx_scene_acts::{Act, Deed, Doing, is_node_act};
use fx_scene_flaws::Flaw;
use fx_scene_places::joined;
use fx_scene_plan::PlannedStep;
use std::alloc::{AllocError, Global};

/// Does what the acts of a document ask for, up to the first fault.
pub fn do_acts<F: Shelf>(
    alloc: Global,
    shelf: &mut F,
    here: &Open<'_>,
    acts: Vec<Act>,
    course: &mut Course,
) -> Result<(), FetchError>
    ensures held { F.held shelf.new ≡ F.held shelf.old }
    ensures cause { HasCause Failed (F.faults shelf.old) (F.faults shelf.new) result }
    ensures done { (files : Files) → F.held shelf.old ≡ Some files → OnOk result
        (AreActsDone files (open_view here.now) (course_view course.old) acts.items (course_view course.new)) }
{
    let mut left = acts;
    left.reverse();
    while let Some(act) = left.pop() {
        if course.at_fault {
            return Ok(());
        }
        do_act(alloc, shelf, here, act, course)?;
    }
    Ok(())
}

/// How many acts there are before the first node that is read first.
pub fn acts_before(acts: &[Act]) -> usize
    ensures { result ≡ spec.acts_before acts.now }
{
    for (index, act) in acts.iter().enumerate() {
        if is_node_act(act) {
            return index;
        }
    }
    acts.len()
}

/// These acts up to so many, behind those that are done.
pub fn acts_between(
    alloc: Global,
    acts: Vec<Act>,
    done: usize,
    count: usize,
) -> Result<Vec<Act>, AllocError>
    ensures { IfOk result (λ left. left.items ≡ drop done (take count acts.items)) }
{
    acts.into_iter().take(count).skip(done).collect(alloc)
}

/// These acts behind those that are done.
pub fn acts_behind(alloc: Global, acts: Vec<Act>, done: usize) -> Result<Vec<Act>, AllocError>
    ensures { IfOk result (λ left. left.items ≡ drop done acts.items) }
{
    if done == 0 {
        return Ok(acts);
    }
    acts.into_iter().skip(done).collect(alloc)
}

fn do_act<F: Shelf>(
    alloc: Global,
    shelf: &mut F,
    here: &Open<'_>,
    act: Act,
    course: &mut Course,
) -> Result<(), FetchError>
    ensures held { F.held shelf.new ≡ F.held shelf.old }
    ensures cause { HasCause Failed (F.faults shelf.old) (F.faults shelf.new) result }
    ensures done { (files : Files) → F.held shelf.old ≡ Some files → OnOk result
        (IsActDone files (open_view here.now) (course_view course.old) act (course_view course.new)) }
{
    let Act { place, deed } = act;
    let at = place_in(here.file, place);
    match deed {
        Deed::Step(step) => {
            let step = step_in(alloc, here, step)?;
            Ok(add_step(course, at, step)?)
        }
        Deed::Flaw(flaw) => Ok(add_flaw(course, at, flaw)?),
        Deed::Bind(binding) => Ok(add_binding(course, at, binding)?),
        Deed::Sheet(node, location) => {
            add_located(alloc, shelf, here, place, node, location.as_str(), course)
        }
        Deed::Node => Ok(()),
        Deed::File(node, name) => {
            let name = Str::from_string(String::from_str(alloc, name.as_str())?);
            add_sheet(alloc, shelf, at, node, name, course)
        }
    }
}

/// The sheet at a location, for a node. The location is judged before anything is fetched.
fn add_located<F: Shelf>(
    alloc: Global,
    shelf: &mut F,
    here: &Open<'_>,
    place: Position,
    node: usize,
    location: &str,
    course: &mut Course,
) -> Result<(), FetchError>
    ensures held { F.held shelf.new ≡ F.held shelf.old }
    ensures cause { HasCause Failed (F.faults shelf.old) (F.faults shelf.new) result }
    ensures done { (files : Files) → F.held shelf.old ≡ Some files → OnOk result (IsActDone files (open_view here.now)
        (course_view course.old) (act_of place (deed.Sheet node location.now)) (course_view course.new)) }
{
    let at = place_in(here.file, place);
    match joined(alloc, here.name, location)? {
        Some(target) => add_sheet(alloc, shelf, at, node, target, course),
        None => Ok(add_flaw(course, at, Flaw::Value)?),
    }
}

/// The sheet in the file of this name, for a node.
fn add_sheet<F: Shelf>(
    alloc: Global,
    shelf: &mut F,
    place: Place,
    node: usize,
    target: Str,
    course: &mut Course,
) -> Result<(), FetchError>
    ensures held { F.held shelf.new ≡ F.held shelf.old }
    ensures cause { HasCause Failed (F.faults shelf.old) (F.faults shelf.new) result }
    ensures done { (files : Files) → F.held shelf.old ≡ Some files → OnOk result
        (IsSheetAdded files place node target (course_view course.old) (course_view course.new)) }
{
    let count = course.files.len();
    if count >= MOST_FETCHES {
        return Ok(add_flaw(course, place, Flaw::Limit)?);
    }
    add_file(course, target.copy(alloc)?)?;
    let sheet = fetch_sheet(alloc, shelf, count, target.as_str());
    keep_sheet(place, node, count as u32, sheet, course)
}

/// The sheet of this number is one of the node, or at fault.
fn keep_sheet(
    place: Place,
    node: usize,
    file: u32,
    sheet: Result<Sheet, LoadError<'_>>,
    course: &mut Course,
) -> Result<(), FetchError>
    ensures { IsSheetKept place node file sheet.entry (course_view course.old) (course_view course.new) result }
{
    match sheet {
        Ok(sheet) => {
            let step = PlannedStep::Sheet(Some(node), sheet);
            Ok(add_task(course, place, Doing::Step(step))?)
        }
        Err(LoadError::Fault(fault)) => Ok(add_fault_in(course, file, &fault)?),
        Err(LoadError::Failed) => Err(FetchError::Failed),
        Err(LoadError::Memory) => Err(FetchError::Memory),
    }
}
