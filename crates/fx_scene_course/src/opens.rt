//! A document that is being read.
ghost use Rattle.std.specs.Prelude.{◌≡◌, ◌++◌, ◌∷◌, [], IfOk, map};
ghost use Rattle.std.specs.Option.{option_map};
ghost use Rattle.fx_doc.specs.Views.{attr_view};
ghost use Rattle.fx_scene_course.specs.Opens as spec;
ghost use Rattle.fx_scene_course.specs.Views.{open_view};
ghost use Rattle.fx_scene_things.specs.Known.{known, settled_view};
ghost use Rattle.fx_scene_values.specs.Views.{scope_view};

use fx_base::{List, Str, Text};
use fx_doc::Attribute;
use fx_scene_bindings::value_at;
use fx_scene_plan::PlannedStep;
use fx_scene_read::{Stand, stand_step};
use fx_scene_things::{Names, Settled};
use fx_scene_values::Scope;
use fx_text::is_identifier;
use std::alloc::{AllocError, Global};

/// A document that is being read: the number and the name of its file, its imports, the names of the files that are
/// open, itself among them, the path behind which scripts name its nodes, if they can, and where its root comes to
/// stand.
#[derive(Drop)]
pub struct Open<'a> {
    pub file: u32,
    pub name: &'a str,
    pub imports: &'a [Text],
    pub around: Vec<Str>,
    pub path: Option<Vec<Text>>,
    pub stand: Stand,
}

/// What its texts are read with, where these nodes of definitions within a value were read.
pub fn scope_in<'a>(here: &Open<'a>, settled: &'a [Settled]) -> Scope<'a>
    ensures { scope_view result ≡ spec.scope_in (open_view here.now) (map settled_view settled.now) }
{
    Scope {
        file: here.name,
        imports: here.imports,
        settled,
    }
}

/// A step that the document asks for, as it is taken.
#[tactic(auto, unfolding(crate::specs::Opens::step_in))]
#[inline(always)]
pub fn step_in(
    alloc: Global,
    here: &Open<'_>,
    step: PlannedStep,
) -> Result<Option<PlannedStep>, AllocError>
    ensures { IfOk result (λ taken. taken ≡ spec.step_in (open_view here.now) step) }
{
    match step {
        PlannedStep::Named(node, path) => named_in(alloc, here, node, path),
        PlannedStep::Root(node) => Ok(stand_step(here.stand, node)),
        other => Ok(Some(other)),
    }
}

/// Nodes are named behind the path of the document, if that has one.
fn named_in(
    alloc: Global,
    here: &Open<'_>,
    node: usize,
    path: List<Text>,
) -> Result<Option<PlannedStep>, AllocError>
    ensures { IfOk result (λ taken. taken ≡ spec.named_in node path (open_view here.now).path) }
{
    match &here.path {
        Some(front) => {
            let path = path_in(alloc, front.as_slice(), path)?;
            Ok(Some(PlannedStep::Named(node, path)))
        }
        None => Ok(None),
    }
}

/// A path behind another one. Behind none it is taken as it is.
fn path_in(alloc: Global, front: &[Text], path: List<Text>) -> Result<List<Text>, AllocError>
    ensures { IfOk result (λ all. all ≡ front.now ++ path) }
{
    if front.is_empty() {
        return Ok(path);
    }
    Ok(List::from_vec(joined(alloc, front, path.as_slice())?))
}

fn joined(alloc: Global, front: &[Text], back: &[Text]) -> Result<Vec<Text>, AllocError>
    ensures { IfOk result (λ all. all.items ≡ front.now ++ back.now) }
{
    let mut all = Vec::with_capacity(alloc, front.len())?;
    for name in front {
        all.push(name.copy(alloc)?)?;
    }
    for name in back {
        all.push(name.copy(alloc)?)?;
    }
    Ok(all)
}

/// The path behind which nodes of an included document are named: behind the name of its root, if that is one that
/// nothing else has.
pub fn inner_path(
    alloc: Global,
    here: &Open<'_>,
    names: &Names,
    attributes: &[Attribute],
) -> Result<Option<Vec<Text>>, AllocError>
    ensures { IfOk result (λ path. option_map (λ names. names.items) path
        ≡ spec.inner_path (open_view here.now) (known names.now) (map attr_view attributes.now)) }
{
    match &here.path {
        Some(front) => path_behind(
            alloc,
            names,
            front.as_slice(),
            value_at(attributes, "fx:id"),
        ),
        None => Ok(None),
    }
}

fn path_behind(
    alloc: Global,
    names: &Names,
    front: &[Text],
    name: Option<&Text>,
) -> Result<Option<Vec<Text>>, AllocError>
    ensures { IfOk result (λ path. option_map (λ names. names.items) path
        ≡ spec.path_if (known names.now) (Some front.now) (option_map (λ text. text.now) name.entry)) }
{
    match name {
        Some(name) => path_with(alloc, names, front, name),
        None => Ok(None),
    }
}

fn path_with(
    alloc: Global,
    names: &Names,
    front: &[Text],
    name: &Text,
) -> Result<Option<Vec<Text>>, AllocError>
    ensures { IfOk result (λ path. option_map (λ names. names.items) path
        ≡ spec.path_if (known names.now) (Some front.now) (Some name.now)) }
{
    if is_identifier(name.as_str()) && !names.has(name.as_str()) {
        let mut path = joined(alloc, front, &[])?;
        path.push(name.copy(alloc)?)?;
        return Ok(Some(path));
    }
    Ok(None)
}

/// The names of the files that are open around an included document, itself among them.
pub fn around_with(alloc: Global, around: &[Str], name: &str) -> Result<Vec<Str>, AllocError>
    ensures { IfOk result (λ names. names.items ≡ around.now ++ (name.now ∷ [])) }
{
    let mut names = Vec::with_capacity(alloc, around.len())?;
    for file in around {
        names.push(file.copy(alloc)?)?;
    }
    names.push(Str::from_string(String::from_str(alloc, name)?))?;
    Ok(names)
}
