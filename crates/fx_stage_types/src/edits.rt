//! Edits of what a node has of its own.
ghost use Rattle.std.specs.Prelude.{◌≡◌, ◌<◌, ◌++◌, ◌∷◌, [], IfOk, IfSome, OnErr, OnOk, length, position, remove, slice_set};
ghost use Rattle.std.specs.Option.{option_map_or};
ghost use Rattle.std.specs.Str.{bytes_eq};
ghost use Rattle.fx_stage_types.specs.Edits.{born_data, edited, has_word, is_named, put_constraint, with_edge, with_word, without_constraint, without_first};

use crate::node_data::NodeData;
use fx_base::{List, Text, Track};
use fx_css_types::Sheet;
use fx_kinds::{Class, Constraint, birth_style};
use std::alloc::{AllocError, Global};
use std::mem;

/// One change of what a node has of its own.
#[derive(Drop)]
pub enum NodeEdit {
    /// One more style class, behind the others.
    AddClass(Text),
    /// Without the first style class that is this one.
    RemoveClass(Text),
    /// The pseudo-class is set.
    AddPseudo(Text),
    RemovePseudo(Text),
    /// The inline style is this one.
    SetInline(Sheet),
    /// One more style sheet, behind the others.
    AddSheet(Sheet),
    /// The constraint has this value, whether it was there or not.
    PutConstraint(Constraint),
    /// Without the constraint of this name.
    RemoveConstraint(Text),
    /// The columns and rows of a grid.
    SetTracks(List<Track>, List<Track>),
}

impl NodeData {
    /// What a node of the class has at first, its properties numbered from here on.
    pub fn born(alloc: Global, class: Class, first: u32) -> Result<NodeData, AllocError>
        ensures { IfOk result (λ node. node ≡ born_data class first) }
    {
        Ok(NodeData {
            class,
            first,
            edge: None,
            classes: born_classes(alloc, class)?,
            pseudos: List::new(alloc),
            inline: None,
            sheets: List::new(alloc),
            constraints: List::new(alloc),
            columns: List::new(alloc),
            rows: List::new(alloc),
        })
    }

    /// The node stands on this edge of its parent, or on none.
    pub fn set_edge(&mut self, edge: Option<u8>)
        ensures { self.new ≡ with_edge edge self.old }
    {
        self.edge = edge;
    }

    /// Makes one change.
    #[tactic(auto, unfolding(crate::specs::Edits::edited))]
    pub fn edit(&mut self, alloc: Global, edit: NodeEdit) -> Result<(), AllocError>
        ensures ok { OnOk result (self.new ≡ edited edit self.old) }
        ensures err { OnErr result (self.new ≡ self.old) }
    {
        match edit {
            NodeEdit::AddClass(name) => push(alloc, &mut self.classes, name),
            NodeEdit::RemoveClass(name) => Ok(remove_first(
                alloc,
                &mut self.classes,
                name.as_str(),
            )),
            NodeEdit::AddPseudo(name) => add_word(alloc, &mut self.pseudos, name),
            NodeEdit::RemovePseudo(name) => Ok(remove_first(
                alloc,
                &mut self.pseudos,
                name.as_str(),
            )),
            NodeEdit::SetInline(sheet) => {
                self.inline = Some(sheet);
                Ok(())
            }
            NodeEdit::AddSheet(sheet) => push(alloc, &mut self.sheets, sheet),
            NodeEdit::PutConstraint(constraint) => put(alloc, &mut self.constraints, constraint),
            NodeEdit::RemoveConstraint(name) => Ok(remove(
                alloc,
                &mut self.constraints,
                name.as_str(),
            )),
            NodeEdit::SetTracks(columns, rows) => {
                self.columns = columns;
                self.rows = rows;
                Ok(())
            }
        }
    }
}

fn born_classes(alloc: Global, class: Class) -> Result<List<Text>, AllocError>
    ensures { IfOk result (λ classes. classes ≡ (born_data class 0).classes) }
{
    let mut classes = Vec::new(alloc);
    if let Some(style) = birth_style(class) {
        match Text::from_str(alloc, style) {
            Ok(style) => classes.push(style)?,
            Err(_) => return Err(AllocError),
        }
    }
    Ok(List::from_vec(classes))
}

/// Puts the item behind the others.
fn push<T: Drop>(alloc: Global, list: &mut List<T>, item: T) -> Result<(), AllocError>
    ensures ok { OnOk result (list.new ≡ list.old ++ item ∷ []) }
    ensures err { OnErr result (list.new ≡ list.old) }
{
    let mut items = mem::replace(list, List::new(alloc)).into_vec();
    let pushed = items.push(item);
    *list = List::from_vec(items);
    match pushed {
        Ok(()) => Ok(()),
        Err(_) => Err(AllocError),
    }
}

fn has_word(words: &List<Text>, word: &str) -> bool
    ensures { result ≡ has_word words.now word.now }
{
    words.as_slice().iter().any(|other| other.as_str() == word)
}

fn add_word(alloc: Global, words: &mut List<Text>, word: Text) -> Result<(), AllocError>
    ensures ok { OnOk result (words.new ≡ with_word word words.old) }
    ensures err { OnErr result (words.new ≡ words.old) }
{
    if has_word(words, word.as_str()) {
        return Ok(());
    }
    push(alloc, words, word)
}

fn place_of(words: &[Text], word: &str) -> Option<usize>
    ensures place { result ≡ position (λ other. bytes_eq other word.now) words.now }
    ensures within { IfSome result (λ place. place < length words.now) }
{
    words.iter().position(|other| other.as_str() == word)
}

fn remove_at(words: &mut Vec<Text>, place: Option<usize>)
    requires { IfSome place (λ place. place < length words.old.items) }
    ensures { words.new.items ≡ option_map_or (λ place. remove words.old.items place) place words.old.items }
{
    match place {
        Some(place) => {
            let _ = words.remove(place);
        }
        None => {}
    }
}

fn remove_first(alloc: Global, words: &mut List<Text>, word: &str)
    ensures { words.new ≡ without_first word.now words.old }
{
    let mut items = mem::replace(words, List::new(alloc)).into_vec();
    let place = place_of(items.as_slice(), word);
    remove_at(&mut items, place);
    *words = List::from_vec(items);
}

fn place_named(constraints: &[Constraint], name: &str) -> Option<usize>
    ensures place { result ≡ position (is_named name.now) constraints.now }
    ensures within { IfSome result (λ place. place < length constraints.now) }
{
    constraints
        .iter()
        .position(|other| other.name.as_str() == name)
}

fn put_at(
    constraints: &mut Vec<Constraint>,
    place: Option<usize>,
    constraint: Constraint,
) -> Result<(), AllocError>
    requires { IfSome place (λ place. place < length constraints.old.items) }
    ensures ok { OnOk result (constraints.new.items
        ≡ option_map_or (λ place. slice_set constraints.old.items place constraint) place
        (constraints.old.items ++ constraint ∷ [])) }
    ensures err { OnErr result (constraints.new.items ≡ constraints.old.items) }
{
    match place {
        Some(place) => {
            constraints[place] = constraint;
            Ok(())
        }
        None => match constraints.push(constraint) {
            Ok(()) => Ok(()),
            Err(_) => Err(AllocError),
        },
    }
}

fn put(
    alloc: Global,
    constraints: &mut List<Constraint>,
    constraint: Constraint,
) -> Result<(), AllocError>
    ensures ok { OnOk result (constraints.new ≡ put_constraint constraint constraints.old) }
    ensures err { OnErr result (constraints.new ≡ constraints.old) }
{
    let mut items = mem::replace(constraints, List::new(alloc)).into_vec();
    let place = place_named(items.as_slice(), constraint.name.as_str());
    let answer = put_at(&mut items, place, constraint);
    *constraints = List::from_vec(items);
    answer
}

fn remove(alloc: Global, constraints: &mut List<Constraint>, name: &str)
    ensures { constraints.new ≡ without_constraint name.now constraints.old }
{
    let mut items = mem::replace(constraints, List::new(alloc)).into_vec();
    items.retain(|constraint| constraint.name.as_str() != name);
    *constraints = List::from_vec(items);
}
