//! Changes that make properties unread. Each looks at what it may tell of, makes the change in one call of the graph,
//! and tells.
ghost use Rattle.std.specs.Prelude.{ℕ, List, ◌≡◌, ◌≢◌, ◌≤◌, ◌+◌, ◌++◌, ◌∷◌, ◌==◌, [], false, true, not, if◌then◌else◌, filter, All, AllPairs, IfErr, IfOk, None, OnErr, OnOk, Some, length, map};
ghost use Rattle.fx_base.specs.declared.keys.Name.{Name as Named};
ghost use Rattle.fx_base.specs.declared.values.Value.{Value as Content};
ghost use Rattle.fx_expr.specs.Tree.{is_within};
ghost use Rattle.fx_listen.specs.Listening.{living_in};
ghost use Rattle.fx_store_pairs.specs.Pairs.{is_paired};
ghost use Rattle.fx_graph_model.specs.declared.entries.Entry.{Entry};
ghost use Rattle.fx_graph_model.specs.Changes.{AreKnown, after_values, changed};
ghost use Rattle.fx_graph_model.specs.Eager.{eager};
ghost use Rattle.fx_base.specs.Names.{numbers};
ghost use Rattle.fx_graph_model.specs.Refusals.{set_refusal};
ghost use Rattle.fx_graph_model.specs.Uses.{bound_in, unknown_in};
ghost use Rattle.fx_store_model.specs.Applied.{Applied};
ghost use Rattle.fx_store_model.specs.declared.changes.Change.{Change as Changing};
ghost use Rattle.fx_store_model.specs.declared.changes.Change.TheVariants as change;
ghost use Rattle.fx_base.specs.Answers.{or_else};
ghost use Rattle.fx_store_model.specs.Refusals.{bind_refusal, of_graph_refusal};
ghost use Rattle.fx_store_model.specs.Step.{IsFit, due};
ghost use Rattle.fx_store_model.specs.Stored.{Stored};
ghost use Rattle.fx_store.specs.Groups.{AreJoinedWith};
ghost use Rattle.fx_store.specs.Kept.{IsKept, stored_of};
ghost use Rattle.fx_store.specs.UnderWay.{IsUnderWay};
ghost use Rattle.fx_store.specs.Looking.{IsEnough, IsLook};
ghost use Rattle.fx_store.specs.Watching.{IsWatch, watch_list};

use crate::refusing::of_pair;
use crate::store::Store;
use crate::telling::tell;
use crate::watching::{Watched, joined_ends, listeners_on, push_two, watch, watch_on};
use fx_base::{Ledgers, List, Name, Value, Work};
use fx_graph::Graph;
use fx_graph_model::{Formula, GraphError};
use fx_handles::Owners;
use fx_listen::{ListenKind, Listeners};
use fx_store_model::{Notices, StoreError};
use fx_store_pairs::Pairs;
use std::alloc::{AllocError, Global};

/// The value for each of the names.
fn with_value(
    alloc: Global,
    names: &[Name],
    value: &Value,
) -> Result<Vec<(Name, Value)>, AllocError>
    ensures { IfOk result (λ pairs. pairs.items ≡ map (λ (name : Named). (name, value.now)) names.now) }
{
    let mut pairs = Vec::with_capacity(alloc, names.len())?;
    for name in names {
        pairs.push((*name, value.copy(alloc)?))?;
    }
    Ok(pairs)
}

/// Puts the name and the value behind the pairs, unless it is this other name.
fn push_unless(
    alloc: Global,
    pairs: &mut Vec<(Name, Value)>,
    name: Name,
    other: Name,
    value: &Value,
) -> Result<(), AllocError>
    ensures { OnOk result (pairs.new.items
        ≡ (if name.0 == other.0 then pairs.old.items else pairs.old.items ++ (name, value.now) ∷ [])) }
{
    if name.0 == other.0 {
        return Ok(());
    }
    pairs.push((name, value.copy(alloc)?))?;
    Ok(())
}

/// The value for each of the names but this one.
fn with_value_but(
    alloc: Global,
    names: &[Name],
    other: Name,
    value: &Value,
) -> Result<Vec<(Name, Value)>, AllocError>
    ensures { IfOk result (λ pairs. pairs.items
        ≡ map (λ (name : Named). (name, value.now)) (filter (λ (name : Named). not (name.0 == other.0)) names.now)) }
{
    let mut pairs = Vec::with_capacity(alloc, names.len())?;
    for name in names {
        push_unless(alloc, &mut pairs, *name, other, value)?;
    }
    Ok(pairs)
}

/// The value for each name that is joined with this one.
pub(crate) fn group_values(
    alloc: Global,
    pairs: &Pairs,
    name: Name,
    value: &Value,
) -> Result<Vec<(Name, Value)>, AllocError>
    ensures { IfOk result (λ values. (names : List Named) × AreJoinedWith pairs.now name.0 names
        × (values.items ≡ map (λ (other : Named). (other, value.now)) names)) }
{
    let group = pairs.group(alloc, name)?;
    with_value(alloc, group.as_slice(), value)
}

/// The property's value for each of the names but the property itself.
fn other_values(
    alloc: Global,
    graph: &Graph,
    names: &[Name],
    other: Name,
) -> Result<Vec<(Name, Value)>, AllocError>
    requires known { unknown_in graph.now.entries other.0 ≡ false }
    requires free { bound_in graph.now.entries other.0 ≡ false }
    ensures { IfOk result (λ values. values.items ≡ map (λ (name : Named). (name, eager graph.now.entries other.0))
        (filter (λ (name : Named). not (name.0 == other.0)) names.now)) }
{
    let value = graph.own_value(alloc, other)?;
    with_value_but(alloc, names, other, &value)
}

/// Puts the name behind the others, unless the property, which isn't bound, has the value.
fn push_changing(
    names: &mut Vec<Name>,
    graph: &Graph,
    pair: &(Name, Value),
) -> Result<(), AllocError>
    requires { bound_in graph.now.entries pair.now.0.0 ≡ false }
    ensures { OnOk result (numbers names.new.items
        ≡ numbers names.old.items ++ changed (pair.now ∷ []) graph.now.entries) }
{
    if graph.has_value(pair.0, &pair.1) {
        return Ok(());
    }
    names.push(pair.0)?;
    Ok(())
}

/// Of these properties, which aren't bound, those that have another value than the one here.
fn changing_names(
    alloc: Global,
    graph: &Graph,
    pairs: &[(Name, Value)],
) -> Result<Vec<Name>, AllocError>
    requires { All (λ (pair : Named × Content). bound_in graph.now.entries pair.0.0 ≡ false) pairs.now }
    ensures { IfOk result (λ names. numbers names.items ≡ changed pairs.now graph.now.entries) }
{
    let mut names = Vec::new(alloc);
    for pair in pairs {
        push_changing(&mut names, graph, pair)?;
    }
    Ok(names)
}

/// Gives the names these values, where nothing speaks against any.
pub(crate) fn give(
    alloc: Global,
    graph: &mut Graph,
    values: &[(Name, Value)],
) -> Result<(), StoreError>
    requires distinct { AllPairs (λ (first second : Named × Content). first.0 ≢ second.0) values.now }
    requires allowed { set_refusal values.now graph.old.entries ≡ None }
    ensures ok { OnOk result (graph.new ≡ after_values true values.now graph.old) }
    ensures err { OnErr result (graph.new ≡ graph.old) }
    ensures memory { IfErr result (λ error. error ≡ StoreError.Memory) }
{
    graph.set_group(alloc, values)?;
    Ok(())
}

/// Adds the pair and gives the names these values, or leaves all as it was.
fn join(
    alloc: Global,
    graph: &mut Graph,
    pairs: &mut Pairs,
    one: Name,
    other: Name,
    values: &[(Name, Value)],
) -> Result<(), StoreError>
    requires distinct { AllPairs (λ (first second : Named × Content). first.0 ≢ second.0) values.now }
    requires allowed { set_refusal values.now graph.old.entries ≡ None }
    ensures graph { OnOk result (graph.new ≡ after_values true values.now graph.old) }
    ensures pairs { OnOk result (pairs.new ≡ pairs.old ++ (one.0, other.0) ∷ []) }
    ensures same_graph { OnErr result (graph.new ≡ graph.old) }
    ensures same_pairs { OnErr result (pairs.new ≡ pairs.old) }
    ensures memory { IfErr result (λ error. error ≡ StoreError.Memory) }
{
    pairs.add(one, other)?;
    if let Err(error) = give(alloc, graph, values) {
        pairs.remove_last();
        return Err(error);
    }
    Ok(())
}

/// Tells of a change that was made in the graph, and has every watched property read. The store is behind until then.
fn finish<L: Ledgers>(
    alloc: Global,
    graph: &mut Graph,
    listeners: &Listeners,
    owners: &Owners,
    behind: &mut bool,
    watch: &Watched,
    work: &mut Work<L>,
) -> Result<Notices, StoreError>
    requires known { AreKnown graph.old.entries watch.now.names.items }
    requires watch { (entries : List Entry)
        × IsWatch entries watch.now.heard.items watch.now.names.items watch.now.before.items }
    ensures kept { (pairs : List (ℕ × ℕ)) → IsKept graph.old pairs listeners.now owners.now true
        → IsEnough graph.old.unread (watch_list pairs (living_in owners.now.living listeners.now.entries))
        (numbers watch.now.names.items)
        → IsKept graph.new pairs listeners.now owners.now behind.new }
    ensures told { (change : Changing) → (before : Stored) → (pairs : List (ℕ × ℕ)) → (began : ℕ)
        → IsUnderWay change before graph.old pairs listeners.now owners.now (numbers watch.now.names.items)
        watch.now.heard.items watch.now.before.items began work.old.evaluated
        → Applied change before (stored_of graph.new pairs listeners.now owners.now) result began work.new.evaluated }
    ensures others { work.new ≡ record work.old { evaluated = work.new.evaluated } }
{
    *behind = true;
    graph.laws();
    let notices = tell(alloc, graph, listeners, owners, watch, work)?;
    *behind = false;
    Ok(notices)
}

/// The refusal, if there is one, and else that the name is in a pair.
fn unfit_or_mixed(refusal: Option<GraphError>, name: Name) -> StoreError
    ensures { Some result ≡ or_else (of_graph_refusal refusal) (Some (StoreError.Mixed name)) }
{
    match refusal {
        Some(refusal) => StoreError::from(refusal),
        None => StoreError::Mixed(name),
    }
}

/// The refusal in the words of the store.
fn as_of_store(refusal: Option<GraphError>) -> Option<StoreError>
    ensures { result ≡ of_graph_refusal refusal }
{
    match refusal {
        Some(refusal) => Some(StoreError::from(refusal)),
        None => None,
    }
}

impl Store {
    /// Looks at what a change of these properties may tell of; nothing is read. Where all that are watched are read, it
    /// looks at what will be unread alone, and these further names are to be read as well.
    fn look<L: Ledgers>(
        &mut self,
        alloc: Global,
        changing: &[Name],
        more: &[Name],
        work: &mut Work<L>,
    ) -> Result<Watched, AllocError>
        requires { AreKnown self.old.entries changing.now }
        ensures same { self.new ≡ self.old }
        ensures watch { IfOk result (λ watch. IsWatch self.old.entries watch.heard.items watch.names.items
            watch.before.items) }
        ensures look { IfOk result (λ watch. IsLook self.old.entries self.old.unread self.old.pairs self.old.listeners
            (numbers changing.now) (numbers more.now) watch.heard.items watch.names.items) }
        ensures cost { work.new.evaluated ≤ work.old.evaluated + due self.old }
        ensures others { work.new ≡ record work.old { evaluated = work.new.evaluated } }
    {
        if self.behind {
            return watch(
                alloc,
                &mut self.graph,
                self.pairs.as_slice(),
                &self.listeners,
                &self.owners,
                work,
            );
        }
        self.graph.laws();
        self.listeners.laws();
        self.graph.foresee(changing);
        let heard = listeners_on(
            alloc,
            &self.listeners,
            &self.owners,
            self.graph.newly(),
            ListenKind::Change,
        )?;
        let watch = watch_on(alloc, &mut self.graph, heard, more, work)?;
        Ok(watch)
    }

    pub(crate) fn set<L: Ledgers>(
        &mut self,
        alloc: Global,
        name: Name,
        value: Value,
        work: &mut Work<L>,
    ) -> Result<Notices, StoreError>
        ensures applied { Applied (change.Set name value) self.old self.new result work.old.evaluated
            work.new.evaluated }
        ensures others { work.new ≡ record work.old { evaluated = work.new.evaluated } }
    {
        let given = [(name, value)];
        if let Some(refusal) = self.graph.refuses_set(&given) {
            return Err(StoreError::from(refusal));
        }
        if self.graph.has_value(name, &given[0].1) {
            return self.set_again(alloc, name, &given[0].1, work);
        }
        if !self.pairs.is_paired(name) {
            return self.set_joined(alloc, &given[0], &[name], &given, work);
        }
        let group = self.pairs.group(alloc, name)?;
        let names = group.as_slice();
        let values = with_value(alloc, names, &given[0].1)?;
        self.set_joined(alloc, &given[0], names, values.as_slice(), work)
    }

    /// Gives the property and all that are joined with it the value, of which this is one pair for each, and tells of
    /// it.
    fn set_joined<L: Ledgers>(
        &mut self,
        alloc: Global,
        given: &(Name, Value),
        names: &[Name],
        values: &[(Name, Value)],
        work: &mut Work<L>,
    ) -> Result<Notices, StoreError>
        requires allowed { set_refusal ((given.now.0, given.now.1) ∷ []) self.old.entries ≡ None }
        requires joined { AreJoinedWith self.old.pairs given.now.0.0 names.now }
        requires values { values.now ≡ map (λ (name : Named). (name, given.now.1)) names.now }
        ensures applied { Applied (change.Set given.now.0 given.now.1) self.old self.new result work.old.evaluated
            work.new.evaluated }
        ensures others { work.new ≡ record work.old { evaluated = work.new.evaluated } }
    {
        let more = joined_ends(&self.pairs, given.0, names);
        let watch = self.look(alloc, names, more, work)?;
        self.graph.set_group(alloc, values)?;
        finish(
            alloc,
            &mut self.graph,
            &self.listeners,
            &self.owners,
            &mut self.behind,
            &watch,
            work,
        )
    }

    pub(crate) fn publish<L: Ledgers>(
        &mut self,
        alloc: Global,
        pairs: List<(Name, Value)>,
        work: &mut Work<L>,
    ) -> Result<Notices, StoreError>
        requires { IsFit (change.Publish pairs) self.old }
        ensures applied { Applied (change.Publish pairs) self.old self.new result work.old.evaluated
            work.new.evaluated }
        ensures others { work.new ≡ record work.old { evaluated = work.new.evaluated } }
    {
        let given = pairs.as_slice();
        if let Some(refusal) = self.graph.refuses_publish(given) {
            return Err(StoreError::from(refusal));
        }
        self.graph.laws();
        let changing = changing_names(alloc, &self.graph, given)?;
        let watch = self.look(alloc, changing.as_slice(), &[], work)?;
        self.graph.publish(alloc, given)?;
        finish(
            alloc,
            &mut self.graph,
            &self.listeners,
            &self.owners,
            &mut self.behind,
            &watch,
            work,
        )
    }

    pub(crate) fn bind<L: Ledgers>(
        &mut self,
        alloc: Global,
        name: Name,
        expr: Formula,
        operands: List<Name>,
        work: &mut Work<L>,
    ) -> Result<Notices, StoreError>
        requires { is_within expr (length operands) ≡ true }
        ensures applied { Applied (change.Bind name expr operands) self.old self.new result work.old.evaluated
            work.new.evaluated }
        ensures others { work.new ≡ record work.old { evaluated = work.new.evaluated } }
    {
        let refusal = self.refuses_bind(alloc, name, &expr, operands.as_slice())?;
        match refusal {
            Some(refusal) => return Err(refusal),
            None => {}
        }
        let watch = self.look(alloc, &[name], &[], work)?;
        self.graph.make_binding(name, expr, operands.into_vec())?;
        finish(
            alloc,
            &mut self.graph,
            &self.listeners,
            &self.owners,
            &mut self.behind,
            &watch,
            work,
        )
    }

    /// Why the property may not be bound so, if it may not: what doesn't fit comes before a pair.
    fn refuses_bind(
        &mut self,
        alloc: Global,
        name: Name,
        expr: &Formula,
        operands: &[Name],
    ) -> Result<Option<StoreError>, AllocError>
        requires { is_within expr.now (length operands.now) ≡ true }
        ensures same { self.new ≡ self.old }
        ensures refusal { IfOk result (λ refusal. refusal
            ≡ bind_refusal name expr.now operands.now self.old.entries self.old.pairs) }
    {
        if self.pairs.is_paired(name) {
            let unfit = self.graph.refuses_operands(alloc, name, expr, operands)?;
            return Ok(Some(unfit_or_mixed(unfit, name)));
        }
        let refusal = self.graph.refuses_bind(alloc, name, expr, operands)?;
        Ok(as_of_store(refusal))
    }

    pub(crate) fn pair<L: Ledgers>(
        &mut self,
        alloc: Global,
        one: Name,
        other: Name,
        work: &mut Work<L>,
    ) -> Result<Notices, StoreError>
        ensures applied { Applied (change.Pair one other) self.old self.new result work.old.evaluated
            work.new.evaluated }
        ensures others { work.new ≡ record work.old { evaluated = work.new.evaluated } }
    {
        if let Some(refusal) = of_pair(&self.graph, &self.pairs, one, other) {
            return Err(refusal);
        }
        let group = self.pairs.group(alloc, one)?;
        let names = group.as_slice();
        let more = joined_ends(&self.pairs, one, names);
        let mut watch = self.look(alloc, names, more, work)?;
        self.graph.laws();
        let values = other_values(alloc, &self.graph, names, other)?;
        push_two(&mut watch.names, one, other)?;
        join(
            alloc,
            &mut self.graph,
            &mut self.pairs,
            one,
            other,
            values.as_slice(),
        )?;
        finish(
            alloc,
            &mut self.graph,
            &self.listeners,
            &self.owners,
            &mut self.behind,
            &watch,
            work,
        )
    }
}
