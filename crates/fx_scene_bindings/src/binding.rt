//! Binding a property to an expression.
ghost use Rattle.std.specs.Prelude.{◌≡◌, IfOk, IsTrue, Some, length, map};
ghost use Rattle.std.specs.Result.{result_ok};
ghost use Rattle.fx_expr.specs.Filling.{filled, unknowns};
ghost use Rattle.fx_expr.specs.Tree.{is_within, tree};
ghost use Rattle.fx_kinds.specs.Listing.{listed_property};
ghost use Rattle.fx_scene_bindings.specs.Bindings as spec;
ghost use Rattle.fx_scene_bindings.specs.Views.{operand_view};
ghost use Rattle.fx_scene_things.specs.Known.{known, space_view};

use crate::operands::{
    Operand, are_named, has_value, kinds_of, operands_of, planned_of, values_of,
};
use crate::reading::read;
use fx_base::{Kind, List, Text};
use fx_expr::{Expr, ExprError, KindError, Parsed, as_text, fill, type_of};
use fx_graph_model::Formula;
use fx_kinds::Property;
use fx_scene_acts::{Binding, Doing};
use fx_scene_flaws::{FaultKind, Flaw};
use fx_scene_plan::PlannedStep;
use fx_scene_things::{Names, Space};
use fx_scene_values::{planned_property, property_named};
use std::alloc::{AllocError, Global};

/// What is done for a binding over the names of its document, and of the documents that those include.
#[tactic(auto, unfolding(crate::specs::Bindings::bound))]
pub fn bound(
    alloc: Global,
    spaces: &[Space],
    names: &Names,
    binding: &Binding,
) -> Result<Doing, AllocError>
    ensures { IfOk result (λ doing. doing
        ≡ spec.bound (map space_view spaces.now) (known names.now) binding.now) }
{
    match property_named(binding.class, binding.property.as_str()) {
        Some(property) => bound_property(
            alloc,
            spaces,
            names,
            binding.node,
            property,
            binding.text.as_str(),
        ),
        None => Ok(at_fault(Flaw::Property)),
    }
}

fn bound_property(
    alloc: Global,
    spaces: &[Space],
    names: &Names,
    node: usize,
    property: &Property,
    text: &str,
) -> Result<Doing, AllocError>
    ensures { IfOk result (λ doing. doing ≡ spec.bound_property (map space_view spaces.now) (known names.now) node
        text.now (Some (listed_property property.now))) }
{
    match read(alloc, text) {
        Ok(parsed) => bound_over(alloc, spaces, names, node, property, parsed),
        Err(error) => refused(error),
    }
}

fn at_fault(flaw: Flaw) -> Doing
    ensures { result ≡ spec.at_fault flaw }
{
    Doing::Fault(FaultKind::Flawed(flaw))
}

fn refused(error: ExprError) -> Result<Doing, AllocError>
    ensures { IfOk result (λ doing. spec.IsRefused error doing) }
{
    match error {
        ExprError::Syntax => Ok(at_fault(Flaw::Expression)),
        ExprError::Depth | ExprError::Operands => Ok(at_fault(Flaw::Limit)),
        ExprError::Memory => Err(AllocError),
    }
}

fn bound_over(
    alloc: Global,
    spaces: &[Space],
    names: &Names,
    node: usize,
    property: &Property,
    parsed: Parsed,
) -> Result<Doing, AllocError>
    requires { IsTrue (is_within (tree parsed.expr) (length parsed.paths)) }
    ensures { IfOk result (λ doing. doing ≡ spec.bound_over (map space_view spaces.now) (known names.now) node
        (listed_property property.now) (tree parsed.expr) parsed.paths) }
{
    match operands_of(alloc, spaces, names, parsed.paths.as_slice())? {
        Some(operands) => {
            let expr = filled(alloc, names, parsed)?;
            bound_to(alloc, node, property, expr, operands.as_slice())
        }
        None => Ok(unbound(spaces, names, parsed.paths.as_slice())),
    }
}

/// What is wrong where a path leads to no operand: it leads to nothing, or to a node that has no such property.
fn unbound(spaces: &[Space], names: &Names, paths: &[List<Text>]) -> Doing
    ensures { result ≡ spec.unbound (map space_view spaces.now) (known names.now) paths.now }
{
    if are_named(spaces, names, paths) {
        at_fault(Flaw::Property)
    } else {
        at_fault(Flaw::Name)
    }
}

/// The expression with the values among its paths in it, which mostly has none.
fn filled(alloc: Global, names: &Names, parsed: Parsed) -> Result<Expr, AllocError>
    requires { IsTrue (is_within (tree parsed.expr) (length parsed.paths)) }
    ensures filled { IfOk result
        (λ e. tree e ≡ filled (spec.values_of (known names.now) parsed.paths) (tree parsed.expr)) }
    ensures within { IfOk result
        (λ e. IsTrue (is_within (tree e) (unknowns (spec.values_of (known names.now) parsed.paths)))) }
{
    if has_value(names, parsed.paths.as_slice()) {
        let values = values_of(alloc, names, parsed.paths.as_slice())?;
        return fill(alloc, parsed, values);
    }
    Ok(parsed.expr)
}

fn bound_to(
    alloc: Global,
    node: usize,
    property: &Property,
    expr: Expr,
    operands: &[Operand],
) -> Result<Doing, AllocError>
    requires { IsTrue (is_within (tree expr) (length operands.now)) }
    ensures { IfOk result (λ doing. doing
        ≡ spec.bound_to node (listed_property property.now) (tree expr) (map operand_view operands.now)) }
{
    let expr = formula_of(alloc, property.kind, expr, operands)?;
    let formula = Formula::new(alloc, expr)?;
    let property = planned_property(alloc, node, property.name)?;
    let planned = planned_of(alloc, operands)?;
    Ok(Doing::Step(PlannedStep::Bind(property, formula, planned)))
}

/// The expression of the kind that is wanted: a number or a truth is printed where a text is wanted.
fn formula_of(
    alloc: Global,
    want: Kind,
    expr: Expr,
    operands: &[Operand],
) -> Result<Expr, AllocError>
    requires { IsTrue (is_within (tree expr) (length operands.now)) }
    ensures { IfOk result (λ e. tree e ≡ spec.formula_of want (tree expr) (map operand_view operands.now)) }
{
    if !is_text(want) {
        return Ok(expr);
    }
    let kinds = kinds_of(alloc, operands)?;
    if is_printed(type_of(&expr, kinds.as_slice())) {
        as_text(alloc, expr)
    } else {
        Ok(expr)
    }
}

fn is_text(kind: Kind) -> bool
    ensures { result ≡ spec.is_text kind }
{
    matches!(kind, Kind::Text)
}

fn is_printed(kind: Result<Kind, KindError>) -> bool
    ensures { result ≡ spec.is_printed (result_ok kind) }
{
    match kind {
        Ok(kind) => is_shown(kind),
        Err(_) => false,
    }
}

fn is_shown(kind: Kind) -> bool
    ensures { result ≡ spec.is_printed (Some kind) }
{
    matches!(kind, Kind::Int | Kind::Bool)
}
