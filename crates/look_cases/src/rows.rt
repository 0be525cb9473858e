//! What stands in the tables of classes, of their properties, of constraints and of names that are ignored.
use crate::values::{nothing, printed};
use anyhow::bail;
use fx_kinds::{
    Class, Property, class_of, constraint_of, constraint_table, ignored_names, initial, is_control,
    is_ignored, is_node, name_of, package_of, properties, property_named, takes_children,
};
use std::alloc::Global;

/// What a table has at this key.
pub fn find(alloc: Global, table: &str, key: &str) -> anyhow::Result<String> {
    match table {
        "class" => class(alloc, key),
        "property" => property(alloc, key),
        "constraint" => constraint(alloc, key),
        "constraints" => count(alloc, constraint_table().len()),
        "ignored" => Ok(format!(in alloc; "{}", is_ignored(key))?),
        "ignored-names" => count(alloc, ignored_names().len()),
        _ => bail!("no such reader or table"),
    }
}

fn count(alloc: Global, count: usize) -> anyhow::Result<String> {
    Ok(format!(in alloc; "{count}")?)
}

/// A class, its name and package, and whether it is a node, takes children and is a control.
fn class(alloc: Global, name: &str) -> anyhow::Result<String> {
    let Some(class) = class_of(name) else {
        return Ok(nothing(alloc)?);
    };
    let (name, package) = (name_of(class), package_of(class));
    let (node, children, control) = (is_node(class), takes_children(class), is_control(class));
    Ok(format!(in alloc; "{class:?} {name} {package} {node} {children} {control}")?)
}

/// A property of a class by its place.
fn property(alloc: Global, key: &str) -> anyhow::Result<String> {
    let Some((name, place)) = key.split_once(' ') else {
        bail!("a place stands behind a class");
    };
    match class_of(name) {
        Some(class) => listed(alloc, class, place.parse::<usize>()?),
        None => bail!("no such class"),
    }
}

fn listed(alloc: Global, class: Class, place: usize) -> anyhow::Result<String> {
    if place >= properties(class).len() {
        return Ok(nothing(alloc)?);
    }
    let first = initial(alloc, class, place)?;
    let first = printed(alloc, &first)?;
    shown(alloc, class, &properties(class)[place], first.as_str())
}

/// A property with its initial value and its style, and where its name is found.
fn shown(alloc: Global, class: Class, property: &Property, first: &str) -> anyhow::Result<String> {
    let Some(place) = property_named(class, property.name) else {
        bail!("a property isn't found");
    };
    let (name, kind, read_only) = (property.name, property.kind, property.read_only);
    let style = style_of(property);
    Ok(format!(in alloc; "{name} {kind:?} {read_only} [{first}] [{style}] {place}")?)
}

fn style_of(property: &Property) -> &'static str {
    match property.styled {
        Some(name) => match name.style() {
            Some(style) => style.name,
            None => "",
        },
        None => "",
    }
}

/// A constraint's kind and range.
fn constraint(alloc: Global, name: &str) -> anyhow::Result<String> {
    let Some(row) = constraint_of(name) else {
        return Ok(nothing(alloc)?);
    };
    let kind = row.kind;
    match row.range {
        Some((least, most)) => Ok(format!(in alloc; "{kind:?} {least}..{most}")?),
        None => Ok(format!(in alloc; "{kind:?} any")?),
    }
}
