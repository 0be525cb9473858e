//! The nodes in the definitions within a value or a property element.
ghost use Rattle.std.specs.Prelude.{◌≡◌, ◌++◌, IfOk, OnOk, false};
ghost use Rattle.fx_doc.specs.Views.{nodes_of, onto};
ghost use Rattle.fx_doc_grammar.specs.Grammar.{Nothing};
ghost use Rattle.fx_scene_outline.specs.Defined as spec;
ghost use Rattle.fx_scene_outline.specs.Views.{content_of, defined_shown, head_of, part_nodes, piece_view};

use crate::nodes::{is_define, is_defined_node};
use crate::pieces::Piece;
use fx_doc::{Content, Element};
use std::alloc::{AllocError, Global};

/// The nodes in the definitions within a piece, in document order.
pub fn defined_nodes<'a>(alloc: Global, piece: &Piece<'a>) -> Result<Vec<&'a Element>, AllocError>
    ensures { IfOk result (λ nodes. defined_shown nodes.items
        ≡ spec.defined_nodes (piece_view piece.now)) }
{
    let mut nodes = Vec::new(alloc);
    match piece {
        Piece::Value(element) => add_nodes(element.content.as_slice(), false, &mut nodes)?,
        Piece::Property(_, _, element) => add_nodes(element.content.as_slice(), false, &mut nodes)?,
        _ => {}
    }
    Ok(nodes)
}

/// Adds the nodes of some content, which is that of a definition or not.
#[cycle(within)]
fn add_nodes<'a>(
    content: &'a [Content],
    in_definition: bool,
    nodes: &mut Vec<&'a Element>,
) -> Result<(), AllocError>
    ensures ok { OnOk result (defined_shown nodes.new.items
        ≡ defined_shown nodes.old.items ++ spec.nodes_within in_definition (nodes_of content.now)) }
{
    for part in content {
        add_part(part, in_definition, nodes)?;
    }
    Ok(())
}

#[cycle(within)]
fn add_part<'a>(
    part: &'a Content,
    in_definition: bool,
    nodes: &mut Vec<&'a Element>,
) -> Result<(), AllocError>
    ensures ok { OnOk result (defined_shown nodes.new.items
        ≡ defined_shown nodes.old.items ++ part_nodes in_definition (onto part.now Nothing)) }
{
    match part {
        Content::Child(element) => add_element(element, in_definition, nodes),
        Content::Chars(_, _) => Ok(()),
    }
}

/// Adds an element that is a node right in a definition, or the nodes within it.
#[cycle(within)]
fn add_element<'a>(
    element: &'a Element,
    in_definition: bool,
    nodes: &mut Vec<&'a Element>,
) -> Result<(), AllocError>
    ensures ok { OnOk result (defined_shown nodes.new.items
        ≡ defined_shown nodes.old.items ++ spec.element_nodes
        (λ is_definition. spec.nodes_within is_definition (content_of element.now)) in_definition
        (head_of element.now) (content_of element.now)) }
{
    if in_definition && is_defined_node(element) {
        return Ok(nodes.push(element)?);
    }
    let is_definition = is_define(element.name.as_str());
    add_nodes(element.content.as_slice(), is_definition, nodes)
}
