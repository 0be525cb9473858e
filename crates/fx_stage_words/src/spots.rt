//! Where a child goes in a pane.
ghost use Rattle.std.specs.Prelude.{◌≡◌, map};
ghost use Rattle.std.specs.List.{position};
ghost use Rattle.std.specs.Str.{bytes_eq};
ghost use Rattle.fx_stage_model.specs.Nodes as spec;

use crate::numbers::number_of;
use fx_base::Text;
use fx_stage_types::Spot;

static EDGES: &[&str] = &["top", "right", "bottom", "left", "center"];

fn edges() -> &'static [&'static str]
    ensures { map (λ edge. edge.now) result.now ≡ spec.edges }
{
    EDGES
}

fn edge_of(edges: &[&str], word: &str) -> Option<usize>
    ensures { result ≡ position (λ edge. bytes_eq edge.now word.now) edges.now }
{
    edges.iter().position(|edge| *edge == word)
}

/// Where a word of `attach` puts a child.
pub fn spot_of(word: &Text) -> Spot
    ensures { result ≡ spec.spot_of word.now }
{
    match edge_of(edges(), word.as_str()) {
        Some(edge) => Spot::On(edge as u8),
        None => Spot::At(number_of(word) as usize),
    }
}
