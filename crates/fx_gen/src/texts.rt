//! The scene and the script of a demo, written line by line.
//! Between the single lines and the files that `make` gives.
ghost use Rattle.std.specs.Prelude.{◌≡◌, ◌++◌, ◌+◌, ◌*◌, ◌<◌, ◌≤◌, OnOk, string_bytes};
ghost use Rattle.fx_gen.specs.Demo.{box_lines, label_count, scene_lines, script_lines, text_of, turn};
ghost use Rattle.fx_gen.specs.Draws.{state};

use crate::draws::Draws;
use crate::lines::{put_box_line, put_class_line, put_label, put_listen_line, put_set_line};
use std::alloc::AllocError;

const HEAD: &str = "<?import javafx.scene.layout.*?><?import javafx.scene.control.*?>\n\
<VBox fx:id=\"root\" prefWidth=\"320\" prefHeight=\"240\">\n";

/// Writes the scene of so many labels.
pub(crate) fn put_scene(out: &mut String, number: u32, draws: &mut Draws) -> Result<(), AllocError>
    requires most { number ≤ 3600 }
    requires first { draws.old.state ≡ number }
    ensures text { OnOk result (string_bytes out.new ≡ string_bytes out.old ++ text_of (scene_lines number)) }
    ensures state { OnOk result (draws.new.state ≡ state number number) }
{
    out.push_str(HEAD)?;
    for group in 0..number.div_ceil(10) {
        put_box(out, number, group, draws)?;
    }
    writeln!(out, "</VBox>")
}

#[tactic(auto, unfolding(crate::specs::Demo::box_lines))]
fn put_box(out: &mut String, number: u32, group: u32, draws: &mut Draws) -> Result<(), AllocError>
    requires most { number ≤ 3600 }
    requires within { 10 * group < number }
    requires state { draws.old.state ≡ state number (10 * group) }
    ensures text { OnOk result (string_bytes out.new ≡ string_bytes out.old ++ text_of (box_lines number group)) }
    ensures state { OnOk result (draws.new.state ≡ state number (10 * group + label_count number group)) }
{
    put_box_line(out, group)?;
    let first = 10 * group;
    for index in first..number.min(first + 10) {
        put_label(out, index, draws.draw())?;
    }
    writeln!(out, "</HBox>")
}

/// Writes the script of the demo of so many labels.
pub(crate) fn put_script(out: &mut String, number: u32, draws: &mut Draws) -> Result<(), AllocError>
    requires some { 1 ≤ number }
    requires most { number ≤ 3600 }
    requires state { draws.old.state ≡ state number number }
    ensures { OnOk result (string_bytes out.new ≡ string_bytes out.old ++ text_of (script_lines number)) }
{
    put_listen_line(out, number)?;
    draws.draw();
    for j in 1..21 {
        put_turn(out, number, j, draws)?;
    }
    Ok(())
}

#[tactic(auto, unfolding(crate::specs::Demo::turn))]
fn put_turn(out: &mut String, number: u32, j: u32, draws: &mut Draws) -> Result<(), AllocError>
    requires some { 1 ≤ number }
    requires most { number ≤ 3600 }
    requires few { j ≤ 20 }
    requires state { draws.old.state ≡ state number (number + j) }
    ensures text { OnOk result (string_bytes out.new ≡ string_bytes out.old ++ text_of (turn number j)) }
    ensures state { OnOk result (draws.new.state ≡ state number (number + j + 1)) }
{
    put_set_line(out, draws.draw())?;
    put_class_line(out, j % number.div_ceil(10))?;
    writeln!(out, "pulse")
}
