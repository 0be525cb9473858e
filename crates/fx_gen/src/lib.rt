//! The files of a demo, made from a number: a scene of so many labels in boxes of ten, a style sheet, and a script.
//! They stand in place of files that are fetched.
#![tactic(auto)]

ghost use Rattle.std.specs.Prelude.{◌≡◌, ◌≤◌, IfOk};
ghost use Rattle.fx_gen.specs.Demo.{scene_lines, script_lines, sheet_lines, text_of};

mod draws;
mod lines;
mod texts;

use crate::draws::Draws;
use crate::texts::{put_scene, put_script};
use std::alloc::{AllocError, Global};

const SHEET: &str = ".label{-fx-background-color:skyblue}\n.hot{-fx-background-color:orange}\n";

/// The scene, the style sheet and the script of the demo of so many labels.
pub fn make(alloc: Global, number: u32) -> Result<(Vec<u8>, Vec<u8>, Vec<u8>), AllocError>
    requires some { 1 ≤ number }
    requires most { number ≤ 3600 }
    ensures scene { IfOk result (λ files. files.0.items ≡ text_of (scene_lines number)) }
    ensures sheet { IfOk result (λ files. files.1.items ≡ text_of sheet_lines) }
    ensures script { IfOk result (λ files. files.2.items ≡ text_of (script_lines number)) }
{
    let mut draws = Draws::new(number);
    let mut scene = String::new(alloc);
    put_scene(&mut scene, number, &mut draws)?;
    let sheet = String::from_str(alloc, SHEET)?;
    let mut script = String::new(alloc);
    put_script(&mut script, number, &mut draws)?;
    Ok((scene.into_bytes(), sheet.into_bytes(), script.into_bytes()))
}
