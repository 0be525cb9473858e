//! Writes a script of many lines, reads it, and prints how many bytes it has and how many lines were read. A script
//! counts its instructions; no other crate stands on this one.
#![tactic(auto)]

use anyhow::bail;
use fx_script_commands::read_script;
use std::alloc::Global;
use std::env;

/// Lines as scripts have them, with bindings and actions among them.
const LINES: [&str; 20] = [
    "prop count int 17",
    "set panel.row.label.prefWidth 250",
    "bind panel.row.label.prefWidth ${count * 10 + panel.row.width}",
    "get panel.row.label.prefWidth",
    "listen change panel.row.label.prefWidth watcher",
    "# what a click on the button in the second row of the panel does if enabled",
    "action clicked",
    "set panel.row.label.text You clicked the button in the second row once more than one may think",
    "say the button in the second row was clicked once more by someone",
    "consume",
    "end",
    "handle panel.button MOUSE_CLICKED clicked",
    "style panel.row.label -fx-background-color: #336699, red; -fx-padding: 2 4 2 4; -fx-border-color: #000000",
    "class panel.row.label highlighted",
    "pseudo panel.row.label selected on",
    "constrain panel.row.label HBox.margin 1 2 3 4",
    "keyframe fade 250 panel.row.label.layoutX 300",
    "new javafx.scene.control.Label another",
    "attach panel.row another 0",
    "pulse",
];

fn main(rt: HostRuntime) -> anyhow::Result<()> {
    let mut words = env::args(&rt)?;
    let _program = words.next();
    let (Some(lines), Some(reads)) = (words.next(), words.next()) else {
        bail!("usage: script_bench LINES READINGS");
    };
    let lines = lines.as_str().parse::<usize>()?;
    let reads = reads.as_str().parse::<usize>()?;
    let (bytes, read) = run(rt.alloc(), lines, reads)?;
    println!(rt; "{bytes} bytes, {read} lines read")?;
    Ok(())
}

/// The bytes of a script of so many lines, and the lines of all readings of it.
fn run(alloc: Global, lines: usize, reads: usize) -> anyhow::Result<(usize, usize)> {
    let text = script(alloc, lines)?;
    let mut read = 0usize;
    for _ in 0..reads {
        let found = read_script(alloc, text.as_bytes())?;
        read = read.wrapping_add(found.len());
    }
    Ok((text.len(), read))
}

fn script(alloc: Global, lines: usize) -> anyhow::Result<String> {
    let mut text = String::new(alloc);
    for number in 0..lines {
        text.push_str(LINES[number % 20])?;
        text.push_str("\n")?;
    }
    Ok(text)
}
