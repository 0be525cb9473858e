//! An update from a line.
use crate::reading::read_node;
use anyhow::bail;
use fx_kinds::BoxFacts;
use fx_look::Look;
use std::alloc::Global;

/// What an update is given, and whether nothing is kept before it.
#[derive(Drop)]
pub struct Update {
    pub is_new: bool,
    pub window: Option<(u32, u32)>,
    pub listed: Vec<usize>,
    pub nodes: Vec<BoxFacts>,
    pub looks: Vec<Look>,
}

/// The update of a line.
pub fn read_update(alloc: Global, line: &str) -> anyhow::Result<Update> {
    let (head, rest) = line.split_once('|').unwrap_or((line, ""));
    let mut words = head.split(' ');
    let is_new = words.next() == Some("new");
    let window = read_window(words.next().unwrap_or("-"))?;
    let mut update = Update {
        is_new,
        window,
        listed: read_places(alloc, words.next().unwrap_or(""))?,
        nodes: Vec::new(alloc),
        looks: Vec::new(alloc),
    };
    match read_nodes(alloc, rest, &mut update) {
        Ok(()) => Ok(update),
        Err(error) => Err(error),
    }
}

fn read_nodes(alloc: Global, text: &str, update: &mut Update) -> anyhow::Result<()> {
    for part in text.split('|') {
        let (node, look) = read_node(alloc, part)?;
        update.nodes.push(node)?;
        update.looks.push(look)?;
    }
    Ok(())
}

fn read_window(word: &str) -> anyhow::Result<Option<(u32, u32)>> {
    if word == "-" {
        return Ok(None);
    }
    let Some((width, height)) = word.split_once('x') else {
        bail!("no window");
    };
    Ok(Some((width.parse::<u32>()?, height.parse::<u32>()?)))
}

fn read_places(alloc: Global, text: &str) -> anyhow::Result<Vec<usize>> {
    let mut places = Vec::new(alloc);
    for word in text.split(',') {
        if !word.is_empty() {
            places.push(word.parse::<usize>()?)?;
        }
    }
    Ok(places)
}
