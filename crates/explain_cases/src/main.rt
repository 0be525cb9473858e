//! Explains properties of nodes, each from the sheets and the matches that are given line by line, and prints which
//! declaration wins and where the others lose. Its input and output are a test of explanations: the output was computed
//! by another program.
#![tactic(auto)]

mod node;
mod print;
mod words;

use node::Node;
use print::explanation;
use words::{next, rest};

fn main(rt: HostRuntime) -> anyhow::Result<()> {
    let alloc = rt.alloc();
    let mut node = Node::new(alloc);
    for line in rt.lines(alloc) {
        let line = line?;
        let mut words = line.as_str().split(' ');
        match next(&mut words)? {
            "case" => node = Node::new(alloc),
            "explain" => {
                let text = explanation(alloc, &node, next(&mut words)?)?;
                rt.print(text.as_str())?;
            }
            word => node.take(alloc, word, &rest(alloc, words)?)?,
        }
    }
    Ok(())
}
