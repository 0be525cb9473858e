//! Reads what its input gives line by line, and prints what is read: selectors, declarations, sheets and styles, what
//! the bytes of a sheet say, expressions with what they mean, and documents. Its input and output are a test of the
//! readers: the output is that of the reference player, or was counted by hand.
//!
//! A line is a word, a `|`, and a text with the escapes of escapes.rt, in which the answer is printed too.
//!
//! `selectors` and `declaration` say whether the text spells such a part, and what in it is past a limit; `written` and
//! `value` write the part, `sheet` and `style` count the parts (sheets.rt), and `agent` says whether the text is the
//! sheet of the user agent. `marks` and `places` say what a text says, and where it stands (marks.rt); `bare` whether
//! it says itself. `expression` gives the kind and the value where `a` begins a path of 7, `n` one of -3, `b` a true
//! one and `p` a false one. `document` gives an outline, and `prefixes` those of all that a text begins with.
#![tactic(auto)]

mod documents;
mod escapes;
mod expressions;
mod marks;
mod parts;
mod sheets;

ghost use Rattle.std.specs.Prelude.{◌≡◌};

use anyhow::bail;
use escapes::{bytes_of, write_escaped};
use fx_base::{Ledgers, Work};
use std::alloc::Global;
use std::marker::Brand;
use std::sync::ledger::Blank;

fn main(rt: HostRuntime) -> anyhow::Result<()> {
    play::<Brand, HostRuntime>(
        &rt,
        Blank::new(1),
        Blank::new(1),
        Blank::new(1),
        Blank::new(1),
    )
}

fn play<L: Ledgers, R: Input + Print + AllocGlobal>(
    rt: &R,
    evaluated: Blank,
    styled: Blank,
    laid: Blank,
    painted: Blank,
) -> anyhow::Result<()>
    requires evaluated { (evaluated.name ≡ L.evaluated_name) × (evaluated.parts ≡ 1) }
    requires styled { (styled.name ≡ L.styled_name) × (styled.parts ≡ 1) }
    requires laid { (laid.name ≡ L.laid_name) × (laid.parts ≡ 1) }
    requires painted { (painted.name ≡ L.painted_name) × (painted.parts ≡ 1) }
{
    let mut work: Work<L> = Work::new(evaluated, styled, laid, painted);
    for line in rt.lines(rt.alloc()) {
        let line = line?;
        play_line(rt, line.as_str(), &mut work)?;
    }
    Ok(())
}

fn play_line<L: Ledgers, R: Print + AllocGlobal>(
    rt: &R,
    line: &str,
    work: &mut Work<L>,
) -> anyhow::Result<()> {
    let mut text = String::new(rt.alloc());
    answer(rt.alloc(), line, &mut text, work)?;
    rt.println(text.as_str())?;
    Ok(())
}

/// Writes what is printed of a line.
fn answer<L: Ledgers>(
    alloc: Global,
    line: &str,
    out: &mut String,
    work: &mut Work<L>,
) -> anyhow::Result<()> {
    let Some((word, text)) = line.split_once('|') else {
        bail!("a word is wanting");
    };
    let bytes = bytes_of(alloc, text)?;
    let mut read = String::new(alloc);
    write_reading(alloc, word, bytes.as_slice(), &mut read, work)?;
    write_escaped(out, read.as_bytes())
}

/// Writes what is read of a text.
fn write_reading<L: Ledgers>(
    alloc: Global,
    word: &str,
    text: &[u8],
    out: &mut String,
    work: &mut Work<L>,
) -> anyhow::Result<()> {
    match word {
        "selectors" => parts::tell_selectors(alloc, text, out),
        "declaration" => parts::tell_declaration(alloc, text, out),
        "written" => parts::write_selectors_of(alloc, text, out),
        "value" => parts::write_declaration_of(alloc, text, out),
        "sheet" => sheets::write_sheet_of(alloc, text, out),
        "style" => sheets::write_style_of(alloc, text_of(text)?, out),
        "agent" => sheets::tell_agent(alloc, text, out),
        "marks" => marks::write_said(alloc, text, out),
        "bare" => marks::tell_bare(text, out),
        "places" => marks::write_places(alloc, text_of(text)?, out),
        "expression" => expressions::write_meaning(alloc, text_of(text)?, out, work),
        "document" => documents::write_document(alloc, text, out),
        "prefixes" => documents::write_prefixes(alloc, text, out),
        _ => bail!("no such word"),
    }
}

fn text_of(bytes: &[u8]) -> anyhow::Result<&str> {
    match str::from_utf8(bytes) {
        Ok(text) => Ok(text),
        Err(_) => bail!("not UTF-8"),
    }
}
