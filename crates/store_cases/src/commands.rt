//! The commands, one function for each change of the store.
ghost use Rattle.fx_store_model.specs.Step.{IsFit};

use crate::answers::{of_change, of_error, of_read};
use crate::words::{name, next, next_name, next_number, next_value};
use anyhow::bail;
use fx_base::{Ledgers, List, Name, Work};
use fx_expr::read_expr;
use fx_graph_model::{Formula, Origin};
use fx_handles::Owner;
use fx_listen::ListenKind;
use fx_store::Store;
use fx_store_model::Change;
use std::alloc::Global;
use std::mem::{forget, replace};
use std::str::Split;

/// The store, and the owners in the order of their making.
#[derive(Drop)]
pub struct Run {
    pub store: Store,
    owners: Vec<Owner>,
}

impl Run {
    pub fn new(alloc: Global) -> Run {
        Run {
            store: Store::new(alloc),
            owners: Vec::new(alloc),
        }
    }
}

pub fn carry_out<L: Ledgers>(
    alloc: Global,
    run: &mut Run,
    line: &str,
    work: &mut Work<L>,
) -> anyhow::Result<String> {
    let mut words = line.split(' ');
    match next(&mut words)? {
        "store" => begin(alloc, run),
        "declare" => declare(alloc, run, false, &mut words),
        "declare-read-only" => declare(alloc, run, true, &mut words),
        "publish" => publish(alloc, run, &mut words, work),
        "bind" => bind(alloc, run, &mut words, work),
        "read" => read(alloc, run, &mut words, work),
        "owner" => make_owner(alloc, run),
        "release" => release(alloc, run, &mut words),
        "is-bound" => is_bound(alloc, run, &mut words),
        "is-listening" => is_listening(alloc, run, &mut words),
        "listen" => listen(alloc, run, &mut words, work),
        "unlisten" => unlisten(alloc, run, &mut words, work),
        "forget" => forget_names(alloc, run, &mut words, work),
        word => change_one(alloc, run, word, &mut words, work),
    }
}

fn plain(alloc: Global, word: &str) -> anyhow::Result<String> {
    Ok(String::from_str(alloc, word)?)
}

/// Another store. The one before isn't freed: those of all cases are few and small.
fn begin(alloc: Global, run: &mut Run) -> anyhow::Result<String> {
    forget(replace(run, Run::new(alloc)));
    plain(alloc, "ok")
}

fn release(alloc: Global, run: &mut Run, words: &mut Split<'_, char>) -> anyhow::Result<String> {
    let released = match owner(run, words)? {
        Some(owner) => run.store.release_owner(owner),
        None => false,
    };
    plain(alloc, if released { "ok" } else { "stale" })
}

fn is_bound(alloc: Global, run: &Run, words: &mut Split<'_, char>) -> anyhow::Result<String> {
    yes_or_no(alloc, run.store.is_bound(next_name(words)?))
}

fn is_listening(alloc: Global, run: &Run, words: &mut Split<'_, char>) -> anyhow::Result<String> {
    yes_or_no(alloc, run.store.is_listening(next_number(words)?))
}

fn yes_or_no(alloc: Global, answer: bool) -> anyhow::Result<String> {
    plain(alloc, if answer { "yes" } else { "no" })
}

/// Makes the change, and gives what is printed of its answer.
fn applied<L: Ledgers>(
    alloc: Global,
    run: &mut Run,
    change: Change,
    work: &mut Work<L>,
) -> anyhow::Result<String>
    requires { IsFit change run.old.store }
{
    of_change(alloc, run.store.apply(alloc, change, work))
}

/// A change of one property, or of two.
fn change_one<L: Ledgers>(
    alloc: Global,
    run: &mut Run,
    word: &str,
    words: &mut Split<'_, char>,
    work: &mut Work<L>,
) -> anyhow::Result<String> {
    let first = next_name(words)?;
    match word {
        "set" => {
            let value = next_value(alloc, words)?;
            applied(alloc, run, Change::Set(first, value), work)
        }
        "unbind" => applied(alloc, run, Change::Unbind(first), work),
        "pair" => {
            let second = next_name(words)?;
            applied(alloc, run, Change::Pair(first, second), work)
        }
        "unpair" => {
            let second = next_name(words)?;
            applied(alloc, run, Change::Unpair(first, second), work)
        }
        _ => bail!("no such command"),
    }
}

/// What a line asks for of a listener.
#[derive(Clone, Copy)]
struct Asked {
    name: Name,
    kind: ListenKind,
    owner: Option<Owner>,
    tag: u32,
}

fn read_asked(run: &Run, words: &mut Split<'_, char>) -> anyhow::Result<Asked> {
    Ok(Asked {
        name: next_name(words)?,
        kind: kind(next(words)?)?,
        owner: owner(run, words)?,
        tag: next_number(words)?,
    })
}

fn listen<L: Ledgers>(
    alloc: Global,
    run: &mut Run,
    words: &mut Split<'_, char>,
    work: &mut Work<L>,
) -> anyhow::Result<String> {
    let asked = read_asked(run, words)?;
    let change = Change::Listen(asked.name, asked.kind, asked.owner, asked.tag);
    applied(alloc, run, change, work)
}

fn unlisten<L: Ledgers>(
    alloc: Global,
    run: &mut Run,
    words: &mut Split<'_, char>,
    work: &mut Work<L>,
) -> anyhow::Result<String> {
    let asked = read_asked(run, words)?;
    let change = Change::Unlisten(asked.name, asked.kind, asked.owner, asked.tag);
    applied(alloc, run, change, work)
}

fn forget_names<L: Ledgers>(
    alloc: Global,
    run: &mut Run,
    words: &mut Split<'_, char>,
    work: &mut Work<L>,
) -> anyhow::Result<String> {
    let names = names(alloc, words)?;
    applied(alloc, run, Change::Forget(List::from_vec(names)), work)
}

/// The names that are left of a line.
fn names(alloc: Global, words: &mut Split<'_, char>) -> anyhow::Result<Vec<Name>> {
    let mut names = Vec::new(alloc);
    for word in words {
        names.push(name(word)?)?;
    }
    Ok(names)
}

fn kind(word: &str) -> anyhow::Result<ListenKind> {
    match word {
        "invalid" => Ok(ListenKind::Invalid),
        "change" => Ok(ListenKind::Change),
        _ => bail!("no such kind of listener"),
    }
}

/// The owner that was made as this one, from 1 on; none for 0.
fn owner(run: &Run, words: &mut Split<'_, char>) -> anyhow::Result<Option<Owner>> {
    let place = next_number(words)? as usize;
    if place == 0 {
        return Ok(None);
    }
    match run.owners.as_slice().get(place - 1) {
        Some(owner) => Ok(Some(*owner)),
        None => bail!("no such owner"),
    }
}

fn make_owner(alloc: Global, run: &mut Run) -> anyhow::Result<String> {
    match run.store.make_owner(alloc) {
        Ok(owner) => {
            run.owners.push(owner)?;
            Ok(format!(in alloc; "owner {}", owner.birth)?)
        }
        Err(error) => of_error(alloc, &error),
    }
}

fn declare(
    alloc: Global,
    run: &mut Run,
    read_only: bool,
    words: &mut Split<'_, char>,
) -> anyhow::Result<String> {
    let value = next_value(alloc, words)?;
    let kind = value.kind();
    match run.store.declare(alloc, kind, read_only, value) {
        Ok(name) => Ok(format!(in alloc; "name {}", name.0)?),
        Err(error) => of_error(alloc, &error),
    }
}

fn publish<L: Ledgers>(
    alloc: Global,
    run: &mut Run,
    words: &mut Split<'_, char>,
    work: &mut Work<L>,
) -> anyhow::Result<String> {
    let name = next_name(words)?;
    if !run.store.is_read_only(name) {
        bail!("only a read-only property is published");
    }
    let mut pairs = Vec::new(alloc);
    pairs.push((name, next_value(alloc, words)?))?;
    applied(alloc, run, Change::Publish(List::from_vec(pairs)), work)
}

fn bind<L: Ledgers>(
    alloc: Global,
    run: &mut Run,
    words: &mut Split<'_, char>,
    work: &mut Work<L>,
) -> anyhow::Result<String> {
    let bound = next_name(words)?;
    let parsed = read_expr(alloc, next(words)?)?;
    let operands = names(alloc, words)?;
    if operands.len() != parsed.paths.as_slice().len() {
        bail!("each path has one operand");
    }
    let formula = Formula::new(alloc, parsed.expr)?;
    let change = Change::Bind(bound, formula, List::from_vec(operands));
    applied(alloc, run, change, work)
}

/// The value, and from where the definition came.
fn read<L: Ledgers>(
    alloc: Global,
    run: &mut Run,
    words: &mut Split<'_, char>,
    work: &mut Work<L>,
) -> anyhow::Result<String> {
    let name = next_name(words)?;
    match run.store.read(alloc, name, work) {
        Ok(value) => of_read(alloc, &value, origin_of(run.store.origin(name))),
        Err(error) => of_error(alloc, &error),
    }
}

fn origin_of(origin: Option<Origin>) -> &'static str {
    match origin {
        Some(Origin::Initial) => "initial",
        Some(Origin::Code) => "code",
        Some(Origin::Bound) => "bound",
        None => "none",
    }
}
