//! The lines that are printed.
ghost use Rattle.std.specs.Prelude.{◌≡◌, ◌++◌, ◌+◌, [], OnOk, codes};
ghost use Rattle.std.specs.Fmt.{decimal};
ghost use Rattle.std.specs.List.{flat_map};
ghost use Rattle.std.specs.Option.{option_map_or};
ghost use Rattle.fx_plain_explain.specs.Ranks as spec;

use fx_cascade::Source;
use fx_css_types::{Candidate, SheetAt, SheetOrigin};
use fx_explain::{Cut, Explained, Loser, Rank, rank_of};
use std::alloc::{AllocError, Global};

/// Appends the winner's line and a line for each that loses.
pub(crate) fn print_explanation(
    alloc: Global,
    out: &mut Vec<u8>,
    sheets: &[SheetAt],
    seen: &[usize],
    matched: &[Candidate],
    told: &Explained,
) -> Result<(), AllocError>
    ensures { OnOk result (out.new.items ≡ out.old.items
        ++ spec.explanation_lines (spec.source_text sheets.now seen.now matched.now) told.now) }
{
    print_winner(alloc, out, sheets, seen, matched, told.winner)?;
    print_losers(alloc, out, sheets, seen, matched, told.losers.as_slice())
}

#[tactic(auto, unfolding(fx_plain_explain::specs::Ranks::winner_line))]
fn print_winner(
    alloc: Global,
    out: &mut Vec<u8>,
    sheets: &[SheetAt],
    seen: &[usize],
    matched: &[Candidate],
    winner: Option<Source>,
) -> Result<(), AllocError>
    ensures { OnOk result (out.new.items ≡ out.old.items
        ++ spec.winner_line (spec.source_text sheets.now seen.now matched.now) winner) }
{
    put(out, b"win ")?;
    print_winning(alloc, out, sheets, seen, matched, winner)?;
    put(out, b"\n")
}

fn print_winning(
    alloc: Global,
    out: &mut Vec<u8>,
    sheets: &[SheetAt],
    seen: &[usize],
    matched: &[Candidate],
    winner: Option<Source>,
) -> Result<(), AllocError>
    ensures { OnOk result (out.new.items ≡ out.old.items
        ++ spec.winner_text (spec.source_text sheets.now seen.now matched.now) winner) }
{
    match winner {
        None => put(out, b"none"),
        Some(source) => print_source(alloc, out, sheets, seen, matched, source),
    }
}

fn print_losers(
    alloc: Global,
    out: &mut Vec<u8>,
    sheets: &[SheetAt],
    seen: &[usize],
    matched: &[Candidate],
    losers: &[Loser],
) -> Result<(), AllocError>
    ensures { OnOk result (out.new.items ≡ out.old.items
        ++ flat_map (spec.loser_line (spec.source_text sheets.now seen.now matched.now)) losers.now) }
{
    for loser in losers {
        print_loser(alloc, out, sheets, seen, matched, *loser)?;
    }
    Ok(())
}

#[tactic(auto, unfolding(fx_plain_explain::specs::Ranks::loser_line))]
fn print_loser(
    alloc: Global,
    out: &mut Vec<u8>,
    sheets: &[SheetAt],
    seen: &[usize],
    matched: &[Candidate],
    loser: Loser,
) -> Result<(), AllocError>
    ensures { OnOk result (out.new.items ≡ out.old.items
        ++ spec.loser_line (spec.source_text sheets.now seen.now matched.now) loser) }
{
    put(out, b"lose ")?;
    print_source(alloc, out, sheets, seen, matched, loser.source)?;
    put(out, b" ")?;
    put(out, cut_text(loser.cut).as_bytes())?;
    put(out, b"\n")
}

fn cut_text(cut: Cut) -> &'static str
    ensures { result.now ≡ spec.cut_text cut }
{
    match cut {
        Cut::Bound => "bound",
        Cut::Origin => "origin",
        Cut::Specificity => "specificity",
        Cut::Sheet => "sheet",
        Cut::Rule => "rule",
        Cut::Place => "place",
    }
}

/// Appends the rank of what speaks.
fn print_source(
    alloc: Global,
    out: &mut Vec<u8>,
    sheets: &[SheetAt],
    seen: &[usize],
    matched: &[Candidate],
    source: Source,
) -> Result<(), AllocError>
    ensures { OnOk result (out.new.items
        ≡ out.old.items ++ spec.source_text sheets.now seen.now matched.now source) }
{
    print_rank_of(alloc, out, rank_of(sheets, seen, matched, source))
}

fn print_rank_of(alloc: Global, out: &mut Vec<u8>, rank: Option<Rank>) -> Result<(), AllocError>
    ensures { OnOk result (out.new.items ≡ out.old.items ++ option_map_or spec.rank_text rank []) }
{
    match rank {
        None => Ok(()),
        Some(rank) => print_rank(alloc, out, rank),
    }
}

fn print_rank(alloc: Global, out: &mut Vec<u8>, rank: Rank) -> Result<(), AllocError>
    ensures { OnOk result (out.new.items ≡ out.old.items ++ spec.rank_text rank) }
{
    match rank {
        Rank::Bound => put(out, b"bound"),
        Rank::Code => put(out, b"code"),
        Rank::Declared {
            origin,
            specificity,
            sheet,
            rule,
            place,
        } => print_declared(alloc, out, origin, specificity, (sheet, rule, place)),
    }
}

/// Appends the rank of a declaration. Its places count from 0, and are told from 1.
#[tactic(auto, unfolding(fx_plain_explain::specs::Ranks::declared_text))]
fn print_declared(
    alloc: Global,
    out: &mut Vec<u8>,
    origin: SheetOrigin,
    weight: (u32, u32, u32),
    places: (usize, usize, usize),
) -> Result<(), AllocError>
    ensures { OnOk result (out.new.items
        ≡ out.old.items ++ spec.declared_text origin weight places.0 places.1 places.2) }
{
    let (ids, classes, types) = weight;
    let (sheet, rule, place) = places;
    print_origin(alloc, out, origin)?;
    put(out, b" ")?;
    print_three(alloc, out, ids.into(), classes.into(), types.into())?;
    put(out, b" ")?;
    print_three(alloc, out, first(sheet), first(rule), first(place))
}

/// A place, counted from 1.
fn first(place: usize) -> u128
    ensures { result ≡ place + 1 }
{
    place as u128 + 1
}

fn print_three(
    alloc: Global,
    out: &mut Vec<u8>,
    one: u128,
    two: u128,
    three: u128,
) -> Result<(), AllocError>
    ensures { OnOk result (out.new.items ≡ out.old.items ++ spec.three one two three) }
{
    put_number(alloc, out, one)?;
    put(out, b" ")?;
    put_number(alloc, out, two)?;
    put(out, b" ")?;
    put_number(alloc, out, three)
}

fn print_origin(alloc: Global, out: &mut Vec<u8>, origin: SheetOrigin) -> Result<(), AllocError>
    ensures { OnOk result (out.new.items ≡ out.old.items ++ spec.origin_text origin) }
{
    match origin {
        SheetOrigin::Agent => put(out, b"agent"),
        SheetOrigin::Scene => put(out, b"scene"),
        SheetOrigin::Parent(depth) => print_parent(alloc, out, depth),
        SheetOrigin::Inline => put(out, b"inline"),
    }
}

fn print_parent(alloc: Global, out: &mut Vec<u8>, depth: u32) -> Result<(), AllocError>
    ensures { OnOk result (out.new.items ≡ out.old.items ++ (codes "parent:" ++ decimal depth)) }
{
    put(out, b"parent:")?;
    put_number(alloc, out, depth.into())
}

/// Appends bytes.
fn put(out: &mut Vec<u8>, text: &[u8]) -> Result<(), AllocError>
    ensures { OnOk result (out.new.items ≡ out.old.items ++ text.now) }
{
    out.extend_from_slice(text)
}

/// Appends a number.
fn put_number(alloc: Global, out: &mut Vec<u8>, number: u128) -> Result<(), AllocError>
    ensures { OnOk result (out.new.items ≡ out.old.items ++ decimal number) }
{
    let text = format!(in alloc; "{number}")?;
    put(out, text.as_bytes())
}
