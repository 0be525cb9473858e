//! The declarations of a rule: a body is cut into pieces, and each is judged by itself.
//! Rules and the `style` of a node have them.
ghost use Rattle.std.specs.Prelude.{◌≡◌, ◌++◌, ◌∷◌, [], map, length, IfOk, IfErr, OnOk};
ghost use Rattle.fx_css.specs.Numbered.{shown};
ghost use Rattle.fx_css.specs.Pieces.{piece_of, kept, warned, kept_in, warnings_in, past_declarations};
ghost use Rattle.fx_css.specs.Sheets.{IsStop};

use crate::cutting::declaration_end;
use crate::errors::Stop;
use crate::parts::Part;
use fx_css_parts::read_declaration;
use fx_css_types::Declaration;
use std::alloc::{AllocError, Global};

/// The greatest number of declarations of a rule.
const DECLARATION_LIMIT: usize = 256;

/// How many declarations are given room at first.
const COMMON_COUNT: usize = 4;

/// A declaration with the number of its first byte, and that of its ninth layer.
#[derive(Drop)]
pub struct Kept {
    pub declaration: Declaration,
    pub start: usize,
    pub past: Option<usize>,
}

/// What a piece of a body is.
#[derive(Drop)]
pub enum Piece {
    Blank,
    /// No declaration: its first byte has that number.
    Bad(usize),
    Good(Kept),
}

#[tactic(auto, unfolding(crate::specs::Pieces::piece_of, crate::specs::Pieces::judged))]
fn read_piece(alloc: Global, part: Part<'_>) -> Result<Piece, AllocError>
    ensures { IfOk result (λ piece. piece ≡ piece_of (shown part.entry)) }
{
    let Some(start) = part.first_shown() else {
        return Ok(Piece::Blank);
    };
    let Some(read) = read_declaration(alloc, part.text())? else {
        return Ok(Piece::Bad(start));
    };
    Ok(Piece::Good(Kept {
        past: part.number_at(read.past),
        declaration: read.declaration,
        start,
    }))
}

/// One more declaration, within the limits.
fn keep(declarations: &mut Vec<Declaration>, kept: Kept) -> Result<(), Stop>
    ensures pushed { OnOk result (declarations.new.items ≡ declarations.old.items ++ (kept.declaration ∷ [])) }
    ensures within { OnOk result (past_declarations (length declarations.old.items) (kept ∷ []) ≡ []) }
    ensures limit { IfErr result (IsStop (past_declarations (length declarations.old.items) (kept ∷ []))) }
{
    let Kept {
        declaration,
        start,
        past,
    } = kept;
    if declarations.len() >= DECLARATION_LIMIT {
        return Err(Stop::Past(start));
    }
    if let Some(number) = past {
        return Err(Stop::Past(number));
    }
    declarations.push(declaration)?;
    Ok(())
}

/// One more piece: a declaration is kept within the limits, and what is none is dropped with a warning.
fn settle(
    piece: Piece,
    declarations: &mut Vec<Declaration>,
    warnings: &mut Vec<usize>,
) -> Result<(), Stop>
    ensures kept { OnOk result (declarations.new.items
        ≡ declarations.old.items ++ map (λ k. k.declaration) (kept piece)) }
    ensures dropped { OnOk result (warnings.new.items ≡ warnings.old.items ++ warned piece) }
    ensures within { OnOk result (past_declarations (length declarations.old.items) (kept piece) ≡ []) }
    ensures limit { IfErr result (IsStop (past_declarations (length declarations.old.items) (kept piece))) }
{
    match piece {
        Piece::Blank => Ok(()),
        Piece::Bad(number) => {
            warnings.push(number)?;
            Ok(())
        }
        Piece::Good(kept) => keep(declarations, kept),
    }
}

/// The declarations of a body. The numbers of what is dropped go to the warnings.
pub fn read_declarations(
    alloc: Global,
    body: Part<'_>,
    warnings: &mut Vec<usize>,
) -> Result<Vec<Declaration>, Stop>
    ensures kept { IfOk result (λ ds. ds.items ≡ map (λ k. k.declaration) (kept_in (shown body.entry))) }
    ensures dropped { OnOk result (warnings.new.items ≡ warnings.old.items ++ warnings_in (shown body.entry)) }
    ensures within { OnOk result (past_declarations 0 (kept_in (shown body.entry)) ≡ []) }
    ensures limit { IfErr result (IsStop (past_declarations 0 (kept_in (shown body.entry)))) }
{
    let mut declarations = Vec::with_capacity(alloc, COMMON_COUNT)?;
    let mut rest = body;
    while !rest.is_empty() {
        let end = declaration_end(rest);
        let piece = read_piece(alloc, rest.front(end))?;
        settle(piece, &mut declarations, warnings)?;
        rest = rest.behind(end + 1);
    }
    Ok(declarations)
}
