//! References, a character at a time.
//! The reader keeps how far one is read within its mode.
ghost use Rattle.std.specs.Prelude.{◌≡◌, ◌≤◌, ◌<◌, ◌+◌, ◌*◌, true, SomeIff};
ghost use Rattle.fx_doc_grammar.specs.Characters.{last_code};
ghost use Rattle.fx_doc_grammar.specs.Machine.{entity_step, expect, begin_entity, after_a, decimal_digit, hexadecimal_digit, number_end};

use crate::{Entity, Turn};

/// The greatest code point.
const LAST_CODE: u32 = 0x10_FFFF;

impl Entity {
    /// What one more character makes of the reference; None where no reference goes on so.
    pub fn step(self, c: char) -> Option<Turn>
        ensures { result ≡ entity_step self c }
    {
        match self {
            Entity::Begun => begun(c),
            Entity::A => behind_a(c),
            Entity::Am => expected('p', Turn::Further(Entity::Amp), c),
            Entity::Amp => expected(';', Turn::Whole('&'), c),
            Entity::Ap => expected('o', Turn::Further(Entity::Apo), c),
            Entity::Apo => expected('s', Turn::Further(Entity::Apos), c),
            Entity::Apos => expected(';', Turn::Whole('\''), c),
            Entity::G => expected('t', Turn::Further(Entity::Gt), c),
            Entity::Gt => expected(';', Turn::Whole('>'), c),
            Entity::L => expected('t', Turn::Further(Entity::Lt), c),
            Entity::Lt => expected(';', Turn::Whole('<'), c),
            Entity::Q => expected('u', Turn::Further(Entity::Qu), c),
            Entity::Qu => expected('o', Turn::Further(Entity::Quo), c),
            Entity::Quo => expected('t', Turn::Further(Entity::Quot), c),
            Entity::Quot => expected(';', Turn::Whole('"'), c),
            Entity::Hash => behind_hash(c),
            Entity::Decimal(number) => in_decimal(number, c),
            Entity::Hex => more_hexadecimal(0, c),
            Entity::HexDigits(number) => in_hexadecimal(number, c),
        }
    }
}

fn expected(letter: char, turn: Turn, c: char) -> Option<Turn>
    ensures { result ≡ expect letter turn c }
{
    if c == letter { Some(turn) } else { None }
}

fn begun(c: char) -> Option<Turn>
    ensures { result ≡ begin_entity c }
{
    match c {
        'a' => Some(Turn::Further(Entity::A)),
        'g' => Some(Turn::Further(Entity::G)),
        'l' => Some(Turn::Further(Entity::L)),
        'q' => Some(Turn::Further(Entity::Q)),
        '#' => Some(Turn::Further(Entity::Hash)),
        _ => None,
    }
}

fn behind_a(c: char) -> Option<Turn>
    ensures { result ≡ after_a c }
{
    match c {
        'm' => Some(Turn::Further(Entity::Am)),
        'p' => Some(Turn::Further(Entity::Ap)),
        _ => None,
    }
}

/// The number with one more digit, as long as it stays among the code points.
fn grown(number: u32, base: u32, value: u32) -> Option<u32>
    requires small { base ≤ 16 }
    ensures { SomeIff result (number * base + value ≤ last_code) (number * base + value) }
{
    let next = number.checked_mul(base)?.checked_add(value)?;
    if next <= LAST_CODE { Some(next) } else { None }
}

fn more_decimal(number: u32, c: char) -> Option<Turn>
    ensures { result ≡ decimal_digit number c }
{
    let next = grown(number, 10, c.to_digit(10)?)?;
    Some(Turn::Further(Entity::Decimal(next)))
}

fn more_hexadecimal(number: u32, c: char) -> Option<Turn>
    ensures { result ≡ hexadecimal_digit number c }
{
    let next = grown(number, 16, c.to_digit(16)?)?;
    Some(Turn::Further(Entity::HexDigits(next)))
}

#[tactic(auto, unfolding(crate::specs::Characters::is_character))]
fn ended(number: u32) -> Option<Turn>
    ensures { result ≡ number_end number }
{
    if number == 0 {
        return None;
    }
    match char::from_u32(number) {
        Some(c) => Some(Turn::Whole(c)),
        None => None,
    }
}

fn behind_hash(c: char) -> Option<Turn>
    ensures { result ≡ entity_step Entity.Hash c }
{
    if c == 'x' {
        return Some(Turn::Further(Entity::Hex));
    }
    more_decimal(0, c)
}

fn in_decimal(number: u32, c: char) -> Option<Turn>
    ensures { result ≡ entity_step (Entity.Decimal number) c }
{
    if c == ';' {
        ended(number)
    } else {
        more_decimal(number, c)
    }
}

fn in_hexadecimal(number: u32, c: char) -> Option<Turn>
    ensures { result ≡ entity_step (Entity.HexDigits number) c }
{
    if c == ';' {
        ended(number)
    } else {
        more_hexadecimal(number, c)
    }
}
