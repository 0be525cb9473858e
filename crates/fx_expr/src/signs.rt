//! The signs of expressions.
ghost use Rattle.std.specs.Prelude.{◌≡◌, ◌∷◌};
ghost use Rattle.std.specs.Option.{option_map};
ghost use Rattle.std.specs.Str.{chars};
ghost use Rattle.fx_expr.specs.Spelling.{double_sign, single_sign};
ghost use Rattle.fx_expr.specs.Scanning.{sign_at, sign_of_one, sign_of_two};

use crate::fronts::first;
use crate::tokens::Token;
use crate::tree::BinarySign;

/// The longest sign that begins with this character before the text, and what is behind it.
pub fn sign(a: char, behind: &str) -> Option<(Token, &str)>
    ensures { option_map (λ p. (p.0, chars p.1.now)) result ≡ sign_at (a ∷ chars behind.now) }
{
    match two_characters(a, behind) {
        Some(found) => Some(found),
        None => one_character(a, behind),
    }
}

fn two_characters(a: char, behind: &str) -> Option<(Token, &str)>
    ensures { option_map (λ p. (p.0, chars p.1.now)) result ≡ sign_of_two (a ∷ chars behind.now) }
{
    match first(behind) {
        Some((b, rest)) => {
            let sign = double(a, b)?;
            Some((Token::Binary(sign), rest))
        }
        None => None,
    }
}

fn one_character(a: char, behind: &str) -> Option<(Token, &str)>
    ensures { option_map (λ p. (p.0, chars p.1.now)) result ≡ sign_of_one (a ∷ chars behind.now) }
{
    let token = single(a)?;
    Some((token, behind))
}

fn double(a: char, b: char) -> Option<BinarySign>
    ensures { result ≡ double_sign a b }
{
    match (a, b) {
        ('|', '|') => Some(BinarySign::Or),
        ('&', '&') => Some(BinarySign::And),
        ('=', '=') => Some(BinarySign::Equal),
        ('!', '=') => Some(BinarySign::Differ),
        ('>', '=') => Some(BinarySign::GreaterEqual),
        ('<', '=') => Some(BinarySign::LessEqual),
        _ => None,
    }
}

fn single(a: char) -> Option<Token>
    ensures { result ≡ single_sign a }
{
    match a {
        '(' => Some(Token::Opening),
        ')' => Some(Token::Closing),
        '!' => Some(Token::Exclamation),
        '>' => Some(Token::Binary(BinarySign::Greater)),
        '<' => Some(Token::Binary(BinarySign::Less)),
        '+' => Some(Token::Binary(BinarySign::Plus)),
        '-' => Some(Token::Binary(BinarySign::Minus)),
        '*' => Some(Token::Binary(BinarySign::Times)),
        '/' => Some(Token::Binary(BinarySign::Over)),
        '%' => Some(Token::Binary(BinarySign::Rest)),
        _ => None,
    }
}
