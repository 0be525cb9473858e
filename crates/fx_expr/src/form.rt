//! Whether tokens have the form of an expression, decided without recursion.
ghost use Rattle.std.specs.Prelude.{◌≡◌, ◌<◌, ◌≤◌, ◌+◌, ◌^◌, ◌∷◌, IfSome, true, false, zero, List};
ghost use Rattle.std.specs.Option.{option_map_or};
ghost use Rattle.fx_expr.specs.declared.tokens.Token.{Token as Piece};
ghost use Rattle.fx_expr.specs.Form.{has_form, is_minus};

use crate::tokens::Token;
use crate::tree::BinarySign;

/// Do the tokens make an expression, however deep?
pub fn is_expression(tokens: &[Token]) -> bool
    ensures { result ≡ has_form true 0 tokens.now }
{
    let mut wanted = true;
    let mut count = 0usize;
    for token in tokens {
        match step(wanted, count, token) {
            Some((next, open)) => {
                wanted = next;
                count = open;
            }
            None => return false,
        }
    }
    !wanted && count == 0
}

/// Whether an operand is wanted behind the token, and how many parentheses are open there.
fn step(wanted: bool, count: usize, token: &Token) -> Option<(bool, usize)>
    requires { count < 2 ^ 63 }
    ensures form { (ts : List Piece) → has_form wanted count (token.now ∷ ts)
        ≡ option_map_or (λ p. has_form p.0 p.1 ts) result false }
    ensures count { IfSome result (λ p. p.1 ≤ count + 1) }
{
    if wanted {
        match token {
            Token::Constant(_) | Token::Path(_) => Some((false, count)),
            Token::Opening => Some((true, count + 1)),
            Token::Exclamation => Some((true, count)),
            Token::Binary(sign) => {
                if is_minus(*sign) {
                    return Some((true, count));
                }
                None
            }
            Token::Closing => None,
        }
    } else {
        match token {
            Token::Binary(_) => Some((true, count)),
            Token::Closing => {
                if count == 0 {
                    return None;
                }
                Some((false, count - 1))
            }
            _ => None,
        }
    }
}

fn is_minus(sign: BinarySign) -> bool
    ensures { result ≡ is_minus sign }
{
    matches!(sign, BinarySign::Minus)
}
