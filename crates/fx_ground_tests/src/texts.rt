//! Words on texts, and their columns and lines.
ghost use Rattle.std.specs.Prelude.{◌≤◌};

use fx_cells::{cells, glyph, lines};
use fx_text::{
    all_digits, all_white, behind_white, capped_number, digit_count, hex_digit, hex_pair,
    is_identifier, is_quote, is_style_identifier, trim_front, trimmed, trimmed_text,
};
use std::alloc::Global;

#[test]
fn tells_classes(rt: HostRuntime) {
    assert!(rt; is_identifier("a_1") && is_identifier("_"));
    assert!(rt; !is_identifier("") && !is_identifier("1a") && !is_identifier("a-b"));
    assert!(rt; hex_pair(b'f', b'E') == Some(254) && hex_pair(b'g', b'0').is_none());
    assert!(rt; hex_digit(9) == b'9' && hex_digit(10) == b'a');
    assert!(rt; all_digits(b"0129") && !all_digits(b"1a"));
    assert!(rt; capped_number(b"4294967297") == 4_294_967_295);
    assert!(rt; is_style_identifier(b"-fx-a_1") && !is_style_identifier(b"--a"));
    assert!(rt; trimmed_text(" \t a b\n") == "a b");
    assert!(rt; is_quote(b'"') && is_quote(b'\'') && !is_quote(b'`'));
}

#[test]
fn finds_ends(rt: HostRuntime) {
    assert!(rt; trimmed(b" \t a b\r\n") == b"a b".as_slice());
    assert!(rt; trim_front(b"  a ") == b"a ".as_slice());
    assert!(rt; behind_white(b"\n x") == b"x".as_slice());
    assert!(rt; all_white(b" \t\r\n") && !all_white(b"\x0b"));
    assert!(rt; digit_count(b"12a3") == 2);
}

#[test]
fn texts_take_cells(rt: HostRuntime) {
    assert!(rt; cells("a\u{5bbd}") == 3 && cells("e\u{301}\t") == 1 && cells("\u{1f600}") == 2);
    assert!(rt; glyph('A') == 0o25755 && glyph('\u{e9}') == 0o77777);
}

/// Does the text have these lines, by first byte and end?
fn has_lines(alloc: Global, text: &str, columns: u64, expected: &[(usize, usize)]) -> bool
    requires { 1 ≤ columns }
{
    match lines(alloc, text, columns) {
        Ok(found) => found.as_slice() == expected,
        Err(_) => false,
    }
}

#[test]
fn texts_wrap(rt: HostRuntime) {
    let alloc = rt.alloc();
    assert!(rt; has_lines(alloc, "a  b", 2, &[(0, 2), (3, 4)]));
    assert!(rt; has_lines(alloc, "\u{5bbd} b", 1, &[(0, 3), (3, 4), (4, 5)]));
    assert!(rt; has_lines(alloc, "e\u{301}e\u{301}e", 2, &[(0, 6), (6, 7)]));
}
