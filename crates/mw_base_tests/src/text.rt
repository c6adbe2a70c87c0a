use mw_text::{LineFault, Token, TokenKind, read_line};
use std::test::Fail;

/// A line and its tokens.
struct Row(&'static [u8], &'static [Token]);

#[rattlefmt::skip]
static GOOD: [Row; 21] = [
    Row(b"", &[]),
    Row(b" \t ", &[]),
    Row(b"# any \x80 @ bytes", &[]),
    Row(b"li r3,5", &[
        Token { kind: TokenKind::Word, from: 0, to: 2 },
        Token { kind: TokenKind::Word, from: 3, to: 5 },
        Token { kind: TokenKind::Comma, from: 5, to: 6 },
        Token { kind: TokenKind::Number(5), from: 6, to: 7 },
    ]),
    Row(b"\tli\tr3 # @", &[
        Token { kind: TokenKind::Word, from: 1, to: 3 },
        Token { kind: TokenKind::Word, from: 4, to: 6 },
    ]),
    Row(b"a:b#c", &[
        Token { kind: TokenKind::Word, from: 0, to: 1 },
        Token { kind: TokenKind::Colon, from: 1, to: 2 },
        Token { kind: TokenKind::Word, from: 2, to: 3 },
    ]),
    Row(b"-8(r4)+1", &[
        Token { kind: TokenKind::Minus, from: 0, to: 1 },
        Token { kind: TokenKind::Number(8), from: 1, to: 2 },
        Token { kind: TokenKind::Open, from: 2, to: 3 },
        Token { kind: TokenKind::Word, from: 3, to: 5 },
        Token { kind: TokenKind::Close, from: 5, to: 6 },
        Token { kind: TokenKind::Plus, from: 6, to: 7 },
        Token { kind: TokenKind::Number(1), from: 7, to: 8 },
    ]),
    Row(b"add.", &[Token { kind: TokenKind::Word, from: 0, to: 4 }]),
    Row(b"a.b", &[Token { kind: TokenKind::Word, from: 0, to: 3 }]),
    Row(b".be64", &[Token { kind: TokenKind::Word, from: 0, to: 5 }]),
    Row(b"_Z9..", &[Token { kind: TokenKind::Word, from: 0, to: 5 }]),
    Row(b"..a", &[
        Token { kind: TokenKind::Here, from: 0, to: 1 },
        Token { kind: TokenKind::Word, from: 1, to: 3 },
    ]),
    Row(b".5", &[
        Token { kind: TokenKind::Here, from: 0, to: 1 },
        Token { kind: TokenKind::Number(5), from: 1, to: 2 },
    ]),
    Row(b"._x", &[
        Token { kind: TokenKind::Here, from: 0, to: 1 },
        Token { kind: TokenKind::Word, from: 1, to: 3 },
    ]),
    Row(b"0x", &[
        Token { kind: TokenKind::Number(0), from: 0, to: 1 },
        Token { kind: TokenKind::Word, from: 1, to: 2 },
    ]),
    Row(b"0X5", &[
        Token { kind: TokenKind::Number(0), from: 0, to: 1 },
        Token { kind: TokenKind::Word, from: 1, to: 3 },
    ]),
    Row(b"5abc", &[
        Token { kind: TokenKind::Number(5), from: 0, to: 1 },
        Token { kind: TokenKind::Word, from: 1, to: 4 },
    ]),
    Row(b"0xfFg", &[
        Token { kind: TokenKind::Number(255), from: 0, to: 4 },
        Token { kind: TokenKind::Word, from: 4, to: 5 },
    ]),
    Row(b"18446744073709551615", &[
        Token { kind: TokenKind::Number(18_446_744_073_709_551_615), from: 0, to: 20 },
    ]),
    Row(b"0xffffffffffffffff", &[
        Token { kind: TokenKind::Number(18_446_744_073_709_551_615), from: 0, to: 18 },
    ]),
    Row(b"000000000000000000000000007", &[
        Token { kind: TokenKind::Number(7), from: 0, to: 27 },
    ]),
];

/// A line and the column at which it is refused.
struct Refused(&'static [u8], u32);

#[rattlefmt::skip]
static BAD: [Refused; 9] = [
    Refused(b"@", 1),
    Refused(b"li @", 4),
    Refused(b"nop\r", 4),
    Refused(b"nop\n", 4),
    Refused(b"a \x80", 3),
    Refused(b"x,18446744073709551616@", 3),
    Refused(b"0x10000000000000000", 1),
    Refused(b"1 99999999999999999999999999", 3),
    Refused(b"5\x00", 2),
];

#[test]
fn lines_have_their_tokens(rt: HostRuntime) -> Result<(), Fail> {
    for Row(line, want) in &GOOD {
        assert!(rt; line.len() < 1000);
        let tokens = read_line(rt.alloc(), line)?;
        assert_eq!(rt; tokens.as_slice(), *want, "{line:?}");
    }
    Ok(())
}

#[test]
fn bad_bytes_are_refused(rt: HostRuntime) {
    for Refused(line, column) in &BAD {
        assert!(rt; line.len() < 1000);
        let fault = read_line(rt.alloc(), line).err();
        assert_eq!(rt; fault, Some(LineFault::Bad { column: *column }), "{line:?}");
    }
}
