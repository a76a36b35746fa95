use mt_token::{
    Lexer, Lexicon, OwnTokens, Token, TokenError, TokenKind, TokenList, name_hash, tokens,
};

// A token in short: its name or its character, nothing for a space, and its span.
type Short<'a> = (&'a [u8], u32, u32);

fn is_token(token: &Token, want: &Short) -> bool {
    let same = match &token.kind {
        TokenKind::Control(name) => name.as_slice() == want.0,
        TokenKind::Char(c) => want.0 == [*c].as_slice(),
        TokenKind::Space => want.0.is_empty(),
    };
    same && token.start == want.1 && token.end == want.2
}

fn are_tokens(list: &TokenList, want: &[Short]) -> bool {
    let list = list.as_slice();
    list.len() == want.len() && list.iter().zip(want).all(|(t, w)| is_token(t, w))
}

#[test]
fn reads_tokens(rt: HostRuntime) {
    // Blanks after a control word are skipped; a line that ends in the middle gives a Space, an
    // empty one \par.
    let list = tokens(rt.alloc(), b" \\alpha  x\\, \t y\r\n\n% all\n$a^b$%z").expect(&rt, "tokens");
    let want: [Short; 12] = [
        (b"alpha", 1, 7),
        (b"x", 9, 10),
        (b",", 10, 12),
        (b"", 12, 13),
        (b"y", 15, 16),
        (b"", 16, 18),
        (b"par", 18, 19),
        (b"$", 25, 26),
        (b"a", 26, 27),
        (b"^", 27, 28),
        (b"b", 28, 29),
        (b"$", 29, 30),
    ];
    assert!(rt; are_tokens(&list, &want));
}

#[test]
fn finds_first_fault(rt: HostRuntime) {
    let faults: [(&[u8], TokenError); 10] = [
        (b"$a~b$", TokenError::BadByte(2)),
        (b"a^^b~", TokenError::BadByte(2)),
        (b"a\\ b", TokenError::BadByte(1)),
        (b"a\\\r\n", TokenError::BadByte(1)),
        (b"%\n\\", TokenError::BadByte(2)),
        (b"a\rb", TokenError::BadByte(1)),
        (b"a\0", TokenError::BadByte(1)),
        (b"a\xc3~", TokenError::NotAscii(1)),
        (b"\\\xc3", TokenError::NotAscii(1)),
        (b"\\\x7f", TokenError::BadByte(1)),
    ];
    for (source, fault) in &faults {
        assert!(rt; tokens(rt.alloc(), source).is_err_and(|error| error == *fault));
    }
}

#[test]
fn reads_any_control_symbol(rt: HostRuntime) {
    // A control symbol may be any visible character, and no byte of a comment is a fault.
    let list = tokens(rt.alloc(), b"\\^^\\~%~\xff^^").expect(&rt, "tokens");
    let want: [Short; 3] = [(b"^", 0, 2), (b"^", 2, 3), (b"~", 3, 5)];
    assert!(rt; are_tokens(&list, &want));
}

#[test]
fn copies_tokens(rt: HostRuntime) {
    let list = tokens(rt.alloc(), b"\\alpha x ").expect(&rt, "tokens");
    let want: [Short; 3] = [(b"alpha", 0, 6), (b"x", 7, 8), (b"", 8, 9)];
    for (token, short) in list.as_slice().iter().zip(&want) {
        let copy = token.copied(rt.alloc()).expect(&rt, "memory");
        assert!(rt; is_token(&copy, short));
    }
}

#[test]
fn repeats_a_fault(rt: HostRuntime) {
    let mut lexer = Lexer::new(b"a~b");
    assert!(rt; matches!(lexer.step(), Ok(Some(_))));
    assert!(rt; matches!(lexer.step(), Err(TokenError::BadByte(1))));
    assert!(rt; matches!(lexer.step(), Err(TokenError::BadByte(1))));
}

#[test]
fn reads_plain_characters(rt: HostRuntime) {
    let mut lexer = Lexer::new(b"x^2^^");
    let read = [
        lexer.plain_character(),
        lexer.plain_character(),
        lexer.plain_character(),
        lexer.plain_character(),
    ];
    assert!(rt; read == [Some(b'x'), Some(b'^'), Some(b'2'), None]);
    assert!(rt; lexer.offset() == 3);
}

#[test]
fn reads_tokens_as_themselves(rt: HostRuntime) {
    let list = tokens(rt.alloc(), b"\\alpha x ").expect(&rt, "tokens");
    let want = [(0, false), (b'x', false), (0, true)];
    for (token, wanted) in list.as_slice().iter().zip(want) {
        assert!(rt; (OwnTokens.code(token), OwnTokens.is_space(token)) == wanted);
    }
}

#[test]
fn hashes_names(rt: HostRuntime) {
    // "in" is 105 and 110.
    assert!(rt; name_hash(b"in") == 29 * 105 + 3 * 110 + 101 * 110 + 67 * 2);
    assert!(rt; name_hash(b"a") == 29 * 97 + 101 * 97 + 67);
    // No name counts more than 31 bytes.
    assert!(rt; name_hash(&[b'a'; 31]) == name_hash(&[b'a'; 40]));
}
