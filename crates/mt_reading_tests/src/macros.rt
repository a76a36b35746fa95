use mt_macro::{ExpandError, MacroError, Macros, expand, expands_to_itself, first_bad_parameter};
use mt_scaled::Name;
use mt_token::{Token, TokenKind, TokenList, tokens};
use std::alloc::Global;
use std::process::Abort;

fn is_same(one: &Token, other: &Token) -> bool {
    match (&one.kind, &other.kind) {
        (TokenKind::Control(a), TokenKind::Control(b)) => a.as_slice() == b.as_slice(),
        (TokenKind::Char(a), TokenKind::Char(b)) => a == b,
        (TokenKind::Space, TokenKind::Space) => true,
        _ => false,
    }
}

// Whether two lists have the same tokens, their spans aside.
fn are_same(one: &TokenList, other: &TokenList) -> bool {
    let (one, other) = (one.as_slice(), other.as_slice());
    one.len() == other.len() && one.iter().zip(other).all(|(a, b)| is_same(a, b))
}

// Macros with these names, numbers of parameters and bodies.
fn macros_with(rt: &impl Abort, alloc: Global, list: &[(&[u8], u8, &[u8])]) -> Macros {
    let mut macros = Macros::empty(alloc);
    for (word, params, text) in list {
        let name = Name::from_slice(alloc, word).expect(rt, "memory");
        let body = tokens(alloc, text).expect(rt, "tokens");
        assert!(rt; body.len() < 100);
        macros
            .define(&name, *params, body.as_slice())
            .expect(rt, "a definition");
    }
    macros
}

// What a text expands to.
fn expand_text(
    rt: &impl Abort,
    alloc: Global,
    macros: &Macros,
    text: &[u8],
) -> Result<TokenList, ExpandError> {
    let list = tokens(alloc, text).expect(rt, "tokens");
    expand(alloc, macros, list.as_slice())
}

// \x drops its argument, and \y stands for itself.
fn four_macros(rt: &impl Abort, alloc: Global) -> Macros {
    macros_with(
        rt,
        alloc,
        &[
            (b"x", 1, b""),
            (b"y", 0, b"\\y"),
            (b"f", 2, b"[#2|#1#1]"),
            (b"z", 0, b"bc"),
        ],
    )
}

#[test]
fn expands_leftmost_macro_first(rt: HostRuntime) {
    let alloc = rt.alloc();
    let macros = four_macros(&rt, alloc);
    let cases: [(&[u8], &[u8]); 5] = [
        // The argument is dropped before it is expanded.
        (b"\\x\\y", b""),
        (b"\\x{\\y}a", b"a"),
        // Spaces before an argument are skipped, and a group loses its braces.
        (b"\\f a{{p}q} d", b"[{p}q|aa] d"),
        (b"\\f\\z, {r s}", b"[,|bcbc] {r s}"),
        (b"\\undefined{\\z}", b"\\undefined{bc}"),
    ];
    for (text, want) in &cases {
        let list = expand_text(&rt, alloc, &macros, text).expect(&rt, "an expansion");
        let wanted = tokens(alloc, want).expect(&rt, "tokens");
        assert!(rt; are_same(&list, &wanted));
    }
}

#[test]
fn finds_first_fault(rt: HostRuntime) {
    let alloc = rt.alloc();
    let macros = four_macros(&rt, alloc);
    let faults: [(&[u8], ExpandError); 6] = [
        (b"a\\x", ExpandError::MissingArgument(1)),
        // The index is that in the list of the step: \z has become two tokens.
        (b"\\z\\x", ExpandError::MissingArgument(2)),
        (b"{\\x }\\y", ExpandError::MissingArgument(1)),
        (b"{a}}{", ExpandError::Unbalanced(3)),
        (b"{}{{a}\\x", ExpandError::Unbalanced(2)),
        (
            b"\\y",
            ExpandError::Budget {
                steps: 20_000,
                length: 1,
            },
        ),
    ];
    for (text, want) in &faults {
        assert!(rt; expand_text(&rt, alloc, &macros, text).is_err_and(|error| error == *want));
    }
}

#[test]
fn tells_what_expands_to_itself(rt: HostRuntime) {
    let alloc = rt.alloc();
    let macros = four_macros(&rt, alloc);
    let cases: [(&[u8], bool); 5] = [
        (b"", true),
        (b"\\undefined{a}", true),
        (b"{a\\z}", false),
        (b"\\y", false),
        (b"{a", false),
    ];
    for (text, want) in &cases {
        let list = tokens(alloc, text).expect(&rt, "tokens");
        assert!(rt; expands_to_itself(&macros, list.as_slice()) == *want);
    }
}

#[test]
fn refuses_definitions(rt: HostRuntime) {
    let alloc = rt.alloc();
    let mut macros = Macros::empty(alloc);
    let x = Name::from_slice(alloc, b"x").expect(&rt, "memory");
    let cases: [(u8, &[u8], Result<(), MacroError>); 8] = [
        (1, b"#2", Err(MacroError::BadParameters)),
        (1, b"#1#", Err(MacroError::BadParameters)),
        (9, b"##", Err(MacroError::BadParameters)),
        (10, b"", Err(MacroError::BadParameters)),
        (1, b"{#0", Err(MacroError::BadParameters)),
        (1, b"#1}{", Err(MacroError::Unbalanced)),
        (9, b"#9#1{a}", Ok(())),
        (0, b"b", Ok(())),
    ];
    for (params, text, want) in &cases {
        let body = tokens(alloc, text).expect(&rt, "tokens");
        assert!(rt; body.len() < 100);
        assert!(rt; macros.define(&x, *params, body.as_slice()) == *want);
    }
    // The last definition counts.
    let list = expand_text(&rt, alloc, &macros, b"\\x").expect(&rt, "an expansion");
    assert!(rt; list.len() == 1);
}

// A preloaded name may be defined, and a defined one be preloaded.
#[test]
fn preloads_names(rt: HostRuntime) {
    let alloc = rt.alloc();
    let mut macros = Macros::empty(alloc);
    let x = Name::from_slice(alloc, b"x").expect(&rt, "memory");
    macros.preload(&x, 0, &[]).expect(&rt, "memory");
    macros.define(&x, 1, &[]).expect(&rt, "memory");
    macros.preload(&x, 2, &[]).expect(&rt, "memory");
    assert!(rt; macros.preload(&x, 10, &[]) == Err(MacroError::BadParameters));
}

#[test]
fn finds_the_first_bad_parameter(rt: HostRuntime) {
    // A colon follows the digit 9 in ASCII.
    let cases: [(u8, &[u8], Option<usize>); 2] = [(2, b"a#1#3", Some(3)), (10, b"#9#:", Some(2))];
    for (params, text, want) in cases {
        let body = tokens(rt.alloc(), text).expect(&rt, "tokens");
        assert!(rt; first_bad_parameter(params, body.as_slice()) == want);
    }
}
