use mt_macro::expand;
use mt_plain::{Codes, Command, Meaning, plain_macros};
use mt_token::{TokenKind, tokens};

#[test]
fn has_plain_codes(rt: HostRuntime) {
    let codes = Codes::plain(rt.alloc()).expect(&rt, "memory");
    assert!(rt; (codes.math_code(b'a'), codes.math_code(b'+')) == (0x7161, 0x202B));
    assert!(rt; (codes.delcode(b'('), codes.delcode(b'a')) == (Some(0x028300), None));
    assert!(rt; codes.control(b"alpha") == Some(Meaning::MathChar(0x010B)));
    assert!(rt; codes.control(b"over") == Some(Meaning::Command(Command::Over)));
    assert!(rt; codes.control(b"alpha ").is_none());
}

#[test]
fn codes_can_be_changed(rt: HostRuntime) {
    let mut codes = Codes::plain(rt.alloc()).expect(&rt, "memory");
    codes.set_math_code(b'a', 32768);
    codes.set_delcode(b'a', Some(1));
    assert!(rt; (codes.math_code(b'a'), codes.math_code(b'b')) == (32768, 0x7162));
    assert!(rt; codes.delcode(b'a') == Some(1));
}

#[test]
fn has_plain_macros(rt: HostRuntime) {
    let alloc = rt.alloc();
    let macros = plain_macros(alloc).expect(&rt, "memory");
    let source = tokens(alloc, b"\\hat\\ne").expect(&rt, "tokens");
    let list = expand(alloc, &macros, source.as_slice()).expect(&rt, "an expansion");
    // \mathaccent " 7 0 5 E, a Space, \not =
    assert!(rt; list.len() == 9);
    assert!(rt; matches!(list.get(8).map(|t| &t.kind), Some(TokenKind::Char(b'='))));
}
