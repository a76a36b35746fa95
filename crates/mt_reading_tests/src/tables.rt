use mt_lexicon::{Names, Word};
use mt_macro::{Bodies, Expander};
use mt_plain::Codes;
use mt_scan::{Role, Roles};
use mt_tables::Tables;
use mt_token::{LentKind, Lexer, Lexicon};
use std::alloc::Global;
use std::process::Abort;

// The words of a source of fewer than 100 words.
fn words_in(rt: &impl Abort, tables: &mut Tables, alloc: Global, source: &[u8]) -> Vec<Word> {
    assert!(rt; source.len() < 100);
    let mut list = Vec::new(alloc);
    let mut lexer = Lexer::new(source);
    tables
        .read_words(&mut lexer, &mut list, 100)
        .expect(rt, "words");
    list
}

// Whether a word is read as a name.
fn is_named(tables: &Tables, word: &Word, name: &[u8]) -> bool {
    match tables.lent(word) {
        LentKind::Control(found) => found == name,
        _ => false,
    }
}

#[test]
fn names_have_numbers(rt: HostRuntime) {
    let mut names = Names::empty(rt.alloc());
    let first = names.number(b"alpha").expect(&rt, "memory");
    let second = names.number(b"b").expect(&rt, "memory");
    let again = names.number(b"alpha").expect(&rt, "memory");
    assert!(rt; (first, second, again, names.len()) == (0, 1, 0, 2));
    assert!(rt; names.name(1) == Some(b"b"));
}

// Tables with the macro \pair of two arguments.
fn tables_with_pair(rt: &impl Abort, alloc: Global) -> Tables {
    let codes = Codes::plain(alloc).expect(rt, "memory");
    let mut tables = Tables::new(alloc, codes);
    let name = tables.number(b"pair").expect(rt, "memory");
    let body = words_in(rt, &mut tables, alloc, b"(#1,\\alpha#2)");
    assert!(rt; body.len() < 100);
    tables
        .define(name, 2, body.as_slice())
        .expect(rt, "a definition");
    tables
}

// What a source of fewer than 100 words expands to.
fn expanded(rt: &impl Abort, tables: &mut Tables, alloc: Global, source: &[u8]) -> Vec<Word> {
    let list = words_in(rt, tables, alloc, source);
    let mut out = Vec::new(alloc);
    Expander::new(alloc)
        .expand(tables, list.as_slice(), &mut out)
        .expect(rt, "words");
    out
}

#[test]
fn macros_over_words(rt: HostRuntime) {
    let alloc = rt.alloc();
    let mut tables = tables_with_pair(&rt, alloc);
    let out = expanded(&rt, &mut tables, alloc, b"\\pair{ab}c");
    assert!(rt; out.len() == 7);
    assert!(rt; is_named(&tables, &out[4], b"alpha"));
    assert!(rt; tables.role_of(&out[4]) == Role::MathCode(0x010B));
    assert!(rt; tables.macro_at(&out[4]).is_none());
}
