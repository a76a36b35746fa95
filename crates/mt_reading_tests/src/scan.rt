//! Numbers, dimensions and roles of tokens.
use crate::units::UNITS;
use mt_plain::Codes;
use mt_scan::{ReadCause, Role, Side, dimension, glue, role_of, scan_delimiter, whole_number};
use mt_token::tokens;
use std::alloc::Global;
use std::process::Abort;

fn dimension_of(rt: &impl Abort, alloc: Global, text: &[u8]) -> Option<i64> {
    let list = tokens(alloc, text).expect(rt, "tokens");
    match dimension(UNITS, false, list.as_slice()) {
        Ok(part) => Some(part.value),
        Err(_) => None,
    }
}

#[test]
fn reads_dimensions(rt: HostRuntime) {
    // As TeX prints them in scaled points.
    let cases: [(&[u8], Option<i64>); 6] = [
        (b"1in", Some(4_736_286)),
        (b"1cm", Some(1_864_679)),
        (b"1bp", Some(65_781)),
        (b"- 1,5 DD ", Some(-105_186)),
        (b"16383.99999pt", Some(1_073_741_823)),
        (b"16384pt", None),
    ];
    for (text, want) in cases {
        assert!(rt; dimension_of(&rt, rt.alloc(), text) == want);
    }
}

// How many tokens are left where a number is at fault.
fn number_fault(rt: &impl Abort, alloc: Global, text: &[u8]) -> Option<usize> {
    let list = tokens(alloc, text).expect(rt, "tokens");
    match whole_number(list.as_slice()) {
        Ok(_) => None,
        Err(fault) => Some(fault.left),
    }
}

#[test]
fn finds_faults_of_numbers(rt: HostRuntime) {
    let cases: [(&[u8], Option<usize>); 3] = [
        (b"-\"7F ", None),
        (b"-'8", Some(1)),
        (b" -2147483648", Some(11)),
    ];
    for (text, want) in cases {
        assert!(rt; number_fault(&rt, rt.alloc(), text) == want);
    }
}

#[test]
fn knows_roles(rt: HostRuntime) {
    let alloc = rt.alloc();
    let codes = Codes::plain(alloc).expect(&rt, "memory");
    let list = tokens(alloc, b"a^'").expect(&rt, "tokens");
    let want = [Role::MathCode(0x7161), Role::Script(Side::Up), Role::Prime];
    for (token, role) in list.as_slice().iter().zip(want) {
        assert!(rt; role_of(&codes, token) == role);
    }
}

#[test]
fn finds_no_delimiter(rt: HostRuntime) {
    let alloc = rt.alloc();
    let codes = Codes::plain(alloc).expect(&rt, "memory");
    let list = tokens(alloc, b"a").expect(&rt, "tokens");
    assert!(rt;
        scan_delimiter(&codes, list.as_slice()).is_err_and(|fault| fault.cause
            == ReadCause::BadDelimiter)
    );
}

#[test]
fn reads_glue(rt: HostRuntime) {
    let list = tokens(rt.alloc(), b"1pt plus 2pt MINUS .5pt").expect(&rt, "tokens");
    assert!(rt; glue(UNITS, false, list.as_slice()).is_ok_and(|part| part.value.shrink == 32_768));
}
