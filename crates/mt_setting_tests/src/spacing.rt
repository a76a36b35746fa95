ghost use Rattle.std.specs.Prelude.{◌≡◌};
ghost use Rattle.mt_rules.specs.Spaces.{never_meet};

use mt_rules::{Class, Style};
use mt_spacing::{Gap, forward, math_glue, settled, space_between};

const CLASSES: [Class; 8] = [
    Class::Ord,
    Class::Op,
    Class::Bin,
    Class::Rel,
    Class::Open,
    Class::Close,
    Class::Punct,
    Class::Inner,
];

// The table of The TeXbook, chapter 18: 0 none, 1 thin, 2 medium, 3 thick. In script styles, what is there in
// parentheses is none.
const IN_DISPLAY: [&[u8; 8]; 8] = [
    b"01230001",
    b"11*30001",
    b"22**2**2",
    b"33*03003",
    b"00*00000",
    b"01230001",
    b"11*11111",
    b"11231011",
];

const IN_SCRIPT: [&[u8; 8]; 8] = [
    b"01000000",
    b"11*00000",
    b"00**0**0",
    b"00*00000",
    b"00*00000",
    b"01000000",
    b"00*00000",
    b"01000000",
];

fn never(left: Class, right: Class) -> bool
    ensures { result ≡ never_meet left right }
{
    matches!(
        (left, right),
        (
            Class::Bin,
            Class::Bin | Class::Rel | Class::Close | Class::Punct
        ) | (
            Class::Op | Class::Rel | Class::Open | Class::Punct,
            Class::Bin
        )
    )
}

fn sign(left: Class, right: Class, style: Style) -> u8 {
    if never(left, right) {
        return b'*';
    }
    match space_between(left, right, style) {
        Gap::None => b'0',
        Gap::Thin => b'1',
        Gap::Medium => b'2',
        Gap::Thick => b'3',
    }
}

fn row_agrees(left: Class, row: &[u8; 8], style: Style) -> bool {
    for i in 0..8 {
        if sign(left, CLASSES[i], style) != row[i] {
            return false;
        }
    }
    true
}

fn agrees(table: [&[u8; 8]; 8], style: Style) -> bool {
    for i in 0..8 {
        if !row_agrees(CLASSES[i], table[i], style) {
            return false;
        }
    }
    true
}

#[test]
fn the_cells_of_the_table(rt: HostRuntime) {
    assert!(rt; agrees(IN_DISPLAY, Style::D));
    assert!(rt; agrees(IN_SCRIPT, Style::S));
}

#[test]
fn classes_of_known_formulas(rt: HostRuntime) {
    // a + = b
    assert!(rt; forward(Some(Class::Ord), Class::Bin) == Class::Bin);
    assert!(rt; settled(Class::Bin, Some(Class::Rel)) == Class::Ord);
    // a + - b
    assert!(rt; forward(Some(Class::Bin), Class::Bin) == Class::Ord);
    assert!(rt; settled(Class::Bin, Some(Class::Ord)) == Class::Bin);
}

#[test]
fn glue_of_gaps(rt: HostRuntime) {
    let glue = [Gap::None, Gap::Thin, Gap::Medium, Gap::Thick].map(|gap| math_glue(gap, 36408));
    assert!(rt; glue.map(|glue| glue.width) == [0, 109224, 145632, 182040]);
    assert!(rt; glue.map(|glue| glue.shrink) == [0, 0, 145632, 0]);
}
