//! Lists in an arena: what is put there comes back.
ghost use Rattle.std.specs.Prelude.{◌≡◌, ◌<◌};
ghost use Rattle.mt_rules.specs.Facts.{IsField, NoBoundary};
ghost use Rattle.mt_rules.specs.Sequence.{AtomElement, EmptyPart};
ghost use Rattle.mt_rules.specs.View.{element_of, part_of_field};
ghost use Rattle.mt_rules.specs.declared.kind.Limits.TheVariants.{Default};

use crate::pieces::NO_DELIMITER;
use mt_arena::{Arena, list_of, put_list};
use mt_rules::{
    Atom, Choice, Class, Field, Fraction, Glue, Item, Kind, Limits, Look, MathList, Root, RowList,
    Style, Symbol, Table, TableRows,
};
use std::alloc::Global;
use std::process::Abort;

const GLUE: Glue = Glue {
    width: 3,
    shrink: -1,
};

const X: Symbol = Symbol { fam: 1, code: 120 };

// An atom without scripts.
fn atom(rt: &impl Abort, alloc: Global, kind: Kind, nucleus: Field) -> Item
    ensures { element_of result ≡ AtomElement kind Default (part_of_field nucleus) EmptyPart EmptyPart }
{
    let atom = Atom {
        kind,
        limits: Limits::Default,
        nucleus,
        sup: Field::Empty,
        sub: Field::Empty,
    };
    Item::Atom(Box::new(alloc, atom).expect(rt, "memory"))
}

// A list of this letter alone.
fn letter(rt: &impl Abort, alloc: Global, code: u8) -> MathList
    ensures { NoBoundary result }
{
    let nucleus = Field::Sym(Symbol { fam: 1, code });
    let letter = atom(rt, alloc, Kind::Plain(Class::Ord), nucleus);
    MathList::from_vec(vec![in alloc; letter].expect(rt, "memory"))
}

// A letter with both scripts.
fn scripted(rt: &impl Abort, alloc: Global) -> MathList {
    let atom = Atom {
        kind: Kind::Plain(Class::Op),
        limits: Limits::Never,
        nucleus: Field::List(letter(rt, alloc, 97)),
        sup: Field::Sym(X),
        sub: Field::List(letter(rt, alloc, 98)),
    };
    let item = Item::Atom(Box::new(alloc, atom).expect(rt, "memory"));
    MathList::from_vec(vec![in alloc; item].expect(rt, "memory"))
}

// A letter over nothing, as a fraction.
fn fraction(rt: &impl Abort, alloc: Global) -> MathList {
    let fraction = Fraction {
        thickness: Some(3),
        left: NO_DELIMITER,
        right: NO_DELIMITER,
        num: letter(rt, alloc, 97),
        den: MathList::from_vec(Vec::new(alloc)),
    };
    let item = Item::Fraction(Box::new(alloc, fraction).expect(rt, "memory"));
    MathList::from_vec(vec![in alloc; item].expect(rt, "memory"))
}

// The items without lists in them, between boundaries.
fn enclosed(rt: &impl Abort, alloc: Global) -> MathList {
    let items = vec![in alloc;
        Item::Left(NO_DELIMITER),
        Item::Style(Style::S),
        Item::MuSpace(GLUE),
        Item::Space(GLUE),
        Item::Middle(NO_DELIMITER),
        Item::MuKern(7),
        Item::Kern(-8),
        Item::Nonscript,
        Item::Right(NO_DELIMITER),
    ]
    .expect(rt, "memory");
    MathList::from_vec(items)
}

// A choice among four letters, and the letter e.
fn choice(rt: &impl Abort, alloc: Global) -> MathList {
    let choice = Choice {
        display: letter(rt, alloc, 97),
        text: letter(rt, alloc, 98),
        script: letter(rt, alloc, 99),
        small: letter(rt, alloc, 100),
    };
    let first = Item::Choice(Box::new(alloc, choice).expect(rt, "memory"));
    let nucleus = Field::Sym(Symbol { fam: 1, code: 101 });
    let last = atom(rt, alloc, Kind::Plain(Class::Ord), nucleus);
    MathList::from_vec(vec![in alloc; first, last].expect(rt, "memory"))
}

// Two letters, the first one of this code.
fn two_letters(rt: &impl Abort, alloc: Global, first: u8) -> RowList
    requires { first < 255 }
{
    let lists = vec![in alloc; letter(rt, alloc, first), letter(rt, alloc, first + 1)];
    RowList::from_vec(lists.expect(rt, "memory"))
}

fn equations(rt: &impl Abort, alloc: Global) -> Table {
    let rows = vec![in alloc; two_letters(rt, alloc, 99)].expect(rt, "memory");
    Table {
        look: Look::Equations,
        rows: TableRows::from_vec(rows),
    }
}

// A root of a letter, with a letter as its degree.
fn root(rt: &impl Abort, alloc: Global) -> Root
    ensures { IsField result.body }
{
    Root {
        degree: letter(rt, alloc, 101),
        body: Field::List(letter(rt, alloc, 102)),
    }
}

// Atoms whose nuclei are rows, a table, a root and a delimiter of a fixed size.
fn nuclei(rt: &impl Abort, alloc: Global) -> MathList {
    let rows = Field::Rows(two_letters(rt, alloc, 97));
    let table = Field::Table(equations(rt, alloc));
    let root = Field::Root(Box::new(alloc, root(rt, alloc)).expect(rt, "memory"));
    let big = Field::Big {
        delim: NO_DELIMITER,
        level: 2,
    };
    let items = vec![in alloc;
        atom(rt, alloc, Kind::Vcenter, rows),
        atom(rt, alloc, Kind::Vcenter, table),
        atom(rt, alloc, Kind::Radical(NO_DELIMITER), root),
        atom(rt, alloc, Kind::Plain(Class::Open), big),
    ];
    MathList::from_vec(items.expect(rt, "memory"))
}

// The nucleus of the atom at an index.
fn nucleus(list: &MathList, index: usize) -> Option<&Field> {
    match list.get(index) {
        Some(Item::Atom(atom)) => Some(&atom.nucleus),
        _ => None,
    }
}

// The codes of two lists of one symbol each.
fn codes(rows: &RowList) -> Option<(u8, u8)> {
    match rows.as_slice() {
        [first, second] => match (code(first), code(second)) {
            (Some(first), Some(second)) => Some((first, second)),
            _ => None,
        },
        _ => None,
    }
}

// A list that was put into an arena, and comes back from it.
fn returned(rt: &impl Abort, alloc: Global, list: MathList) -> MathList {
    let mut arena = Arena::new(alloc);
    let span = put_list(&mut arena, &list).expect(rt, "memory");
    list_of(alloc, &arena, span).expect(rt, "memory")
}

// The code of the symbol of a list of one atom.
fn code(list: &MathList) -> Option<u8> {
    match list.as_slice() {
        [Item::Atom(atom)] => match atom.nucleus {
            Field::Sym(symbol) => Some(symbol.code),
            _ => None,
        },
        _ => None,
    }
}

// The same of a field that is a list.
fn field_code(field: &Field) -> Option<u8> {
    match field {
        Field::List(list) => code(list),
        _ => None,
    }
}

#[test]
fn items_come_back(rt: HostRuntime) {
    let alloc = rt.alloc();
    let list = enclosed(&rt, alloc);
    let list = returned(&rt, alloc, list);
    assert!(rt; list.len() == 9 && matches!(list.as_slice(), [Item::Left(_), .., Item::Right(_)]));
    assert!(rt; matches!(list.get(1), Some(Item::Style(Style::S))));
    assert!(rt;
        matches!(
            list.get(2),
            Some(Item::MuSpace(Glue {
                width: 3,
                shrink: -1
            }))
        )
    );
    assert!(rt;
        matches!(
            list.get(3),
            Some(Item::Space(Glue {
                width: 3,
                shrink: -1
            }))
        )
    );
    assert!(rt; matches!(list.get(4), Some(Item::Middle(_))));
    assert!(rt; matches!(list.get(5), Some(Item::MuKern(7))));
    assert!(rt; matches!(list.get(6), Some(Item::Kern(-8))));
    assert!(rt; matches!(list.get(7), Some(Item::Nonscript)));
}

#[test]
fn scripts_come_back(rt: HostRuntime) {
    let alloc = rt.alloc();
    let list = scripted(&rt, alloc);
    let list = returned(&rt, alloc, list);
    assert!(rt;
        match list.get(0) {
            Some(Item::Atom(atom)) => {
                atom.kind == Kind::Plain(Class::Op)
                    && atom.limits == Limits::Never
                    && field_code(&atom.nucleus) == Some(97)
                    && matches!(atom.sup, Field::Sym(X))
                    && field_code(&atom.sub) == Some(98)
            }
            _ => false,
        }
    );
}

#[test]
fn fractions_and_choices_come_back(rt: HostRuntime) {
    let alloc = rt.alloc();
    let list = fraction(&rt, alloc);
    let list = returned(&rt, alloc, list);
    assert!(rt;
        match list.get(0) {
            Some(Item::Fraction(fraction)) => {
                fraction.thickness == Some(3)
                    && code(&fraction.num) == Some(97)
                    && fraction.den.is_empty()
            }
            _ => false,
        }
    );
    let list = choice(&rt, alloc);
    let list = returned(&rt, alloc, list);
    assert!(rt;
        match list.get(0) {
            Some(Item::Choice(choice)) => {
                code(&choice.display) == Some(97)
                    && code(&choice.text) == Some(98)
                    && code(&choice.script) == Some(99)
                    && code(&choice.small) == Some(100)
            }
            _ => false,
        }
    );
}

#[test]
fn nuclei_come_back(rt: HostRuntime) {
    let alloc = rt.alloc();
    let list = nuclei(&rt, alloc);
    let list = returned(&rt, alloc, list);
    assert!(rt; list.len() == 4);
    assert!(rt;
        match nucleus(&list, 0) {
            Some(Field::Rows(rows)) => codes(rows) == Some((97, 98)),
            _ => false,
        }
    );
    assert!(rt;
        match nucleus(&list, 1) {
            Some(Field::Table(table)) => {
                matches!(table.look, Look::Equations)
                    && table.rows.len() == 1
                    && table.rows.get(0).and_then(codes) == Some((99, 100))
            }
            _ => false,
        }
    );
    assert!(rt;
        match nucleus(&list, 2) {
            Some(Field::Root(root)) => code(&root.degree) == Some(101)
                && field_code(&root.body) == Some(102),
            _ => false,
        }
    );
    assert!(rt; matches!(nucleus(&list, 3), Some(Field::Big { level: 2, .. })));
}
