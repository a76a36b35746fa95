ghost use Rattle.mt_rules.specs.Facts.{NoBoundary, StandsInside};
ghost use Rattle.mt_rules.specs.View.{element_of};

use crate::pieces::NO_DELIMITER;
use mt_box::PackError;
use mt_family::Size;
use mt_rules::{
    Atom, Body, Choice, Class, Document, Field, Formula, Fraction, Glue, Item, Kind, Limits,
    MathList, Page, PartError, RowList, Style, Symbol, TableRow, TableRows, Tag,
};
use std::alloc::Global;
use std::process::Abort;

const STYLES: [Style; 8] = [
    Style::D,
    Style::Dc,
    Style::T,
    Style::Tc,
    Style::S,
    Style::Sc,
    Style::Ss,
    Style::Ssc,
];

// The table of The TeXbook, chapter 17 and Appendix G: of each style that of a superscript, of a subscript, of a
// numerator and of a denominator.
#[test]
fn styles_of_parts(rt: HostRuntime) {
    let table = [
        (Style::S, Style::Sc, Style::T, Style::Tc),
        (Style::Sc, Style::Sc, Style::Tc, Style::Tc),
        (Style::S, Style::Sc, Style::S, Style::Sc),
        (Style::Sc, Style::Sc, Style::Sc, Style::Sc),
        (Style::Ss, Style::Ssc, Style::Ss, Style::Ssc),
        (Style::Ssc, Style::Ssc, Style::Ssc, Style::Ssc),
        (Style::Ss, Style::Ssc, Style::Ss, Style::Ssc),
        (Style::Ssc, Style::Ssc, Style::Ssc, Style::Ssc),
    ];
    for (style, parts) in STYLES.into_iter().zip(table) {
        assert!(rt; (style.sup(), style.sub(), style.num(), style.den()) == parts);
    }
    assert!(rt; Style::T.cramped() == Style::Tc);
    assert!(rt; Style::Ssc.index() == 7 && Style::Sc.size() == Size::Script);
}

// A letter of family 1.
fn letter(rt: &impl Abort, alloc: Global, code: u8) -> Item
    ensures { StandsInside (element_of result) }
{
    let atom = Atom {
        kind: Kind::Plain(Class::Ord),
        limits: Limits::Default,
        nucleus: Field::Sym(Symbol { fam: 1, code }),
        sup: Field::Empty,
        sub: Field::Empty,
    };
    Item::Atom(Box::new(alloc, atom).expect(rt, "memory"))
}

fn list(rt: &impl Abort, alloc: Global, item: Item) -> MathList
    requires { StandsInside (element_of item) }
    ensures { NoBoundary result }
{
    MathList::from_vec(vec![in alloc; item].expect(rt, "memory"))
}

// A list with boundaries and a middle.
fn bounded(rt: &impl Abort, alloc: Global) -> MathList {
    let items = vec![in alloc;
        Item::Left(NO_DELIMITER),
        Item::Nonscript,
        Item::Middle(NO_DELIMITER),
        Item::Kern(5),
        Item::Right(NO_DELIMITER),
    ];
    MathList::from_vec(items.expect(rt, "memory"))
}

#[test]
fn lists_hold_what_they_are_made_of(rt: HostRuntime) {
    let list = bounded(&rt, rt.alloc());
    assert!(rt; list.len() == 5 && list.get(5).is_none());
    assert!(rt; matches!(list.get(3), Some(Item::Kern(5))));
    assert!(rt; matches!(list.as_slice(), [Item::Left(_), .., Item::Right(_)]));
    assert!(rt; list.into_vec().len() == 5);
}

// A letter over a choice of styles.
fn fraction(rt: &impl Abort, alloc: Global) -> Item
    ensures { StandsInside (element_of result) }
{
    let choice = Choice {
        display: MathList::from_vec(Vec::new(alloc)),
        text: list(rt, alloc, Item::Style(Style::S)),
        script: MathList::from_vec(Vec::new(alloc)),
        small: MathList::from_vec(Vec::new(alloc)),
    };
    let below = Item::Choice(Box::new(alloc, choice).expect(rt, "memory"));
    let fraction = Fraction {
        thickness: Some(3),
        left: NO_DELIMITER,
        right: NO_DELIMITER,
        num: list(rt, alloc, letter(rt, alloc, 97)),
        den: list(rt, alloc, below),
    };
    Item::Fraction(Box::new(alloc, fraction).expect(rt, "memory"))
}

// A fraction as the only row.
fn rows(rt: &impl Abort, alloc: Global) -> RowList {
    let row = list(rt, alloc, fraction(rt, alloc));
    RowList::from_vec(vec![in alloc; row].expect(rt, "memory"))
}

#[test]
fn rows_hold_lists(rt: HostRuntime) {
    let rows = rows(&rt, rt.alloc());
    assert!(rt; rows.len() == 1 && !rows.is_empty() && rows.get(1).is_none());
    let fraction = rows.get(0).and_then(|row| row.get(0));
    assert!(rt; matches!(fraction, Some(Item::Fraction(_))));
    assert!(rt; rows.as_slice().len() == 1 && rows.into_vec().len() == 1);
}

// A row of one empty cell.
fn table_rows(rt: &impl Abort, alloc: Global) -> TableRows {
    let cell = MathList::from_vec(Vec::new(alloc));
    let row = TableRow::from_vec(vec![in alloc; cell].expect(rt, "memory"));
    TableRows::from_vec(vec![in alloc; row].expect(rt, "memory"))
}

#[test]
fn rows_of_a_table_hold_cells(rt: HostRuntime) {
    let rows = table_rows(&rt, rt.alloc());
    assert!(rt; rows.len() == 1 && !rows.is_empty() && rows.get(1).is_none());
    assert!(rt; rows.get(0).is_some_and(|row| row.len() == 1));
    assert!(rt; rows.as_slice().len() == 1 && rows.into_vec().len() == 1);
}

// An atom without rows, subscripted by nothing.
fn vcenter(rt: &impl Abort, alloc: Global) -> MathList {
    let atom = Atom {
        kind: Kind::Vcenter,
        limits: Limits::Default,
        nucleus: Field::Rows(RowList::from_vec(Vec::new(alloc))),
        sup: Field::Empty,
        sub: Field::List(MathList::from_vec(Vec::new(alloc))),
    };
    let item = Item::Atom(Box::new(alloc, atom).expect(rt, "memory"));
    MathList::from_vec(vec![in alloc; item].expect(rt, "memory"))
}

// A displayed formula with a space as its number.
fn document(rt: &impl Abort, alloc: Global) -> Document {
    let number = Item::MuSpace(Glue {
        width: 3,
        shrink: 0,
    });
    let tag = list(rt, alloc, number);
    let formula = Formula {
        number: 1,
        display: true,
        body: Body::List(vcenter(rt, alloc)),
        tag: Some(Tag {
            body: tag,
            left: false,
        }),
    };
    let page = Page::from_vec(vec![in alloc; formula].expect(rt, "memory"));
    Document::from_vec(vec![in alloc; page].expect(rt, "memory"))
}

#[test]
fn documents_hold_formulas(rt: HostRuntime) {
    assert!(rt; document(&rt, rt.alloc()).len() == 1);
    assert!(rt; !vcenter(&rt, rt.alloc()).is_empty());
}

#[test]
fn faults_of_packing_are_faults_of_parts(rt: HostRuntime) {
    let fault = PartError::from(PackError::Overflow(1073741824));
    assert!(rt; fault == PartError::Overflow(1073741824));
}
