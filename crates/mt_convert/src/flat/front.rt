//! What a turn does at the front of what is left of a list in an arena.
ghost use Rattle.std.specs.Prelude.{◌≡◌, List, OnOk};
ghost use Rattle.mt_rules.specs.Sequence.{More, StyleElement};
ghost use Rattle.mt_arena.specs.Arena.{Held, sequence_in, value_in};
ghost use Rattle.mt_arena.specs.Keeping.{KeptList};
ghost use Rattle.mt_arena.specs.Rest.{append_list, rest_in, IsFree, KeptItem, KeptRest};
ghost use Rattle.mt_arena.specs.declared.thing.Thing.TheVariants.{Choice as ChoiceThing};
ghost use Rattle.mt_convert.specs.Flat.{list_for};
ghost use Rattle.mt_convert.specs.inner.Spans.{held_space};
ghost use Rattle.mt_convert.specs.inner.Turns.{begins_with_space, first_element_as, next_symbol_of};

use crate::flat::joining::{as_symbol, second_symbol};
use mt_arena::{Arena, ChoiceSpans, Rest, Span, Thing};
use mt_rules::{Style, Symbol};
use std::alloc::AllocError;

// Whether a conditional space takes away the next item.
pub(crate) fn begins_with_space(arena: &Arena, rest: &mut Rest) -> bool
    requires { KeptRest arena.now.closed rest.old }
    ensures is { result ≡ begins_with_space (rest_in arena.now.closed rest.old) }
    ensures same { rest_in arena.now.closed rest.new ≡ rest_in arena.now.closed rest.old }
    ensures kept { KeptRest arena.now.closed rest.new }
{
    match rest.peek(arena) {
        Some(next) => is_space(next),
        None => false,
    }
}

// The symbol of the next item, if the atom before it may be joined with it.
pub(crate) fn next_symbol(arena: &Arena, rest: &mut Rest) -> Option<Symbol>
    requires { KeptRest arena.now.closed rest.old }
    ensures is { result ≡ next_symbol_of (rest_in arena.now.closed rest.old) }
    ensures same { rest_in arena.now.closed rest.new ≡ rest_in arena.now.closed rest.old }
    ensures kept { KeptRest arena.now.closed rest.new }
{
    match rest.peek(arena) {
        Some(next) => second_symbol(next),
        None => None,
    }
}

// The next atom becomes an ordinary one of this symbol.
pub(crate) fn join(arena: &Arena, rest: &mut Rest, symbol: Symbol)
    requires { KeptRest arena.now.closed rest.old }
    ensures is { rest_in arena.now.closed rest.new ≡ first_element_as symbol (rest_in arena.now.closed rest.old) }
    ensures kept { KeptRest arena.now.closed rest.new }
{
    if let Some(next) = rest.pop(arena) {
        rest.push(as_symbol(next, symbol));
    }
}

// Puts a choice's list for a style before the rest, and the style before it.
pub(crate) fn choose(rest: &mut Rest, style: Style, spans: ChoiceSpans) -> Result<(), AllocError>
    requires { IsFree rest.old }
    ensures is { OnOk result ((es : List Held) → rest_in es rest.new ≡ More (StyleElement style)
        (append_list (list_for style (sequence_in es spans.display) (sequence_in es spans.text)
        (sequence_in es spans.script) (sequence_in es spans.small)) (rest_in es rest.old))) }
    ensures kept { OnOk result ((es : List Held) → KeptItem es (ChoiceThing spans)
        → KeptRest es rest.old → KeptRest es rest.new) }
{
    rest.enter(chosen(spans, style))?;
    rest.push(Thing::Style(style));
    Ok(())
}

// The list of a choice for a style.
fn chosen(spans: ChoiceSpans, style: Style) -> Span
    ensures { result ≡ list_for style spans.display spans.text spans.script spans.small }
{
    match style {
        Style::D | Style::Dc => spans.display,
        Style::T | Style::Tc => spans.text,
        Style::S | Style::Sc => spans.script,
        Style::Ss | Style::Ssc => spans.small,
    }
}

fn is_space(thing: Thing) -> bool
    ensures { (es : List Held) → result ≡ held_space (value_in es thing) }
{
    matches!(
        thing,
        Thing::MuSpace(_) | Thing::Space(_) | Thing::MuKern(_) | Thing::Kern(_) | Thing::Nonscript
    )
}
