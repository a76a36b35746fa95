//! Lists of the items of a formula, by the rules of the grammar (The TeXbook, chapters 17, 18, 19 and 26). Lists are in
//! lists, so reading is recursive: each list has at least one token less than the one round it.
ghost use Rattle.std.specs.Prelude.{◌≡◌, ◌≢◌, ◌∷◌, ◌≤◌, ◌<◌, ◌+◌, IfOk, OnOk, None, Some, length, drop, true, map};
ghost use Rattle.mt_rules.specs.Sequence.{More, LeftElement};
ghost use Rattle.mt_arena.specs.Arena.{as_sequence, cell_part, first_open, grid_in, other_open, rows_in, sequence_in};
ghost use Rattle.mt_arena.specs.declared.thing.Cell.TheVariants.{List as OfList};
ghost use Rattle.mt_arena.specs.Keeping.{GridLists, RowsLists};
ghost use Rattle.mt_scan.specs.Limits.{max_groups};
ghost use Rattle.mt_scan.specs.Parts.{after_blanks, opening, then_read};
ghost use Rattle.mt_scan.specs.Role.{is_open_brace};
ghost use Rattle.mt_formula.specs.Atoms.{append, last_atom_items};
ghost use Rattle.mt_formula.specs.Groups.{group_list, segments};
ghost use Rattle.mt_formula.specs.Items.{choice_list, field, given};
ghost use Rattle.mt_formula.specs.Lists.{denominator, list, list_after, then_give};
ghost use Rattle.mt_formula.specs.Primes.{after_primes, prime_script};
ghost use Rattle.mt_formula.specs.Rows.{first_rows, row};
ghost use Rattle.mt_formula.specs.Tables.{table_rows};
ghost use Rattle.mt_formula.specs.Whole.{whole_cells, whole_rows};
ghost use Rattle.mt_formula.specs.declared.actions.action.Action.TheVariants as acts;
ghost use Rattle.mt_formula.specs.declared.reading.ends.Ending.TheVariants as ends;
ghost use Rattle.mt_formula.specs.reading.Actions.{opens_list};
ghost use Rattle.mt_formula.specs.reading.Arguments.{argument_in, argument_left};
ghost use Rattle.mt_formula.specs.reading.Givens.{KeptGiven, given_in};
ghost use Rattle.mt_formula.specs.reading.Inside.{are_inside};
ghost use Rattle.mt_formula.specs.reading.Noads.{KeptField, KeptLast, last_in};
ghost use Rattle.mt_formula.specs.reading.Reads.{ReadsInto, ReadsOpen, ReadsPrimes, ReadsRow, ReadsRun, ReadsSegment};
ghost use Rattle.mt_formula.specs.reading.Reads.{whole, whole_run};
ghost use Rattle.mt_formula.specs.reading.Tables.{ReadsCell, ReadsCells, ends_row};
ghost use Rattle.mt_formula.specs.reading.WholeLists.{KeptSpan, KeptWhole, list_in};

use crate::actions::action::{Action, FieldStart, field_start};
use crate::actions::groups::open_brace;
use crate::actions::table::{SymbolScript, action_here, symbol_script};
use crate::actions::table_form::{Column, TableForm, TableStep, first_column, preamble_of};
use crate::reading::argument::{
    ArgumentEnd, ScriptArgument, after_superscript, argument_here, primes,
};
use crate::reading::context::{Grammar, Group};
use crate::reading::ends::{
    Ending, ListStop, after_first, front_code, front_role, is_at_middle, list_ends, list_stop,
};
use crate::reading::fraction::{FractionHead, fraction_head, fraction_thing};
use crate::reading::given::{
    Given, RunEnd, nucleus_given, plain_given, put_given, put_symbol, root_given, table_given,
};
use crate::reading::noads::{plain_noad, prime_noad};
use crate::reading::parts::{begin_primes, cell_list, cell_start};
use crate::reading::rows::{close_brace, first_row_begins, later_row_begins, open_row_list};
use crate::reading::stop::Stop;
use crate::reading::tables::{after_cell, brace_level, row_or_end};
use crate::reading::whole_list::{
    WholeList, close_list, finish_list, nucleus_of, push_last, span_of,
};
use mt_arena::{Arena, Cell, ChoiceSpans, Noad, Span, Thing};
use mt_rules::{Class, Delim, Kind};
use mt_scan::items::{after_blanks, after_spaces, scan_delimiter};
use mt_scan::{FieldKind, Preamble, ReadCause, Roles, Scanned, Side};

// A run of items after the atom at hand, up to a token that is no item: how far it is read, and the tokens from there.
#[cycle(reading)]
fn read_run<'a, T, R: Roles<T>>(
    arena: &mut Arena,
    grammar: Grammar<'_, R>,
    group: Group,
    run: &mut RunEnd,
    tokens: &'a [T],
) -> Result<&'a [T], Stop>
    requires { KeptLast arena.old.closed run.old.last }
    ensures is { ReadsRun (R.token grammar.entry.roles.now) result arena.old arena.new run.new
        (whole_run (R.codes grammar.entry.roles.now) grammar.entry.units group.level group.family
        (last_in arena.old.closed run.old.last) (map (R.token grammar.entry.roles.now) tokens.now)) }
    ensures last { OnOk result (KeptLast arena.new.closed run.new.last) }
    ensures falls { IfOk result (λ rest. length rest.now ≤ length tokens.now) }
{
    run.family = group.family;
    let mut rest = tokens;
    loop {
        // Most tokens are symbols: what one does is read off its math code, without its role.
        if let Some(code) = front_code(grammar.roles, rest) {
            put_symbol(arena, run, code)?;
            rest = after_first(grammar.roles, rest);
            continue;
        }
        let here = group.with_family(run.family);
        let role = front_role(grammar.roles, rest);
        if let Some(script) = symbol_script(grammar.roles, here, &run.last, role, rest) {
            let SymbolScript { side, symbol } = script.value;
            put_given(arena, run, Given::Script(side, Cell::Sym(symbol)))?;
            rest = script.rest;
            continue;
        }
        let action = action_here(grammar, here, &run.last, role, rest)?;
        if let Action::Stop = action.value {
            return Ok(action.rest);
        }
        let given = read_given(arena, grammar, here, action.value, action.rest)?;
        put_given(arena, run, given.value)?;
        rest = given.rest;
    }
}

// What an action gives, with all that is read for it.
#[cycle(reading)]
fn read_given<'a, T, R: Roles<T>>(
    arena: &mut Arena,
    grammar: Grammar<'_, R>,
    group: Group,
    action: Action,
    tokens: &'a [T],
) -> Result<Scanned<'a, Given, T>, Stop>
    requires not_stop { action ≢ acts.Stop }
    requires level { opens_list action ≡ true → group.level < max_groups }
    ensures is { ReadsInto (R.token grammar.entry.roles.now) given_in result arena.old arena.new
        (whole given (R.codes grammar.entry.roles.now) grammar.entry.units group.level group.family action
        (map (R.token grammar.entry.roles.now) tokens.now)) }
    ensures kept { IfOk result (λ part. KeptGiven arena.new.closed part.value) }
    ensures falls { IfOk result (λ part. length part.rest.now ≤ length tokens.now) }
{
    match action {
        Action::Group(kind) => read_nucleus(arena, grammar, group, kind, tokens),
        Action::ScriptGroup(side) => {
            let list = read_group(arena, grammar, group, tokens)?;
            Ok(Scanned {
                value: Given::Script(side, nucleus_of(arena, list.value)?),
                rest: list.rest,
            })
        }
        Action::Prime => {
            let list = read_primes(arena, grammar, group, tokens)?;
            Ok(Scanned {
                value: Given::Script(Side::Up, Cell::List(list.value)),
                rest: list.rest,
            })
        }
        Action::Rows => {
            let rows = read_rows(arena, grammar, group.level + 1, tokens)?;
            Ok(Scanned {
                value: Given::Atom(plain_noad(Kind::Vcenter, Cell::Rows(rows.value))),
                rest: rows.rest,
            })
        }
        Action::LeftRight(left) => {
            let list = read_left_right(arena, grammar, group.inside(), left, tokens)?;
            Ok(Scanned {
                value: Given::Atom(plain_noad(Kind::Plain(Class::Inner), Cell::List(list.value))),
                rest: list.rest,
            })
        }
        Action::Choice => read_choice(arena, grammar, group, tokens),
        Action::Table(form) => read_table_word(arena, grammar, group, form, tokens),
        Action::Root => read_root(arena, grammar, group, tokens),
        plain => Ok(Scanned {
            value: plain_given(plain)?,
            rest: tokens,
        }),
    }
}

// A group as the nucleus of an atom of this kind.
#[cycle(reading)]
fn read_nucleus<'a, T, R: Roles<T>>(
    arena: &mut Arena,
    grammar: Grammar<'_, R>,
    group: Group,
    kind: FieldKind,
    tokens: &'a [T],
) -> Result<Scanned<'a, Given, T>, Stop>
    requires { group.level < max_groups }
    ensures is { ReadsInto (R.token grammar.entry.roles.now) given_in result arena.old arena.new
        (whole given (R.codes grammar.entry.roles.now) grammar.entry.units group.level group.family (acts.Group kind)
        (map (R.token grammar.entry.roles.now) tokens.now)) }
    ensures kept { IfOk result (λ part. KeptGiven arena.new.closed part.value) }
    ensures falls { IfOk result (λ part. length part.rest.now ≤ length tokens.now) }
{
    let list = read_group(arena, grammar, group, tokens)?;
    Ok(Scanned {
        value: nucleus_given(arena, kind, list.value)?,
        rest: list.rest,
    })
}

// The list of a group after its `{`, and the tokens after its `}`.
#[cycle(reading)]
fn read_group<'a, T, R: Roles<T>>(
    arena: &mut Arena,
    grammar: Grammar<'_, R>,
    group: Group,
    tokens: &'a [T],
) -> Result<Scanned<'a, WholeList, T>, Stop>
    requires { group.level < max_groups }
    ensures is { ReadsInto (R.token grammar.entry.roles.now) list_in result arena.old arena.new
        (whole group_list (R.codes grammar.entry.roles.now) grammar.entry.units group.level group.family
        (map (R.token grammar.entry.roles.now) tokens.now)) }
    ensures kept { IfOk result (λ part. KeptWhole arena.new.closed part.value) }
    ensures falls { IfOk result (λ part. length part.rest.now ≤ length tokens.now) }
{
    let list = read_list(arena, grammar, group.inside(), Ending::AtBrace, tokens)?;
    Ok(Scanned {
        value: list.value,
        rest: after_first(grammar.roles, list.rest),
    })
}

/// A list that ends so; the token that ends it is left.
#[cycle(reading)]
pub fn read_list<'a, T, R: Roles<T>>(
    arena: &mut Arena,
    grammar: Grammar<'_, R>,
    group: Group,
    ending: Ending,
    tokens: &'a [T],
) -> Result<Scanned<'a, WholeList, T>, Stop>
    ensures is { ReadsInto (R.token grammar.entry.roles.now) list_in result arena.old arena.new
        (whole list (R.codes grammar.entry.roles.now) grammar.entry.units ending group.level group.family
        (map (R.token grammar.entry.roles.now) tokens.now)) }
    ensures kept { IfOk result (λ part. KeptWhole arena.new.closed part.value) }
    ensures falls { IfOk result (λ part. length part.rest.now ≤ length tokens.now) }
{
    arena.begin()?;
    let mut run = RunEnd {
        last: None,
        family: group.family,
    };
    let rest = read_open(arena, grammar, group, ending, &mut run, tokens)?;
    Ok(Scanned {
        value: finish_list(arena, &run.last)?,
        rest,
    })
}

// A list that ends so, of which some items are in the innermost open list of the arena, and one atom may be at hand.
// The atom that is then at hand is its last item, where there is one.
#[cycle(reading)]
#[inline(always)]
fn read_open<'a, T, R: Roles<T>>(
    arena: &mut Arena,
    grammar: Grammar<'_, R>,
    group: Group,
    ending: Ending,
    run: &mut RunEnd,
    tokens: &'a [T],
) -> Result<&'a [T], Stop>
    requires last { KeptLast arena.old.closed run.old.last }
    requires inner { arena.old.below ≡ first_open arena.old.below ∷ other_open arena.old.below }
    requires inside { are_inside arena.old.top ≡ true }
    ensures is { ReadsOpen (R.token grammar.entry.roles.now) result arena.old arena.new run.new.last
        (whole list_after (R.codes grammar.entry.roles.now) grammar.entry.units (as_sequence arena.old.top)
        (last_in arena.old.closed run.old.last) ending group.level group.family
        (map (R.token grammar.entry.roles.now) tokens.now)) }
    ensures last { OnOk result (KeptLast arena.new.closed run.new.last) }
    ensures falls { IfOk result (λ rest. length rest.now ≤ length tokens.now) }
{
    let rest = read_run(arena, grammar, group, run, tokens)?;
    match list_stop(grammar.roles, ending, rest)? {
        ListStop::Ends => Ok(rest),
        ListStop::Divides(delims, bar) => {
            let after = after_first(grammar.roles, rest);
            let head = fraction_head(grammar.roles, grammar.units, delims, bar, after)?;
            let here = group.with_family(run.family);
            read_denominator(arena, grammar, here, ending, run, head.value, head.rest)
        }
    }
}

// The list after what a fraction word begins: the items that are open, with the atom at hand, are the numerator.
#[cycle(reading)]
#[inline(never)]
fn read_denominator<'a, T, R: Roles<T>>(
    arena: &mut Arena,
    grammar: Grammar<'_, R>,
    group: Group,
    ending: Ending,
    run: &mut RunEnd,
    head: FractionHead,
    tokens: &'a [T],
) -> Result<&'a [T], Stop>
    requires last { KeptLast arena.old.closed run.old.last }
    requires inner { arena.old.below ≡ first_open arena.old.below ∷ other_open arena.old.below }
    requires inside { are_inside arena.old.top ≡ true }
    ensures is { ReadsOpen (R.token grammar.entry.roles.now) result arena.old arena.new run.new.last
        (whole denominator (R.codes grammar.entry.roles.now) grammar.entry.units ending group.level
        (record {
          items = append (as_sequence arena.old.top)
              (last_atom_items (last_in arena.old.closed run.old.last));
          family = group.family;
        }) head (map (R.token grammar.entry.roles.now) tokens.now)) }
    ensures last { OnOk result (KeptLast arena.new.closed run.new.last) }
    ensures falls { IfOk result (λ rest. length rest.now ≤ length tokens.now) }
{
    let num = close_list(arena, &run.last)?;
    arena.begin()?;
    run.last = None;
    let rest = read_run(arena, grammar, group, run, tokens)?;
    list_ends(grammar.roles, ending, rest)?;
    let den = close_list(arena, &run.last)?;
    arena.begin()?;
    run.last = None;
    arena.push(fraction_thing(head, num, den)?)?;
    Ok(rest)
}

// A field: a symbol, or what a group is as a nucleus.
#[cycle(reading)]
fn read_field<'a, T, R: Roles<T>>(
    arena: &mut Arena,
    grammar: Grammar<'_, R>,
    group: Group,
    tokens: &'a [T],
) -> Result<Scanned<'a, Cell, T>, Stop>
    ensures is { ReadsInto (R.token grammar.entry.roles.now) cell_part result arena.old arena.new
        (whole field (R.codes grammar.entry.roles.now) grammar.entry.units group.level group.family
        (map (R.token grammar.entry.roles.now) tokens.now)) }
    ensures kept { IfOk result (λ part. KeptField arena.new.closed part.value) }
    ensures falls { IfOk result (λ part. length part.rest.now ≤ length tokens.now) }
{
    let start = field_start(grammar.roles, group.level, group.family, tokens)?;
    match start.value {
        FieldStart::Symbol(symbol) => Ok(Scanned {
            value: Cell::Sym(symbol),
            rest: start.rest,
        }),
        FieldStart::Group => {
            let list = read_group(arena, grammar, group, start.rest)?;
            Ok(Scanned {
                value: nucleus_of(arena, list.value)?,
                rest: list.rest,
            })
        }
    }
}

// A root after its word: its degree, which ends at `\of`, and a field.
#[cycle(reading)]
fn read_root<'a, T, R: Roles<T>>(
    arena: &mut Arena,
    grammar: Grammar<'_, R>,
    group: Group,
    tokens: &'a [T],
) -> Result<Scanned<'a, Given, T>, Stop>
    requires { group.level < max_groups }
    ensures is { ReadsInto (R.token grammar.entry.roles.now) given_in result arena.old arena.new
        (whole given (R.codes grammar.entry.roles.now) grammar.entry.units group.level group.family acts.Root
        (map (R.token grammar.entry.roles.now) tokens.now)) }
    ensures kept { IfOk result (λ part. KeptGiven arena.new.closed part.value) }
    ensures falls { IfOk result (λ part. length part.rest.now ≤ length tokens.now) }
{
    let list = read_list(arena, grammar, group.inside(), Ending::AtOf, tokens)?;
    let degree = span_of(arena, list.value)?;
    let body = read_field(arena, grammar, group, after_first(grammar.roles, list.rest))?;
    Ok(Scanned {
        value: root_given(arena, degree, body.value)?,
        rest: body.rest,
    })
}

// A list of a choice after its `{`, and the tokens after its `}`.
#[cycle(reading)]
fn read_branch<'a, T, R: Roles<T>>(
    arena: &mut Arena,
    grammar: Grammar<'_, R>,
    group: Group,
    tokens: &'a [T],
) -> Result<Scanned<'a, Span, T>, Stop>
    requires { group.level < max_groups }
    ensures is { ReadsInto (R.token grammar.entry.roles.now) sequence_in result arena.old arena.new
        (whole group_list (R.codes grammar.entry.roles.now) grammar.entry.units group.level group.family
        (map (R.token grammar.entry.roles.now) tokens.now)) }
    ensures kept { IfOk result (λ part. KeptSpan arena.new.closed part.value) }
    ensures falls { IfOk result (λ part. length part.rest.now ≤ length tokens.now) }
{
    let list = read_group(arena, grammar, group, tokens)?;
    Ok(Scanned {
        value: span_of(arena, list.value)?,
        rest: list.rest,
    })
}

// Another list of a choice, before which Spaces may be.
#[cycle(reading)]
fn read_next_branch<'a, T, R: Roles<T>>(
    arena: &mut Arena,
    grammar: Grammar<'_, R>,
    group: Group,
    tokens: &'a [T],
) -> Result<Scanned<'a, Span, T>, Stop>
    ensures is { ReadsInto (R.token grammar.entry.roles.now) sequence_in result arena.old arena.new
        (whole choice_list (R.codes grammar.entry.roles.now) grammar.entry.units group.level group.family
        (map (R.token grammar.entry.roles.now) tokens.now)) }
    ensures kept { IfOk result (λ part. KeptSpan arena.new.closed part.value) }
    ensures falls { IfOk result (λ part. length part.rest.now ≤ length tokens.now) }
{
    let inside = open_brace(
        grammar.roles,
        group.level,
        after_spaces(grammar.roles, tokens),
    )?;
    read_branch(arena, grammar, group, inside)
}

// The four lists of a choice, of which the first one begins here.
#[cycle(reading)]
fn read_choice<'a, T, R: Roles<T>>(
    arena: &mut Arena,
    grammar: Grammar<'_, R>,
    group: Group,
    tokens: &'a [T],
) -> Result<Scanned<'a, Given, T>, Stop>
    requires { group.level < max_groups }
    ensures is { ReadsInto (R.token grammar.entry.roles.now) given_in result arena.old arena.new
        (whole given (R.codes grammar.entry.roles.now) grammar.entry.units group.level group.family acts.Choice
        (map (R.token grammar.entry.roles.now) tokens.now)) }
    ensures kept { IfOk result (λ part. KeptGiven arena.new.closed part.value) }
    ensures falls { IfOk result (λ part. length part.rest.now ≤ length tokens.now) }
{
    let display = read_branch(arena, grammar, group, tokens)?;
    let text = read_next_branch(arena, grammar, group, display.rest)?;
    let script = read_next_branch(arena, grammar, group, text.rest)?;
    let small = read_next_branch(arena, grammar, group, script.rest)?;
    Ok(Scanned {
        value: Given::Item(Thing::Choice(ChoiceSpans {
            display: display.value,
            text: text.value,
            script: script.value,
            small: small.value,
        })),
        rest: small.rest,
    })
}

// The lists between boundaries after the left one, and the boundaries and middles with them.
#[cycle(reading)]
fn read_left_right<'a, T, R: Roles<T>>(
    arena: &mut Arena,
    grammar: Grammar<'_, R>,
    group: Group,
    left: Delim,
    tokens: &'a [T],
) -> Result<Scanned<'a, Span, T>, Stop>
    ensures is { ReadsInto (R.token grammar.entry.roles.now) sequence_in result arena.old arena.new
        (then_give (whole segments (R.codes grammar.entry.roles.now) grammar.entry.units group.level group.family
        (map (R.token grammar.entry.roles.now) tokens.now)) (λ inner. More (LeftElement left) inner)) }
    ensures kept { IfOk result (λ part. KeptField arena.new.closed (OfList part.value)) }
    ensures falls { IfOk result (λ part. length part.rest.now ≤ length tokens.now) }
{
    arena.begin()?;
    arena.push(Thing::Left(left))?;
    let mut rest = tokens;
    loop {
        let end = read_segment(arena, grammar, group, rest)?;
        let delim = scan_delimiter(grammar.roles, after_first(grammar.roles, end))?;
        rest = delim.rest;
        if is_at_middle(grammar.roles, end) {
            arena.push(Thing::Middle(delim.value))?;
        } else {
            arena.push(Thing::Right(delim.value))?;
            return Ok(Scanned {
                value: arena.close()?,
                rest,
            });
        }
    }
}

// A list between boundaries, put behind the items of the innermost open list; the token that ends it is left.
#[cycle(reading)]
fn read_segment<'a, T, R: Roles<T>>(
    arena: &mut Arena,
    grammar: Grammar<'_, R>,
    group: Group,
    tokens: &'a [T],
) -> Result<&'a [T], Stop>
    ensures is { ReadsSegment (R.token grammar.entry.roles.now) result arena.old arena.new
        (whole list (R.codes grammar.entry.roles.now) grammar.entry.units ends.AtRight group.level group.family
        (map (R.token grammar.entry.roles.now) tokens.now)) }
    ensures falls { IfOk result (λ rest. length rest.now ≤ length tokens.now) }
{
    arena.begin()?;
    let mut run = RunEnd {
        last: None,
        family: group.family,
    };
    let rest = read_open(arena, grammar, group, Ending::AtRight, &mut run, tokens)?;
    push_last(arena, &run.last)?;
    arena.join();
    Ok(rest)
}

// The rows of a vcenter atom after its `{`, and the tokens after its `}`. So many groups are open in them.
#[cycle(reading)]
fn read_rows<'a, T, R: Roles<T>>(
    arena: &mut Arena,
    grammar: Grammar<'_, R>,
    level: usize,
    tokens: &'a [T],
) -> Result<Scanned<'a, Span, T>, Stop>
    requires { level ≤ max_groups + 1 }
    ensures is { ReadsInto (R.token grammar.entry.roles.now) rows_in result arena.old arena.new
        (first_rows (R.codes grammar.entry.roles.now) grammar.entry.units
        (whole_run (R.codes grammar.entry.roles.now) grammar.entry.units)
        (whole_rows (R.codes grammar.entry.roles.now) grammar.entry.units
        (whole_run (R.codes grammar.entry.roles.now) grammar.entry.units) level)
        (map (R.token grammar.entry.roles.now) tokens.now)) }
    ensures within { IfOk result (λ part. part.value.end ≤ length arena.new.closed) }
    ensures lists { IfOk result (λ part. RowsLists (rows_in arena.new.closed part.value)) }
    ensures falls { IfOk result (λ part. length part.rest.now ≤ length tokens.now) }
{
    arena.begin()?;
    let mut row = first_row_begins(grammar.roles, tokens)?;
    while row.value {
        let rest = read_row(arena, grammar, level, row.rest)?;
        row = later_row_begins(grammar.roles, rest)?;
    }
    Ok(Scanned {
        value: arena.close()?,
        rest: row.rest,
    })
}

// A row of a vcenter atom after its `\hbox`, put behind those before it.
#[cycle(reading)]
fn read_row<'a, T, R: Roles<T>>(
    arena: &mut Arena,
    grammar: Grammar<'_, R>,
    level: usize,
    tokens: &'a [T],
) -> Result<&'a [T], Stop>
    requires { level ≤ max_groups + 1 }
    ensures is { ReadsRow (R.token grammar.entry.roles.now) result arena.old arena.new
        (whole row (R.codes grammar.entry.roles.now) grammar.entry.units level
        (map (R.token grammar.entry.roles.now) tokens.now)) }
    ensures falls { IfOk result (λ rest. length rest.now < length tokens.now) }
{
    let inside = open_row_list(grammar.roles, level, tokens)?;
    let group = Group::without_family(level + 2);
    let list = read_list(arena, grammar, group, Ending::AtDollar, inside)?;
    let rest = close_brace(grammar.roles, after_first(grammar.roles, list.rest))?;
    let span = span_of(arena, list.value)?;
    arena.push(Thing::Row(span))?;
    Ok(rest)
}

// A table after its word.
#[cycle(reading)]
fn read_table_word<'a, T, R: Roles<T>>(
    arena: &mut Arena,
    grammar: Grammar<'_, R>,
    group: Group,
    form: TableForm,
    tokens: &'a [T],
) -> Result<Scanned<'a, Given, T>, Stop>
    ensures is { ReadsInto (R.token grammar.entry.roles.now) given_in result arena.old arena.new
        (whole given (R.codes grammar.entry.roles.now) grammar.entry.units group.level group.family (acts.Table form)
        (map (R.token grammar.entry.roles.now) tokens.now)) }
    ensures kept { IfOk result (λ part. KeptGiven arena.new.closed part.value) }
    ensures falls { IfOk result (λ part. length part.rest.now ≤ length tokens.now) }
{
    let level = brace_level(form, group.level);
    let rows = read_table(arena, grammar, preamble_of(form), level, tokens)?;
    Ok(Scanned {
        value: table_given(arena, form, rows.value)?,
        rest: rows.rest,
    })
}

/// The rows of a table between braces, where so many groups are open at the `{`.
#[cycle(reading)]
pub fn read_table<'a, T, R: Roles<T>>(
    arena: &mut Arena,
    grammar: Grammar<'_, R>,
    preamble: Preamble,
    level: usize,
    tokens: &'a [T],
) -> Result<Scanned<'a, Span, T>, Stop>
    ensures is { ReadsInto (R.token grammar.entry.roles.now) grid_in result arena.old arena.new
        (then_read (opening (R.codes grammar.entry.roles.now) is_open_brace level
        (after_blanks (R.codes grammar.entry.roles.now) (map (R.token grammar.entry.roles.now) tokens.now)))
        (λ here inside. table_rows (R.codes grammar.entry.roles.now) grammar.entry.units
        (whole_run (R.codes grammar.entry.roles.now) grammar.entry.units) (level + 1) preamble inside)) }
    ensures within { IfOk result (λ part. part.value.end ≤ length arena.new.closed) }
    ensures lists { IfOk result (λ part. GridLists (grid_in arena.new.closed part.value)) }
    ensures falls { IfOk result (λ part. length part.rest.now ≤ length tokens.now) }
{
    let inside = open_brace(grammar.roles, level, after_blanks(grammar.roles, tokens))?;
    read_table_rows(arena, grammar, preamble, level + 1, inside)
}

// The rows of a table after its `{`, and the tokens after its `}`. So many groups are open in each cell.
#[cycle(reading)]
fn read_table_rows<'a, T, R: Roles<T>>(
    arena: &mut Arena,
    grammar: Grammar<'_, R>,
    preamble: Preamble,
    level: usize,
    tokens: &'a [T],
) -> Result<Scanned<'a, Span, T>, Stop>
    requires { level ≤ max_groups }
    ensures is { ReadsInto (R.token grammar.entry.roles.now) grid_in result arena.old arena.new
        (whole table_rows (R.codes grammar.entry.roles.now) grammar.entry.units level preamble
        (map (R.token grammar.entry.roles.now) tokens.now)) }
    ensures within { IfOk result (λ part. part.value.end ≤ length arena.new.closed) }
    ensures lists { IfOk result (λ part. GridLists (grid_in arena.new.closed part.value)) }
    ensures falls { IfOk result (λ part. length part.rest.now ≤ length tokens.now) }
{
    arena.begin()?;
    let mut step = row_or_end(grammar.roles, after_spaces(grammar.roles, tokens));
    while let TableStep::NextRow = step.value {
        step = read_cells(arena, grammar, preamble, level, step.rest)?;
    }
    Ok(Scanned {
        value: arena.close()?,
        rest: step.rest,
    })
}

// The cells of a row of a table, put behind the rows before it, and how the table goes on then.
#[cycle(reading)]
fn read_cells<'a, T, R: Roles<T>>(
    arena: &mut Arena,
    grammar: Grammar<'_, R>,
    preamble: Preamble,
    level: usize,
    tokens: &'a [T],
) -> Result<Scanned<'a, TableStep, T>, Stop>
    requires { level ≤ max_groups }
    ensures is { ReadsCells (R.token grammar.entry.roles.now)
        (whole whole_cells (R.codes grammar.entry.roles.now) grammar.entry.units level preamble) preamble result
        arena.old arena.new (map (R.token grammar.entry.roles.now) tokens.now) }
    ensures ends { IfOk result (λ step. ends_row step.value ≡ true) }
    ensures falls { IfOk result (λ step. length step.rest.now < length tokens.now) }
{
    arena.begin()?;
    let mut column = first_column(preamble);
    let mut rest = tokens;
    loop {
        let step = read_cell(arena, grammar, preamble, column, level, rest)?;
        match step.value {
            TableStep::NextCell(next) => {
                column = next;
                rest = step.rest;
            }
            _ => {
                let cells = arena.close()?;
                arena.push(Thing::Cells(cells))?;
                return Ok(step);
            }
        }
    }
}

// A cell of a table, put behind those before it, and how the table goes on then.
#[cycle(reading)]
fn read_cell<'a, T, R: Roles<T>>(
    arena: &mut Arena,
    grammar: Grammar<'_, R>,
    preamble: Preamble,
    column: Column,
    level: usize,
    tokens: &'a [T],
) -> Result<Scanned<'a, TableStep, T>, Stop>
    requires { level ≤ max_groups }
    ensures is { ReadsCell (R.codes grammar.entry.roles.now) grammar.entry.units
        (whole_run (R.codes grammar.entry.roles.now) grammar.entry.units) level preamble
        (R.token grammar.entry.roles.now) result arena.old arena.new column
        (map (R.token grammar.entry.roles.now) tokens.now) }
    ensures falls { IfOk result (λ step. length step.rest.now < length tokens.now) }
{
    arena.begin()?;
    let group = Group::without_family(level);
    let mut run = RunEnd {
        last: cell_start(column),
        family: None,
    };
    let end = read_open(arena, grammar, group, Ending::AtCell, &mut run, tokens)?;
    let step = after_cell(grammar.roles, preamble, column, end)?;
    let list = finish_list(arena, &run.last)?;
    let span = cell_list(arena, column, list)?;
    arena.push(Thing::Row(span))?;
    Ok(step)
}

// A prime and those after it, and perhaps `^` with its argument, as a list.
#[cycle(reading)]
fn read_primes<'a, T, R: Roles<T>>(
    arena: &mut Arena,
    grammar: Grammar<'_, R>,
    group: Group,
    tokens: &'a [T],
) -> Result<Scanned<'a, Span, T>, Stop>
    ensures is { ReadsInto (R.token grammar.entry.roles.now) sequence_in result arena.old arena.new
        (whole prime_script (R.codes grammar.entry.roles.now) grammar.entry.units group.level group.family
        (map (R.token grammar.entry.roles.now) tokens.now)) }
    ensures kept { IfOk result (λ part. KeptSpan arena.new.closed part.value) }
    ensures falls { IfOk result (λ part. length part.rest.now ≤ length tokens.now) }
{
    let more = primes(grammar.roles, tokens);
    match after_superscript(grammar.roles, more.rest) {
        Some(after) => {
            let argument = argument_here(grammar.roles, group, after)?;
            read_argument(arena, grammar, more.value, argument)
        }
        None => {
            begin_primes(arena, more.value)?;
            Ok(Scanned {
                value: close_list(arena, &Some(prime_noad()))?,
                rest: more.rest,
            })
        }
    }
}

// So many primes and one more, and an argument after them, as a list; and the tokens after the argument.
#[cycle(reading)]
fn read_argument<'a, T, R: Roles<T>>(
    arena: &mut Arena,
    grammar: Grammar<'_, R>,
    count: usize,
    argument: ScriptArgument<'a, T>,
) -> Result<Scanned<'a, Span, T>, Stop>
    ensures is { ReadsInto (R.token grammar.entry.roles.now) sequence_in result arena.old arena.new
        (whole (argument_in (R.token grammar.entry.roles.now)) (R.codes grammar.entry.roles.now) grammar.entry.units
        count argument.entry) }
    ensures kept { IfOk result (λ part. KeptSpan arena.new.closed part.value) }
    ensures falls { IfOk result (λ part. length part.rest.now ≤ argument_left argument.entry) }
{
    let read = read_after_primes(arena, grammar, count, argument.group, argument.inside);
    match argument.end {
        ArgumentEnd::Missing => {
            read?;
            Err(Stop::at(ReadCause::Unbalanced, 0))
        }
        ArgumentEnd::Closed { after, behind } => match read {
            Ok(span) => Ok(Scanned {
                value: span,
                rest: after,
            }),
            Err(stop) => Err(stop.in_argument(behind)),
        },
    }
}

// So many primes and one more, and the items of an argument after them, as a list.
#[cycle(reading)]
fn read_after_primes<T, R: Roles<T>>(
    arena: &mut Arena,
    grammar: Grammar<'_, R>,
    count: usize,
    group: Group,
    inside: &[T],
) -> Result<Span, Stop>
    ensures is { ReadsPrimes result arena.old arena.new
        (whole after_primes (R.codes grammar.entry.roles.now) grammar.entry.units count group.level group.family
        (map (R.token grammar.entry.roles.now) inside.now)) }
    ensures kept { IfOk result (KeptSpan arena.new.closed) }
{
    begin_primes(arena, count)?;
    let mut run = RunEnd {
        last: Some(prime_noad()),
        family: group.family,
    };
    read_open(arena, grammar, group, Ending::AtEnd, &mut run, inside)?;
    Ok(close_list(arena, &run.last)?)
}
