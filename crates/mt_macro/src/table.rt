//! The macros by their names.
ghost use Rattle.std.specs.Prelude.{◌≡◌, ◌≤◌, ◌^◌, ◌<◌, ◌+◌, ◌||◌, ◌&&◌, not, [], true, false, None, length};
ghost use Rattle.std.specs.Prelude.{if◌then◌else◌, MatchOption, IfSome, IfOk, IfErr, OnOk, OnErr, slice_get};
ghost use Rattle.std.specs.Option.{option_copied, option_map};
ghost use Rattle.std.specs.Map.{keys_of};
ghost use Rattle.std.specs.List.Sorted.{IsStrictlySortedBy};
ghost use Rattle.std.specs.Cmp.Lexicographic.{slice_cmp};
ghost use Rattle.std.specs.Ordering.{nat_cmp};
ghost use Rattle.mt_macro.specs.Limits.{max_own_names};
ghost use Rattle.mt_macro.specs.Table.{macro_of, is_own, own_count, with_macro};
ghost use Rattle.mt_macro.specs.inner.Entries.{table_of, body_at, HasAt, IsPlace};
ghost use Rattle.mt_macro.specs.Naming.{IsMacro};

use crate::bodies::{Bodies, Call, Found};
use crate::name_marks::NameMarks;
use mt_scaled::Name;
use mt_token::{LentKind, Lexicon, OwnTokens, Token, TokenKind, TokenList};
use std::alloc::{AllocError, Global};
use std::cmp::Ordering;
use std::marker::Model;

/// What a name is replaced by, where it is the name of a macro.
#[derive(Debug, Drop)]
pub struct Macro {
    /// Whether the name is the user's own.
    pub own: bool,
    /// The number of parameters.
    pub params: u8,
    /// The tokens that it is replaced by, in which `#` and a digit are a parameter.
    pub body: TokenList,
}

/// Macros: a finite map from names to their numbers of parameters and bodies, with whether each
/// name is the user's own.
///
/// A name is the user's own from its first [`Macros::define`] on.
#[derive(Debug, Drop)]
pub struct Macros {
    alloc: Global,
    entries: Vec<Entry>,
    own_names: usize,
    marks: NameMarks,
}

/// A name and its macro.
#[derive(Debug, Drop)]
pub struct Entry {
    /// The name.
    pub name: Name,
    /// Its macro.
    pub meaning: Macro,
}

impl Model for Macros {
    ghost use Rattle.mt_macro.specs.Table.{Table};
    ghost use Rattle.mt_macro.specs.inner.Kept.{IsKept};
    ghost use Rattle.mt_macro.specs.inner.Entries.{table_of};

    ghost Value = { Table };

    ghost view = { λ m. table_of m.entries.items };

    ghost invariant = { λ m. IsKept (table_of m.entries.items) m.own_names m.marks };
}

impl Macros {
    /// No macros. Takes no memory; what is defined later is kept by this allocator.
    pub fn empty(alloc: Global) -> Macros
        ensures { result ≡ [] }
    {
        Macros {
            alloc,
            entries: Vec::new(alloc),
            own_names: 0,
            marks: NameMarks::none(),
        }
    }

    /// How many macros there are.
    pub fn len(&self) -> usize
        ensures { result ≡ length self.now }
    {
        self.entries.len()
    }

    /// The macro with an index in the order of the names, with its name; `None` where the macros are
    /// no more than that.
    pub fn entry(&self, index: usize) -> Option<&Entry>
        ensures is { option_map (λ e. (e.name, e.meaning)) (option_copied result)
            ≡ slice_get self.now index }
        ensures sorted { IsStrictlySortedBy (slice_cmp nat_cmp) (keys_of self.now) }
        ensures short { IfSome result (λ e. length e.now.meaning.body ≤ 2 ^ 32) }
    {
        match self.entries.as_slice().get(index) {
            Some(entry) => Some(entry),
            None => None,
        }
    }

    /// The name of the macro with a number, which is its index in the order of the names; `None` where
    /// the macros are no more than that. [`Macros::entry`] says whether the name is the user's own.
    pub fn name_of(&self, number: usize) -> Option<&Name>
        ensures { option_copied result ≡ option_map (λ e. e.0) (slice_get self.now number) }
    {
        match self.entry(number) {
            Some(entry) => Some(&entry.name),
            None => None,
        }
    }

    // The place of a name among the entries, where it is there.
    fn place_of(&self, name: &[u8]) -> Option<usize>
        ensures { MatchOption result (macro_of self.now name.now ≡ None)
            (λ i. HasAt self.now i (macro_of self.now name.now)) }
    {
        if !self.marks.has(name) {
            return None;
        }
        match search(self.entries.as_slice(), name) {
            Ok(place) => Some(place),
            Err(_) => None,
        }
    }

    // The macro of a name, by the place of its body.
    fn found(&self, name: &[u8]) -> Option<Found>
        ensures { MatchOption result (macro_of self.now name.now ≡ None)
            (λ found. IsMacro (macro_of self.now name.now) found.params
            (body_at self.now found.body)) }
    {
        match self.place_of(name) {
            Some(place) => Some(Found {
                params: self.entries[place].meaning.params,
                body: place,
            }),
            None => None,
        }
    }

    /// Whether a name is the user's own.
    pub(crate) fn is_own(&self, name: &[u8]) -> bool
        ensures { result ≡ is_own (macro_of self.now name.now) }
    {
        match self.place_of(name) {
            Some(place) => self.entries[place].meaning.own,
            None => false,
        }
    }

    /// How many names are the user's own.
    pub(crate) fn own_names(&self) -> usize
        ensures { result ≡ own_count self.now }
    {
        self.own_names
    }

    /// Puts a macro under a name, in place of an older one. The name is the user's own where this
    /// makes it so, or where it was so before.
    pub(crate) fn put(
        &mut self,
        name: &Name,
        makes_own: bool,
        params: u8,
        body: &[Token],
    ) -> Result<(), AllocError>
        requires short { length body.now ≤ 2 ^ 32 }
        requires few { makes_own ≡ true → is_own (macro_of self.old name.now) ≡ false
            → own_count self.old < max_own_names }
        ensures ok { OnOk result (self.new ≡ with_macro self.old name.now
            (record {
              own = makes_own || is_own (macro_of self.old name.now);
              params = params;
              body = body.now;
            })) }
        ensures err { OnErr result (self.new ≡ self.old) }
    {
        let was_own = self.is_own(name.as_slice());
        let key = Name::from_slice(self.alloc, name.as_slice())?;
        let meaning = Macro {
            own: either(makes_own, was_own),
            params,
            body: copy_body(self.alloc, body)?,
        };
        put_entry(&mut self.entries, key, meaning)?;
        self.own_names = own_names_after(self.own_names, makes_own, was_own);
        self.marks.add(name.as_slice());
        Ok(())
    }
}

impl Lexicon<Token> for Macros {
    ghost token = { λ _ t. t };

    fn lent<'a>(&'a self, item: &'a Token) -> LentKind<'a> {
        OwnTokens.lent(item)
    }

    fn code(&self, item: &Token) -> u8 {
        OwnTokens.code(item)
    }

    fn is_space(&self, item: &Token) -> bool {
        OwnTokens.is_space(item)
    }
}

impl Bodies<Token> for Macros {
    ghost use Rattle.std.specs.Prelude.{refl};
    ghost use Rattle.mt_macro.specs.inner.Entries.{body_at};

    ghost macros = { λ m. m };

    ghost body = { λ m n. body_at m n };

    ghost placed = { λ _ _ t. t };

    ghost kept = { λ _ _ _. refl };

    ghost nested = { λ _ _ _ _. refl };

    fn macro_at(&self, item: &Token) -> Option<Found> {
        match &item.kind {
            TokenKind::Control(name) => self.found(name.as_slice()),
            _ => None,
        }
    }

    fn body(&self, number: usize) -> &[Token] {
        match self.entries.as_slice().get(number) {
            Some(entry) => entry.meaning.body.as_slice(),
            None => &[],
        }
    }

    fn put(
        &self,
        alloc: Global,
        item: &Token,
        _: &Option<Call<'_, Token>>,
    ) -> Result<Token, AllocError> {
        item.copied(alloc)
    }
}

// Where a name is among entries in the names' order, or where it would be put.
fn search(entries: &[Entry], name: &[u8]) -> Result<usize, usize>
    requires { IsStrictlySortedBy (slice_cmp nat_cmp) (keys_of (table_of entries.now)) }
    ensures is { IsPlace (table_of entries.now) name.now result }
    ensures within { IfOk result (λ i. i < length entries.now) }
    ensures bound { IfErr result (λ i. i ≤ length entries.now) }
{
    let mut low = 0;
    let mut high = entries.len();
    while low < high {
        let middle = low + (high - low) / 2;
        match name.cmp(entries[middle].name.as_slice()) {
            Ordering::Less => high = middle,
            Ordering::Equal => return Ok(middle),
            Ordering::Greater => low = middle + 1,
        }
    }
    Err(low)
}

// Puts a macro under a name in place of an older one, or puts the name in its place.
fn put_entry(entries: &mut Vec<Entry>, name: Name, meaning: Macro) -> Result<(), AllocError>
    requires { IsStrictlySortedBy (slice_cmp nat_cmp) (keys_of (table_of entries.old.items)) }
    ensures ok { OnOk result (table_of entries.new.items ≡ with_macro (table_of entries.old.items)
        name meaning) }
    ensures err { OnErr result (entries.new.items ≡ entries.old.items) }
{
    match search(entries.as_slice(), name.as_slice()) {
        Ok(place) => entries[place].meaning = meaning,
        Err(place) => entries.insert(place, Entry { name, meaning })?,
    }
    Ok(())
}

fn either(one: bool, other: bool) -> bool
    ensures { result ≡ one || other }
{
    one || other
}

// How many names are the user's own, after a name is made so or not.
fn own_names_after(count: usize, makes_own: bool, was_own: bool) -> usize
    requires { makes_own ≡ true → was_own ≡ false → count < max_own_names }
    ensures { result ≡ (if makes_own && not was_own then count + 1 else count) }
{
    if makes_own && !was_own {
        count + 1
    } else {
        count
    }
}

// The same tokens once more, in memory of their own.
fn copy_body(alloc: Global, list: &[Token]) -> Result<TokenList, AllocError>
    ensures { IfOk result (λ tokens. tokens ≡ list.now) }
{
    let mut tokens = Vec::new(alloc);
    for token in list {
        tokens.push(token.copied(alloc)?)?;
    }
    Ok(TokenList::from_vec(tokens))
}
