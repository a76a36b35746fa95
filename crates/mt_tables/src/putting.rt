//! A macro is put under the number of its name.
ghost use Rattle.std.specs.Prelude.{◌≡◌, ◌<◌, ◌≤◌, ◌++◌, ◌∷◌, [], ℕ, None, Some, set, length, map, IfOk, OnOk, OnErr};
ghost use Rattle.std.specs.List.{AllByRecursion};
ghost use Rattle.mt_macro.specs.Table.{with_macro};
ghost use Rattle.mt_lexicon.specs.Meaning.{token_of, Known};
ghost use Rattle.mt_tables.specs.inner.KeptMacros.{kept_at, name_at, macro_of_kept, table_of, AreMacros};
ghost use Rattle.mt_tables.specs.inner.KeptMacros.{IsKnownBody, Pads, Lists};

use crate::kept::{KeptMacro, WordMacros, kept_at};
use crate::places::{name_at, place_of};
use mt_lexicon::{Names, Word, WordKind, name_number};
use std::alloc::{AllocError, Global};

// The same word, or, where it is the number of no name, the Space as which it is read.
fn known_word(names: &Names, word: Word) -> Word
    ensures same { token_of names.now result ≡ token_of names.now word }
    ensures known { Known names.now result }
{
    match word.kind {
        WordKind::Name(high, low) if name_number(high, low) >= names.len() => Word::space(),
        _ => word,
    }
}

/// The same words once more, in memory of their own. A number that no name has is a Space from now
/// on, also when a name gets this number.
pub fn known_words(alloc: Global, names: &Names, list: &[Word]) -> Result<Vec<Word>, AllocError>
    ensures same { IfOk result (λ words. map (token_of names.now) words.items
        ≡ map (token_of names.now) list.now) }
    ensures known { IfOk result (λ words. AllByRecursion (Known names.now) words.items) }
    ensures size { IfOk result (λ words. length words.items ≡ length list.now) }
{
    let mut words = Vec::new(alloc);
    for word in list {
        words.push(known_word(names, *word))?;
    }
    Ok(words)
}

fn push_none(kept: &mut Vec<Option<KeptMacro>>) -> Result<(), AllocError>
    ensures ok { OnOk result (kept.new.items ≡ kept.old.items ++ None ∷ []) }
    ensures err { OnErr result (kept.new.items ≡ kept.old.items) }
{
    kept.push(None)?;
    Ok(())
}

// Adds places until there is one for a number.
fn reach(kept: &mut Vec<Option<KeptMacro>>, number: usize) -> Result<(), AllocError>
    ensures pads { Pads kept.old.items kept.new.items }
    ensures within { (limit : ℕ) → length kept.old.items ≤ limit → number < limit
        → length kept.new.items ≤ limit }
    ensures reaches { OnOk result (number < length kept.new.items) }
{
    while kept.len() <= number {
        push_none(kept)?;
    }
    Ok(())
}

// Lists a name, if it has no macro yet.
fn list_name(
    names: &Names,
    kept: &[Option<KeptMacro>],
    order: &mut Vec<usize>,
    number: usize,
) -> Result<(), AllocError>
    requires macros { AreMacros names.now kept.now order.old.items }
    requires within { number < length names.now }
    ensures ok { OnOk result (Lists names.now (kept_at kept.now number) order.old.items
        order.new.items number) }
    ensures err { OnErr result (order.new.items ≡ order.old.items) }
{
    if kept_at(kept, number).is_none() {
        let place = place_of(names, order.as_slice(), name_at(names, number));
        order.insert(place, number)?;
    }
    Ok(())
}

fn keep(kept: &mut Vec<Option<KeptMacro>>, number: usize, meaning: KeptMacro)
    requires { number < length kept.old.items }
    ensures { kept.new.items ≡ set kept.old.items number (Some meaning) }
{
    kept[number] = Some(meaning);
}

impl WordMacros {
    /// Puts a macro under the number of its name, in place of an older one.
    pub fn put(
        &mut self,
        names: &Names,
        number: usize,
        meaning: KeptMacro,
    ) -> Result<(), AllocError>
        requires macros { AreMacros names.now self.old.kept.items self.old.order.items }
        requires within { number < length names.now }
        requires known { IsKnownBody names.now (Some meaning) }
        ensures macros { AreMacros names.now self.new.kept.items self.new.order.items }
        ensures ok { OnOk result (table_of names.now self.new.kept.items self.new.order.items
            ≡ with_macro (table_of names.now self.old.kept.items self.old.order.items)
            (name_at names.now number) (macro_of_kept names.now meaning)) }
        ensures err { OnErr result (table_of names.now self.new.kept.items self.new.order.items
            ≡ table_of names.now self.old.kept.items self.old.order.items) }
    {
        reach(&mut self.kept, number)?;
        list_name(names, self.kept.as_slice(), &mut self.order, number)?;
        keep(&mut self.kept, number, meaning);
        Ok(())
    }
}
