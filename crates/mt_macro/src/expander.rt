//! The steps of an expansion, in memory that is kept.
ghost use Rattle.std.specs.Prelude.{◌≡◌, ◌<◌, ◌≤◌, ◌+◌, ◌^◌, ◌++◌, ◌∷◌, [], IfOk, OnOk, Err, None, length, map};
ghost use Rattle.mt_macro.specs.Limits.{max_steps, max_tokens};
ghost use Rattle.mt_macro.specs.Braces.{first_unmatched};
ghost use Rattle.mt_macro.specs.PlacedExpansion.{placed_run, placed_expansion, StopsAs};
ghost use Rattle.mt_macro.specs.inner.Ends.{AreEnds};
ghost use Rattle.mt_macro.specs.inner.Replacing.{Replaces};
ghost use Rattle.mt_macro.specs.inner.Runs.{sources, called_body, meanings, left_of, all_tokens, AreRuns, AreLeft};
ghost use Rattle.mt_macro.specs.declared.expansion.ExpandError.TheVariants.{OutOfMemory};

use crate::arguments::take_arguments;
use crate::bodies::Bodies;
use crate::braces::first_unmatched;
use crate::ends::known_ends;
use crate::expansion::ExpandError;
use crate::filling::{fill, put_filled};
use crate::parts::bound_parts;
use crate::passing::{next_macro, push_again};
use crate::run::{Called, Place, Run};
use crate::stack::{Parts, Rest};
use std::alloc::{AllocError, Global};

/// The greatest number of tokens that a list has, before and after each step.
pub const MAX_TOKENS: usize = 50_000;

/// The greatest number of steps.
const MAX_STEPS: u32 = 20_000;

/// The memory of expansions, which later ones take again.
#[derive(Drop)]
pub struct Expander {
    alloc: Global,
    parts: Parts,
    rest: Rest,
    taken: Vec<Run>,
    filled: Rest,
}

// What became of a macro and its arguments.
#[derive(Clone, Copy, Debug)]
enum Replacement {
    NoArgument,
    TooLong(u64),
    Done,
}

impl Expander {
    /// Memory for no expansion yet; it is taken by this allocator.
    pub fn new(alloc: Global) -> Expander {
        Expander {
            alloc,
            parts: Parts {
                runs: Vec::new(alloc),
            },
            rest: Rest {
                runs: Vec::new(alloc),
                count: 0,
            },
            taken: Vec::new(alloc),
            filled: Rest {
                runs: Vec::new(alloc),
                count: 0,
            },
        }
    }

    /// The list in which no macro is left, put into `out` in place of what it has. Each step
    /// replaces the leftmost macro, with its arguments, by its body (The TeXbook, chapter 20), of
    /// which each item is put as the tables put it.
    ///
    /// # Errors
    ///
    /// Those of [`crate::expand`]. Where a macro lacks an argument, `out` has the items before the
    /// macro and the macro. What is in it after another error is not said.
    pub fn expand<T: Drop, B: Bodies<T>>(
        &mut self,
        tables: &B,
        list: &[T],
        out: &mut Vec<T>,
    ) -> Result<(), ExpandError>
        ensures is { StopsAs result (map (B.token tables.now) out.new.items)
            (placed_expansion (B.placed tables.now) (B.macros tables.now)
            (map (B.token tables.now) list.now)) }
        ensures memory { result ≡ Err OutOfMemory
            → (length list.now ≤ max_tokens)
            × (first_unmatched 0 (map (B.token tables.now) list.now) ≡ None) }
    {
        if list.len() > MAX_TOKENS {
            return Err(ExpandError::TooLong);
        }
        if let Some(index) = first_unmatched(tables, list) {
            return Err(ExpandError::Unbalanced(index as u32));
        }
        self.expand_matched(tables, list, out)
    }

    /// The same of a list in which each brace has its partner.
    ///
    /// # Errors
    ///
    /// Those of [`Expander::expand`].
    pub fn expand_matched<T: Drop, B: Bodies<T>>(
        &mut self,
        tables: &B,
        list: &[T],
        out: &mut Vec<T>,
    ) -> Result<(), ExpandError>
        requires { first_unmatched 0 (map (B.token tables.now) list.now) ≡ None }
        ensures is { StopsAs result (map (B.token tables.now) out.new.items)
            (placed_expansion (B.placed tables.now) (B.macros tables.now)
            (map (B.token tables.now) list.now)) }
        ensures memory { result ≡ Err OutOfMemory → length list.now ≤ max_tokens }
    {
        if list.len() > MAX_TOKENS {
            return Err(ExpandError::TooLong);
        }
        let ends = known_ends(self.alloc, tables, list)?;
        self.run_steps(tables, list, ends.as_slice(), out)
    }

    // The tokens that the steps leave.
    fn run_steps<T: Drop, B: Bodies<T>>(
        &mut self,
        tables: &B,
        list: &[T],
        ends: &[u32],
        out: &mut Vec<T>,
    ) -> Result<(), ExpandError>
        requires short { length list.now ≤ max_tokens }
        requires ends { AreEnds (map (B.token tables.now) list.now) ends.now }
        ensures { StopsAs result (map (B.token tables.now) out.new.items)
            (placed_run (B.placed tables.now) (B.macros tables.now) max_steps 0
            (map (B.token tables.now) list.now)) }
    {
        out.clear();
        out.reserve(list.len())?;
        start(tables, list, &mut self.parts, &mut self.rest)?;
        let mut steps = 0;
        while let Some(next) = next_macro(
            tables,
            self.alloc,
            list,
            &self.parts,
            &mut self.rest,
            out,
        )? {
            if steps == MAX_STEPS {
                let length = (out.len() + self.rest.count + 1) as u64;
                return Err(ExpandError::Budget { steps, length });
            }
            steps += 1;
            let called = Called {
                number: next.found.body,
                call: next.call,
            };
            match self.replace(tables, list, ends, next.found.params, called, out.len())? {
                Replacement::NoArgument => {
                    let index = out.len() as u32;
                    push_again(tables, self.alloc, next.item, &next.origin, out)?;
                    return Err(ExpandError::MissingArgument(index));
                }
                Replacement::TooLong(length) => return Err(ExpandError::Budget { steps, length }),
                Replacement::Done => {}
            }
        }
        Ok(())
    }

    // Puts the macro's body, with its arguments, before the rest, if these and what is passed are
    // not too many tokens.
    fn replace<T, B: Bodies<T>>(
        &mut self,
        tables: &B,
        list: &[T],
        ends: &[u32],
        params: u8,
        called: Called,
        passed: usize,
    ) -> Result<Replacement, AllocError>
        requires ends { AreEnds (map (B.token tables.now) list.now) ends.now }
        requires left { AreLeft (sources (B.token tables.now) (B.placed tables.now) (B.body tables.now) list.now)
            self.old.parts.runs.items self.old.rest }
        requires short { passed + length (left_of (sources (B.token tables.now) (B.placed tables.now) (B.body tables.now)
            list.now) self.old.parts.runs.items self.old.rest) ≤ max_tokens }
        requires call { called.call < length list.now }
        ensures { IfOk result (λ r. Replaces passed r params
            (called_body (B.placed tables.now) (map (B.token tables.now) list.now)
            (B.body tables.now) called)
            (left_of (sources (B.token tables.now) (B.placed tables.now) (B.body tables.now) list.now)
            self.old.parts.runs.items self.old.rest)
            (sources (B.token tables.now) (B.placed tables.now) (B.body tables.now) list.now) self.new.parts.runs.items
            self.new.rest) }
    {
        let all = take_arguments(
            tables,
            list,
            ends,
            &mut self.parts,
            &mut self.rest,
            params,
            &mut self.taken,
        )?;
        if !all {
            return Ok(Replacement::NoArgument);
        }
        fill(
            tables,
            list,
            &self.parts,
            called,
            self.taken.as_slice(),
            &mut self.filled,
        )?;
        let length = (passed + self.rest.count) as u64 + self.filled.count as u64;
        if length > MAX_TOKENS as u64 {
            return Ok(Replacement::TooLong(length));
        }
        put_filled(tables, list, &self.parts, &mut self.filled, &mut self.rest)?;
        bound_parts(
            tables,
            list,
            &mut self.parts,
            &mut self.rest,
            &mut self.filled,
        )?;
        Ok(Replacement::Done)
    }
}

// No parts, and the list given is left.
fn start<T, B: Bodies<T>>(
    tables: &B,
    list: &[T],
    parts: &mut Parts,
    rest: &mut Rest,
) -> Result<(), AllocError>
    ensures left { OnOk result (AreLeft (sources (B.token tables.now) (B.placed tables.now) (B.body tables.now) list.now)
        parts.new.runs.items rest.new) }
    ensures is { OnOk result (left_of (sources (B.token tables.now) (B.placed tables.now) (B.body tables.now) list.now)
        parts.new.runs.items rest.new ≡ map (B.token tables.now) list.now) }
{
    parts.runs.clear();
    rest.runs.clear();
    rest.count = list.len();
    if !list.is_empty() {
        rest.runs.push(Run {
            place: Place::Given,
            start: 0,
            end: list.len(),
        })?;
    }
    Ok(())
}
