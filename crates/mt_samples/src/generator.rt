//! A source of formulas, made from a seed.
ghost use Rattle.std.specs.Prelude.{◌≡◌, ◌<◌, ◌≤◌, ◌*◌, ◌++◌, length, IfOk, OnOk};
ghost use Rattle.mt_samples.specs.Limits.{max_count};
ghost use Rattle.mt_samples.specs.Generator.{byte_for, drawn, formula, formula_end, generated, next_state, state_after, state_after_all, state_after_formula, template, with_letters};

use mt_scaled::Bytes;
use std::alloc::{AllocError, Global};

/// The most formulas of a generated source.
pub const MAX_COUNT: u32 = 20_000;

// The constants of Knuth's MMIX (The Art of Computer Programming, section 3.3.4).
const MULTIPLIER: u64 = 6364136223846793005;

const INCREMENT: u64 = 1442695040888963407;

// So many formulas are on a page.
const FORMULAS_OF_A_PAGE: u32 = 20;

// In a template each `@` stands for a letter.
#[tactic(auto, unfolding(crate::specs::Generator::template))]
fn template(n: u64) -> &'static str
    requires { n < 5 }
    ensures { result.now ≡ template n }
{
    match n {
        0 => "$@+@=@$",
        1 => "$@_@^2-@_@^3$",
        2 => "$$\\sum_@^@{@\\over @+@}$$",
        3 => "$$\\left({@^2\\over @}\\right)\\sqrt{@+1}$$",
        _ => "$\\hat @^2\\mathchoice{@}{@}{@}{@}$",
    }
}

// A linear congruential generator modulo 2^64.
#[derive(Debug, Drop)]
struct Generator {
    state: u64,
}

impl Generator {
    // A number below k, from the state's upper 31 bits.
    fn draw_below(&mut self, k: u64) -> u64
        requires { 0 < k }
        ensures state { self.new.state ≡ next_state self.old.state }
        ensures is { result ≡ drawn k self.new.state }
        ensures below { result < k }
    {
        self.state = self.state.wrapping_mul(MULTIPLIER).wrapping_add(INCREMENT);
        (self.state >> 33) % k
    }

    // A letter for `@`, and any other byte itself.
    fn byte_for(&mut self, c: u8) -> u8
        ensures state { self.new.state ≡ state_after c self.old.state }
        ensures is { result ≡ byte_for c self.old.state }
    {
        if c == b'@' {
            b'a' + self.draw_below(26) as u8
        } else {
            c
        }
    }

    // Writes a template, with a letter for each `@` from the left.
    fn fill(&mut self, out: &mut Vec<u8>, template: &[u8]) -> Result<(), AllocError>
        ensures state { OnOk result (self.new.state ≡ state_after_all template.now self.old.state) }
        ensures writes { OnOk result (out.new.items ≡ out.old.items
            ++ with_letters template.now self.old.state) }
    {
        for c in template {
            out.push(self.byte_for(*c))?;
        }
        Ok(())
    }

    #[tactic(auto, unfolding(crate::specs::Generator::formula, crate::specs::Generator::state_after_formula))]
    fn write_formula(&mut self, out: &mut Vec<u8>) -> Result<(), AllocError>
        ensures state { OnOk result (self.new.state ≡ state_after_formula self.old.state) }
        ensures writes { OnOk result (out.new.items ≡ out.old.items ++ formula self.old.state) }
    {
        let template = template(self.draw_below(5));
        self.fill(out, template.as_bytes())
    }
}

// Ends the line of formula n, and after every 20th the page.
fn end_line(out: &mut Vec<u8>, n: u32) -> Result<(), AllocError>
    ensures { OnOk result (out.new.items ≡ out.old.items ++ formula_end n) }
{
    out.push(b'\n')?;
    if n % FORMULAS_OF_A_PAGE == 0 {
        out.extend_from_slice(b"\\eject\n")?;
    }
    Ok(())
}

/// A source of so many formulas, which the seed determines (docs/FORMATS.md has the rule). Each formula
/// is one of five templates with letters that are drawn, in a line of its own; after every 20th a line
/// `\eject` ends the page. The source has at most 47 bytes for each formula.
///
/// `count` is at most [`MAX_COUNT`].
///
/// # Errors
///
/// Only where there is no memory left.
pub fn generate(alloc: Global, seed: u64, count: u32) -> Result<Bytes, AllocError>
    requires { count ≤ max_count }
    ensures is { IfOk result (λ bytes. bytes ≡ generated seed count) }
    ensures short { IfOk result (λ bytes. length bytes ≤ 47 * count) }
{
    let mut generator = Generator { state: seed };
    let mut out = Vec::new(alloc);
    for before in 0..count {
        generator.write_formula(&mut out)?;
        end_line(&mut out, before + 1)?;
    }
    Ok(Bytes::from_vec(out))
}
