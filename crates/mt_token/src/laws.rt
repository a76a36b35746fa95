//! What holds of all sources.
ghost use Rattle.std.specs.Prelude.{[], ◌+◌, ◌++◌, ◌∷◌, ◌≡◌, List, length, ℕ};
ghost use Rattle.mt_token.specs.LineCuts.{answer_later, lines_and};
ghost use Rattle.mt_token.specs.Tokens.{lex};
ghost use Rattle.mt_token.specs.declared.lexeme.State.TheVariants.{New};

/// The tokens of a source that is cut after the LF of a line are those of the lines and those of the rest, or the first
/// fault of the lines, or else that of the rest.
#[tactic(auto, using(crate::proofs::LineCutting::cut_after_line))]
pub fn tokens_of_lines_do_not_depend_on_the_rest()
    ensures { (lines rest : List ℕ) → lex New 0 0 (lines ++ 10 ∷ rest)
        ≡ lines_and (lex New 0 0 (lines ++ 10 ∷ [])) (answer_later (length lines + 1) (lex New 0 0 rest)) }
{}
