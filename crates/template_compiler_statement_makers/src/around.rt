//! What stands around a statement.
ghost use Rattle.std.specs.Prelude.{◌≡◌};
ghost use Rattle.template_compiler_statement_makers.specs.Surroundings.{around_of};
ghost use Rattle.template_compiler_grammar.specs.TemplateGrammar.{block_around, loop_around, macro_around, nothing_around};

/// What stands around a statement: a loop of the same body, a macro.
#[derive(Clone, Copy)]
pub struct Around {
    pub in_loop: bool,
    pub in_macro: bool,
}

impl Around {
    /// Nothing: the statements of a whole template.
    pub fn nothing() -> Around
        ensures { around_of result ≡ nothing_around }
    {
        Around {
            in_loop: false,
            in_macro: false,
        }
    }

    /// The body of a loop.
    pub fn within_loop(self) -> Around
        ensures { around_of result ≡ loop_around (around_of self) }
    {
        Around {
            in_loop: true,
            in_macro: self.in_macro,
        }
    }

    /// The body of a block.
    pub fn within_block(self) -> Around
        ensures { around_of result ≡ block_around (around_of self) }
    {
        Around {
            in_loop: false,
            in_macro: self.in_macro,
        }
    }

    /// The body of a macro.
    pub fn within_macro() -> Around
        ensures { around_of result ≡ macro_around }
    {
        Around {
            in_loop: false,
            in_macro: true,
        }
    }
}
