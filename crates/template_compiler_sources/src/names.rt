//! The names of the blocks among statements.
ghost use Rattle.std.specs.Prelude.{◌≡◌, ◌++◌, true, IfOk, refl};
ghost use Rattle.template_compiler_sources.specs.Own.{own_name};
ghost use Rattle.template_compiler_sources.specs.Waiting.{texts_in};
ghost use Rattle.template_compiler_statement_makers.specs.Listed.{statements_in};
ghost use Rattle.template_compiler_grammar.specs.TemplateTrees.{blocks_among};
ghost use Rattle.template_compiler_tree_parts.specs.Kinds.{is_block};
ghost use Rattle.template_compiler_tree_statements.specs.View.{statement_of};

use std::alloc::{AllocError, Global};
use template_compiler_tree_parts::{Picks, pick_among};
use template_compiler_tree_statements::Stmt;

// The blocks, wherever they stand.
struct Blocks;

impl Picks for Blocks {
    ghost enters = { λ statement. true };

    ghost picks = { is_block };

    fn enters(_statement: &Stmt<'_>) -> bool {
        true
    }

    fn picks(statement: &Stmt<'_>) -> bool {
        matches!(statement, Stmt::Block(_))
    }

    ghost passes_text = { λ text. refl };

    ghost passes_print = { λ e. refl };
}

/// The names of the blocks in statements, in order, those inside others too. Linear.
///
/// # Errors
///
/// Want of memory.
pub fn block_names<'source>(
    alloc: Global,
    body: &[Stmt<'source>],
) -> Result<Vec<&'source str>, AllocError>
    ensures { IfOk result (λ names. texts_in names.items ≡ blocks_among (statements_in body.now)) }
{
    let blocks = pick_among::<Blocks>(alloc, body)?;
    let mut names = Vec::new(alloc);
    for i in 0..blocks.len() {
        take_name(&mut names, blocks[i])?;
    }
    Ok(names)
}

// The name of a block.
fn take_name<'source>(
    names: &mut Vec<&'source str>,
    statement: &Stmt<'source>,
) -> Result<(), AllocError>
    ensures { IfOk result (λ _. texts_in names.new.items ≡ texts_in names.old.items ++ own_name (statement_of statement.now)) }
{
    match statement {
        Stmt::Block(n) => {
            names.push(n.node.name)?;
            Ok(())
        }
        _ => Ok(()),
    }
}
