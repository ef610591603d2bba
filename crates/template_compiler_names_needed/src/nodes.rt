//! The blocks among statements.
ghost use Rattle.std.specs.Prelude.{◌≡◌, ◌++◌, IfOk, refl};
ghost use Rattle.template_compiler_names_needed.specs.Seen.{is_entered, own_blocks, trees_in};
ghost use Rattle.template_compiler_tree_parts.specs.Kinds.{is_block};
ghost use Rattle.template_compiler_tree_parts.specs.Listed.{statements_in};
ghost use Rattle.template_compiler_tree_statements.specs.View.{statement_of};
ghost use Rattle.template_compiler_walk.specs.Blocks.{blocks_in};

use std::alloc::{AllocError, Global};
use template_compiler_tree_parts::{Picks, pick_among};
use template_compiler_tree_statements::{Block, Stmt};

// The blocks that stand in no macro.
struct BlockStatements;

impl Picks for BlockStatements {
    ghost enters = { is_entered };

    ghost picks = { is_block };

    fn enters(statement: &Stmt<'_>) -> bool {
        match statement {
            Stmt::Template(_) => false,
            Stmt::Macro(_) => false,
            Stmt::CallBlock(_) => false,
            _ => true,
        }
    }

    fn picks(statement: &Stmt<'_>) -> bool {
        matches!(statement, Stmt::Block(_))
    }

    ghost passes_text = { λ text. refl };

    ghost passes_print = { λ e. refl };
}

/// The blocks in statements, in order, those inside others too; none stands in a macro. Linear.
///
/// # Errors
///
/// Want of memory.
pub fn blocks<'ast, 'source>(
    alloc: Global,
    body: &'ast [Stmt<'source>],
) -> Result<Vec<&'ast Block<'source>>, AllocError>
    ensures { IfOk result (λ blocks. trees_in blocks.items ≡ blocks_in (statements_in body.now)) }
{
    let statements = pick_among::<BlockStatements>(alloc, body)?;
    let mut nodes = Vec::new(alloc);
    for i in 0..statements.len() {
        take_block(&mut nodes, statements[i])?;
    }
    Ok(nodes)
}

// The node of a block.
fn take_block<'ast, 'source>(
    nodes: &mut Vec<&'ast Block<'source>>,
    statement: &'ast Stmt<'source>,
) -> Result<(), AllocError>
    ensures { IfOk result (λ _. trees_in nodes.new.items ≡ trees_in nodes.old.items ++ own_blocks (statement_of statement.now)) }
{
    match statement {
        Stmt::Block(n) => {
            nodes.push(&n.node)?;
            Ok(())
        }
        _ => Ok(()),
    }
}
