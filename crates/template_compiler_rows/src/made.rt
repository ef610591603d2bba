//! Trees that are made by hand, in the words for them.
use crate::report::Report;
use std::alloc::{AllocError, Global};
use template_compiler_tree::{Expr, Span};
use template_compiler_tree_parts::spine;
use template_values_errors::ErrorKind;

/// What a tree is, where it was made.
pub(crate) fn write_description(made: &Result<Expr<'_>, AllocError>, out: &mut Report) {
    match made {
        Ok(tree) => out.push_str(tree.description()),
        Err(_refused) => out.refuse(ErrorKind::OutOfMemory),
    }
}

/// What a chain of so many attributes is, and how many nodes its descent has.
pub(crate) fn chain(alloc: Global, count: u64, out: &mut Report) {
    let chain = attributes(alloc, count);
    write_chain(alloc, &chain, out)
}

// `x.a.a.a`, with so many attributes.
fn attributes(alloc: Global, count: u64) -> Result<Expr<'static>, AllocError> {
    let mut chain = Expr::variable("x", Span::default());
    for _ in 0..count {
        chain = Expr::attribute(alloc, chain, "a", Span::default())?;
    }
    Ok(chain)
}

fn write_chain(alloc: Global, chain: &Result<Expr<'_>, AllocError>, out: &mut Report) {
    write_description(chain, out);
    if let Ok(chain) = chain {
        match &spine(alloc, chain) {
            Ok(nodes) => out.tell(" ", &nodes.len()),
            Err(_refused) => out.refuse(ErrorKind::OutOfMemory),
        }
    }
}
