//! What is asked of trees: the names that they use, what is generated of one, and what a constant one is.
ghost use Rattle.std.specs.Prelude.{IfOk};
ghost use Rattle.template_compiler_tree_statements.specs.View.{statement_of};
ghost use Rattle.template_compiler_generator.specs.Alone.{CanStand};

use crate::NAME;
use crate::checked::checked_template;
use crate::generated::generated;
use crate::report::Report;
use crate::unit_names::{closures, write_units};
use serde_json::{Map, Value as Json};
use std::alloc::Global;
use std::collections::BTreeSet;
use template_compiler_folding::as_const;
use template_compiler_names_statements::{add_undeclared, find_undeclared};
use template_compiler_sources::{parse, parse_expr};
use template_compiler_syntax::SyntaxConfig;
use template_compiler_tree::Expr;
use template_compiler_tree_statements::Stmt;
use template_values_errors::{Error, ErrorKind};

/// What is asked of the tree of a template: the names in it, or what a generator makes of it.
pub(crate) fn about_template<'line>(
    alloc: Global,
    source: &'line str,
    ask: &str,
    entries: &'line Map<String, Json>,
    out: &mut Report,
) {
    let read = parse(alloc, source, NAME, SyntaxConfig::new());
    about_read(alloc, &read, ask, entries, out)
}

fn about_read<'line>(
    alloc: Global,
    read: &Result<Stmt<'line>, Error>,
    ask: &str,
    entries: &'line Map<String, Json>,
    out: &mut Report,
)
    requires { IfOk read.now (λ tree. CanStand (statement_of tree)) }
{
    match read {
        Ok(tree) => about_tree(alloc, tree, ask, entries, out),
        Err(error) => out.refuse(error.kind()),
    }
}

fn about_tree<'line>(
    alloc: Global,
    tree: &Stmt<'line>,
    ask: &str,
    entries: &'line Map<String, Json>,
    out: &mut Report,
)
    requires { CanStand (statement_of tree.now) }
{
    match ask {
        "generated" => generated(alloc, tree, entries, out),
        "verified" => checked_template(alloc, tree, out),
        "names" => names(alloc, tree, false, out),
        "nested" => names(alloc, tree, true, out),
        "closures" => closures(alloc, tree, out),
        "units" => write_units(alloc, tree, out),
        _ => out.refuse(ErrorKind::SyntaxError),
    }
}

// The names that a template uses; where `nested`, each with the dotted names that stand directly behind it.
fn names(alloc: Global, tree: &Stmt<'_>, nested: bool, out: &mut Report) {
    match &find_undeclared(alloc, tree, nested) {
        Ok(names) => out.names("names", names),
        Err(_refused) => out.refuse(ErrorKind::OutOfMemory),
    }
}

/// The names that two templates use, put into one set.
pub(crate) fn names_of_both(alloc: Global, first: &str, second: &str, out: &mut Report) {
    let mut names = BTreeSet::new(alloc);
    add_names(alloc, &mut names, first, out);
    add_names(alloc, &mut names, second, out);
    out.names("names", &names)
}

fn add_names(alloc: Global, names: &mut BTreeSet<String>, source: &str, out: &mut Report) {
    let read = parse(alloc, source, NAME, SyntaxConfig::new());
    add_names_of(alloc, names, &read, out)
}

fn add_names_of(
    alloc: Global,
    names: &mut BTreeSet<String>,
    read: &Result<Stmt<'_>, Error>,
    out: &mut Report,
) {
    match read {
        Ok(tree) => {
            if add_undeclared(alloc, names, tree).is_err() {
                out.refuse(ErrorKind::OutOfMemory)
            }
        }
        Err(error) => out.refuse(error.kind()),
    }
}

/// The value of a constant expression, as it prints.
pub(crate) fn value(alloc: Global, source: &str, out: &mut Report) {
    let read = parse_expr(alloc, source);
    value_of_read(alloc, &read, out)
}

fn value_of_read(alloc: Global, read: &Result<Expr<'_>, Error>, out: &mut Report) {
    match read {
        Ok(expr) => value_of(alloc, expr, out),
        Err(error) => out.refuse(error.kind()),
    }
}

fn value_of(alloc: Global, expr: &Expr<'_>, out: &mut Report) {
    match &as_const(alloc, expr) {
        Ok(Some(value)) => out.value(value),
        Ok(None) => out.push('-'),
        Err(error) => out.refuse(error.kind()),
    }
}
