//! What macros enclose, and what the units of a template use.
use crate::report::Report;
use std::alloc::{AllocError, Global};
use std::collections::BTreeSet;
use template_compiler_names_closures::{Unit, find_macro_closure, units, used_names};
use template_compiler_tree_statements::{Macro, Stmt};
use template_values_errors::ErrorKind;

/// What the macros and the bodies of call blocks enclose that stand in the template's body, and in no other.
pub(crate) fn closures(alloc: Global, tree: &Stmt<'_>, out: &mut Report) {
    match tree {
        Stmt::Template(n) => closures_among(alloc, &n.node.children, out),
        _ => out.refuse(ErrorKind::SyntaxError),
    }
}

fn closures_among(alloc: Global, body: &[Stmt<'_>], out: &mut Report) {
    for statement in body {
        match statement {
            Stmt::Macro(n) => closure(alloc, &n.node, out),
            Stmt::CallBlock(n) => closure(alloc, &n.node.macro_decl.node, out),
            _ => {}
        }
    }
}

fn closure(alloc: Global, declared: &Macro<'_>, out: &mut Report) {
    write_group(declared.name, &find_macro_closure(alloc, declared), out)
}

/// The units of the template, each with the names that it uses.
pub(crate) fn write_units(alloc: Global, tree: &Stmt<'_>, out: &mut Report) {
    match &units(alloc, tree) {
        Ok(units) => write_all(alloc, units, out),
        Err(_refused) => out.refuse(ErrorKind::OutOfMemory),
    }
}

fn write_all(alloc: Global, units: &[Unit<'_, '_>], out: &mut Report) {
    for unit in units {
        write_group(head(unit), &used_names(alloc, unit), out)
    }
}

fn head(unit: &Unit<'_, '_>) -> &'static str {
    match unit {
        Unit::Template(_) => "template",
        Unit::Block(_) => "block",
        Unit::Loop(_) => "loop",
    }
}

fn write_group(head: &str, names: &Result<BTreeSet<String>, AllocError>, out: &mut Report) {
    match names {
        Ok(names) => out.names(head, names),
        Err(_refused) => out.refuse(ErrorKind::OutOfMemory),
    }
}
