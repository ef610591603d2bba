//! The compiler of templates: from a text to its tokens, to the tree of its nodes, to the names that it
//! uses, and to the instructions of the virtual machine. This crate holds no code of its own: it gathers
//! the compiler's crates under one name.
//!
//! # A first example
//!
//! ```text
//! let syntax = SyntaxConfig::new();
//! let tree = parse(alloc, "Hello {{ name }}!", "hello.txt", syntax)?;
//! let compiled = CompiledTemplate::new(alloc, "hello.txt", "Hello {{ name }}!", &TemplateConfig::new())?;
//! let code = compiled.instructions();
//! ```
//!
//! The tree is one of `ast::Stmt::Template` with three statements, and the code is `EmitRaw("Hello ")`,
//! `Lookup("name")`, `Emit`, `EmitRaw("!")`.
//!
//! # The main calls
//!
//! - [`SyntaxConfig::builder`] takes other delimiters, and prefixes of line statements and comments;
//!   [`SyntaxConfigBuilder::build`] refuses exactly those that are empty or cannot be told apart.
//! - A [`Tokenizer`] gives the tokens of a source, one after another; a [`TokenStream`] looks one ahead.
//!   [`read_expression_tokens`] reads those of an expression's source into [`ExpressionTokens`], which
//!   [`ExpressionTokens::take`] gives one by one, each with its place; [`error_of`] makes an error of its [`Refusal`].
//! - [`parse`] accepts exactly the texts that have a tree in the grammar, and gives that tree;
//!   [`parse_expr`] does so for an expression. The nodes stand in [`ast`]; they borrow their texts from the
//!   source, and each knows its [`ast::Span`].
//!   [`Parser`] does both for one source, and keeps a refusal.
//! - [`find_undeclared`] gives the names that a tree uses, which a context may be asked for;
//!   [`add_undeclared`] adds them to a set. [`find_macro_closure`] gives those that a macro encloses.
//!   [`units`] lists what of a template is gone over by itself, the template, each block and each recursive loop, and
//!   [`used_names`] gives the names that such a [`Unit`] uses.
//! - [`compile_template`] puts the code of a tree behind what stands in [`Instructions`], [`compile_expr`]
//!   that of an expression. [`number_names`] numbers the filters and tests that it names. [`CompiledTemplate::new`] and
//!   [`CompiledExpression::new`] do all of it: from a text to its code, and a template's blocks too, each a
//!   [`CompiledBlock`]. A [`CodeGenerator`] adds instructions one by one, with their lines and the jumps of blocks.
//! - [`get_referenced_names`] gives the names that instructions before a place look up or store.
//!
//! # What is proved
//!
//! Contracts speak of definitions that no code slows down: the tokens of a text, the grammar, the tree, the
//! walk of a tree (a process that takes priced steps and asks its surroundings), and the step table of the
//! instructions. [`one_token`] says that at each place stands one token or fault, [`one_template`] and
//! [`is_decided`] that tokens have one tree or none, [`templates_run`] and [`expressions_run`] that what is read has a walk,
//! [`templates_perform`] and [`expressions_perform`] that
//! the code of every tree does exactly what the tree's walk does, whatever is answered, [`macros_perform`] and
//! [`rounds_perform`] that so do the bodies of its macros and the rounds of its loops that may be called again,
//! [`numbers_run_alike`] that it does the same once its names are numbered, and [`one_tree`] and
//! [`one_standalone_tree`] which tree an accepted source has.
#![tactic(auto)]

pub mod ast;

pub use template_compiled::{
    CompiledBlock, CompiledExpression, CompiledTemplate, CompiledTemplates, TemplateConfig,
    one_standalone_tree, one_tree, plain_text,
};
pub use template_compiler_code::{
    CaptureMode, CompareOp, Instruction, Instructions, LOOP_FLAG_RECURSIVE,
    LOOP_FLAG_WITH_LOOP_VAR, LocalId, MACRO_CALLER, MAX_LOCALS, buffer_size_hint, code_rises,
    get_referenced_names,
};
pub use template_compiler_codegen::{
    expressions_perform, macros_perform, rounds_perform, templates_perform,
};
pub use template_compiler_folding::{as_const, fold_list, fold_map, fold_tuple};
pub use template_compiler_generator::{
    CodeGenerator, blocks_generate, number_names, numbers_run_alike,
};
pub use template_compiler_grammar::template_laws::{is_decided, one_template, reads_the_grammar};
pub use template_compiler_laws::{expressions_run, templates_run};
pub use template_compiler_names_closures::{Unit, find_macro_closure, units, used_names};
pub use template_compiler_names_statements::{add_undeclared, find_undeclared, first_segments};
pub use template_compiler_sources::{Parser, error_of, parse, parse_expr, read_expression_tokens};
pub use template_compiler_statement_codegen::{compile_expr, compile_template};
pub use template_compiler_stream::{Fault, First, Refusal, TokenStream as ExpressionTokens};
pub use template_compiler_syntax::{StartMarker, SyntaxConfig, SyntaxConfigBuilder};
pub use template_compiler_tokenizer::{TokenStream, Tokenizer};
pub use template_compiler_tokens::{Token, Tokens, one_token};
pub use template_values_errors::{Error, ErrorKind};
