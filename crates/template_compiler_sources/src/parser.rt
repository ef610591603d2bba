//! A parser of one source.
use crate::expression::parse_expr;
use crate::source::parse;
use std::alloc::Global;
use template_compiler_syntax::SyntaxConfig;
use template_compiler_tree::Expr;
use template_compiler_tree_statements::Stmt;
use template_values_errors::{Error, ErrorKind};

/// A parser of a source, which is read as a template or as an expression that stands alone. From a refusal on it
/// answers that refusal's kind.
#[derive(Drop)]
pub struct Parser<'source> {
    alloc: Global,
    source: &'source str,
    filename: &'source str,
    syntax: SyntaxConfig,
    refused: Option<ErrorKind>,
}

impl<'source> Parser<'source> {
    ghost use Rattle.std.specs.Prelude.{◌≡◌, ◌∷◌, [], None, IfOk, IfErr, IsOk, MatchOption, Err};
    ghost use Rattle.template_compiler_grammar.specs.Views.{node_of, statement_node_of};
    ghost use Rattle.template_compiler_tree.specs.View.{expression_of};
    ghost use Rattle.template_compiler_tree_statements.specs.View.{statement_of};
    ghost use Rattle.template_compiler_sources.specs.Source.{IsExpressionSource, IsPlacedExpressionSource, IsPlacedSource, IsSource, RefusesExpression, RefusesSource};
    ghost use Rattle.template_compiler_sources.specs.Parsers.{IsSameText, filename_of, refused_of, source_of, syntax_of};

    /// A parser of a source under a syntax. The file name is for messages alone.
    pub fn new(
        alloc: Global,
        source: &'source str,
        filename: &'source str,
        syntax: SyntaxConfig,
    ) -> Parser<'source>
        ensures source { source_of result ≡ source.now }
        ensures filename { filename_of result ≡ filename.now }
        ensures syntax { syntax_of result ≡ syntax }
        ensures fresh { refused_of result ≡ None }
    {
        Parser {
            alloc,
            source,
            filename,
            syntax,
            refused: None,
        }
    }

    /// The name of the file that the source is of.
    pub fn filename(&self) -> &'source str
        ensures { result.now ≡ filename_of self.now }
    {
        self.filename
    }

    /// The tree of the source as a template, in linear time.
    ///
    /// # Errors
    ///
    /// Those of [`parse`](crate::parse), and from then on the same kind.
    pub fn parse(&mut self) -> Result<Stmt<'source>, Error>
        ensures found { IfOk result (λ tree. IsSource (syntax_of self.old) (source_of self.old) (statement_of tree)) }
        ensures places { IfOk result (λ tree. IsPlacedSource (syntax_of self.old) (source_of self.old) (statement_node_of tree)) }
        ensures refused { refused_of self.old ≡ None → IfErr result (RefusesSource (syntax_of self.old) (source_of self.old)) }
        ensures again { MatchOption (refused_of self.old) (Unit {0}) (λ kind. result ≡ Err (kind ∷ [])) }
        ensures kept { MatchOption (refused_of self.new) (IsOk result) (λ kind. result ≡ Err (kind ∷ [])) }
        ensures same { IsSameText self.old self.new }
    {
        if let Some(kind) = self.refused {
            return Err(Error::new(kind));
        }
        let tree = self.template();
        if let Err(error) = &tree {
            self.refused = Some(error.kind());
        }
        tree
    }

    /// The tree of the source as an expression, in linear time.
    ///
    /// # Errors
    ///
    /// Those of [`parse_expr`](crate::parse_expr), and from then on the same kind.
    pub fn parse_standalone_expr(&mut self) -> Result<Expr<'source>, Error>
        ensures found { IfOk result (λ tree. IsExpressionSource (source_of self.old) (expression_of tree)) }
        ensures places { IfOk result (λ tree. IsPlacedExpressionSource (source_of self.old) (node_of tree)) }
        ensures refused { refused_of self.old ≡ None → IfErr result (RefusesExpression (source_of self.old)) }
        ensures again { MatchOption (refused_of self.old) (Unit {0}) (λ kind. result ≡ Err (kind ∷ [])) }
        ensures kept { MatchOption (refused_of self.new) (IsOk result) (λ kind. result ≡ Err (kind ∷ [])) }
        ensures same { IsSameText self.old self.new }
    {
        if let Some(kind) = self.refused {
            return Err(Error::new(kind));
        }
        let tree = parse_expr(self.alloc, self.source);
        if let Err(error) = &tree {
            self.refused = Some(error.kind());
        }
        tree
    }

    // The tree of the source as a template, each time anew.
    fn template(&self) -> Result<Stmt<'source>, Error>
        ensures found { IfOk result (λ tree. IsSource (syntax_of self.now) (source_of self.now) (statement_of tree)) }
        ensures places { IfOk result (λ tree. IsPlacedSource (syntax_of self.now) (source_of self.now) (statement_node_of tree)) }
        ensures refused { IfErr result (RefusesSource (syntax_of self.now) (source_of self.now)) }
    {
        parse(self.alloc, self.source, self.filename, self.syntax.clone()?)
    }
}
