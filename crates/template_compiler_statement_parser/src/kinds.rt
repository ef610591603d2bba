//! Statements with a body and statements without one.
ghost use Rattle.std.specs.Prelude.{◌≡◌};
ghost use Rattle.template_compiler_statement_makers.specs.Surroundings.{around_of, opening_of};
ghost use Rattle.template_compiler_statement_parser.specs.Bodies.{ParsedStatement};
ghost use Rattle.template_compiler_statement_parser.specs.Kinds.{kind_opening, leaf_opening};
ghost use Rattle.template_compiler_grammar.specs.TemplateReader.{here, opened_by};
ghost use Rattle.template_compiler_stream.specs.Spans.{KeepsSpans};

use std::alloc::Global;
use template_compiler_statement_heads as leaves;
use template_compiler_statement_makers::{Around, Opening};
use template_compiler_statement_parts::ReadsExpressions;
use template_compiler_stream::{Refusal, TokenStream};
use template_compiler_tree::Span;
use template_compiler_tree_statements::Stmt;

/// A statement without a body, by the word that begins it.
#[derive(Clone, Copy)]
pub(crate) enum Leaf {
    Import,
    From,
    Extends,
    Include,
    Do,
    Break,
    Continue,
}

/// Another statement that has a body or may have one, by the word that begins it.
#[derive(Clone, Copy)]
pub(crate) enum Parent {
    With,
    Set,
    AutoEscape,
    Filter,
    Block,
    Macro,
    Call,
}

/// What a word begins.
#[derive(Clone, Copy)]
pub(crate) enum Kind {
    Loop,
    Condition,
    Leaf(Leaf),
    Parent(Parent),
}

/// The kind of what a word begins.
#[inline]
pub(crate) fn kind_of(opening: Opening) -> Kind
    ensures { kind_opening result ≡ opening_of opening }
{
    match opening {
        Opening::For => Kind::Loop,
        Opening::If => Kind::Condition,
        Opening::With => Kind::Parent(Parent::With),
        Opening::Set => Kind::Parent(Parent::Set),
        Opening::AutoEscape => Kind::Parent(Parent::AutoEscape),
        Opening::Filter => Kind::Parent(Parent::Filter),
        Opening::Block => Kind::Parent(Parent::Block),
        Opening::Import => Kind::Leaf(Leaf::Import),
        Opening::From => Kind::Leaf(Leaf::From),
        Opening::Extends => Kind::Leaf(Leaf::Extends),
        Opening::Include => Kind::Leaf(Leaf::Include),
        Opening::Macro => Kind::Parent(Parent::Macro),
        Opening::Call => Kind::Parent(Parent::Call),
        Opening::Do => Kind::Leaf(Leaf::Do),
        Opening::Break => Kind::Leaf(Leaf::Break),
        Opening::Continue => Kind::Leaf(Leaf::Continue),
    }
}

/// A statement without a body, behind the word that begins it.
#[tactic(auto, unfolding(template_compiler_grammar::specs::TemplateReader::opened_by, template_compiler_grammar::specs::TemplateReader::in_loop))]
pub(crate) fn read_leaf<'source, R: ReadsExpressions>(
    alloc: Global,
    tokens: &mut TokenStream<'source>,
    left: u32,
    around: Around,
    leaf: Leaf,
    span: Span,
) -> Result<Stmt<'source>, Refusal>
    ensures parsed { let table = tokens.old.spans in
        ParsedStatement (opened_by table (here table left) (around_of around) (leaf_opening leaf) span tokens.old.left)
        tokens.new.left result }
    ensures spans { KeepsSpans tokens.old tokens.new }
{
    match leaf {
        Leaf::Import => Ok(Stmt::Import(leaves::read_import::<R>(alloc, tokens, left, span)?)),
        Leaf::From => Ok(Stmt::FromImport(leaves::read_from::<R>(alloc, tokens, left, span)?)),
        Leaf::Extends => Ok(Stmt::Extends(leaves::read_extends::<R>(alloc, tokens, left, span)?)),
        Leaf::Include => Ok(Stmt::Include(leaves::read_include::<R>(alloc, tokens, left, span)?)),
        Leaf::Do => Ok(Stmt::Do(leaves::read_do::<R>(alloc, tokens, left, span)?)),
        Leaf::Break => Ok(Stmt::Break(leaves::read_break(tokens, around.in_loop, span)?)),
        Leaf::Continue => Ok(Stmt::Continue(leaves::read_continue(tokens, around.in_loop, span)?)),
    }
}
