//! Compiled expressions.
ghost use Rattle.std.specs.Prelude.{◌≡◌, ◌↔◌, ◌≤◌, ◌^◌, ℕ, List, length, IsTrue, IfOk, IfErr, IsErrAnd};
ghost use Rattle.std.specs.BTreeSet.{contains_text};
ghost use Rattle.std.specs.Cow.{cow_str_bytes};
ghost use Rattle.template_values_errors.specs.Memory.{NoMemory};
ghost use Rattle.template_values_errors.specs.declared.ErrorKind.{ErrorKind as Kind};
ghost use Rattle.template_values_errors.specs.declared.ErrorKind.TheVariants.{TooLarge};
ghost use Rattle.template_compiler_tree.specs.Tree.{Expression};
ghost use Rattle.template_compiler_tree.specs.View.{expression_of};
ghost use Rattle.template_compiler_code.specs.Listing.{code_in};
ghost use Rattle.template_compiler_emission.specs.Puts.{NoRoom};
ghost use Rattle.template_compiler_sources.specs.Source.{IsAlone, IsExpressionSource};
ghost use Rattle.template_compiler_names.specs.Names.{IsToldAlone};
ghost use Rattle.template_compiled.specs.Expressions.{AloneRuns, IsAcceptedExpression, IsExpressionRefusedWith, IsFaithfulExpression, code_alone, expression_in};

use crate::room::put_expr;
use std::alloc::Global;
use std::borrow::CowStr;
use std::collections::BTreeSet;
use std::marker::Model;
use template_compiler_code::Instructions;
use template_compiler_generator::number_names;
use template_compiler_names_statements::find_undeclared;
use template_compiler_sources::parse_expr;
use template_compiler_tree::{Expr, Span, Spanned};
use template_compiler_tree_statements::{EmitExpr, Stmt};
use template_values_errors::Error;

// The name of each expression.
const NAME: &str = "<expression>";

/// An expression whose source was accepted: its code. A contract sees the source.
pub struct CompiledExpression<'source> {
    instructions: Instructions<'source>,
}

// By hand, as the drop of a compiled template.
impl<'source> Drop for CompiledExpression<'source> {
    fn drop(self) {
        let CompiledExpression { instructions: _ } = self;
    }
}

impl<'source> Model for CompiledExpression<'source> {
    ghost use Rattle.std.specs.Prelude.{◌≡◌, ℕ, List};
    ghost use Rattle.template_compiler_code.specs.Listing.{code_in, source_in};
    ghost use Rattle.template_compiled.specs.Expressions.{IsFaithfulExpression, code_alone};

    ghost Value = { List ℕ };

    ghost view = { λ e. source_in e.instructions };

    ghost invariant = { λ e. IsFaithfulExpression (source_in e.instructions)
        × (code_in e.instructions ≡ code_alone (source_in e.instructions)) };
}

impl<'source> CompiledExpression<'source> {
    /// Compiles the source of an expression, in time linear in its length, besides what the operators of constant trees
    /// cost.
    ///
    /// # Errors
    ///
    /// Those of [`parse_expr`]; [`ErrorKind::OutOfMemory`], also where the code would have 2^32 instructions, which that of
    /// a source of fewer than 2^24 bytes never has.
    pub fn new(alloc: Global, source: &'source str) -> Result<CompiledExpression<'source>, Error>
        ensures source { IfOk result (λ e. e ≡ source.now) }
        ensures faithful { IfOk result IsFaithfulExpression }
        ensures refused { IfErr result (IsExpressionRefusedWith source.now) }
        ensures too_large { 2 ^ 32 ≤ length source.now → IsErrAnd result (IsAlone TooLarge) }
    {
        let tree = parse_expr(alloc, source)?;
        let mut instructions = Instructions::new(alloc, NAME, source);
        put_expr(alloc, &mut instructions, &tree)?;
        number_names(alloc, &mut instructions)?;
        instructions.shrink_to_fit();
        Ok(CompiledExpression { instructions })
    }

    /// The same of a source that need not outlive it: it keeps a copy.
    ///
    /// # Errors
    ///
    /// As [`CompiledExpression::new`].
    pub fn from_owned(
        alloc: Global,
        source: CowStr<'_>,
    ) -> Result<CompiledExpression<'source>, Error>
        ensures source { IfOk result (λ e. e ≡ cow_str_bytes source.entry) }
        ensures faithful { IfOk result IsFaithfulExpression }
        ensures refused { IfErr result (IsExpressionRefusedWith (cow_str_bytes source.entry)) }
        ensures too_large { 2 ^ 32 ≤ length (cow_str_bytes source.entry) → IsErrAnd result (IsAlone TooLarge) }
    {
        let borrowed = CompiledExpression::new(alloc, source.as_str())?;
        Ok(borrowed.into_owned(alloc)?)
    }

    /// The same expression with texts of its own, which are copied where they were borrowed. Takes time and memory linear
    /// in its source and its code.
    ///
    /// # Errors
    ///
    /// [`ErrorKind::OutOfMemory`].
    pub fn into_owned<'owned>(self, alloc: Global) -> Result<CompiledExpression<'owned>, Error>
        ensures same { IfOk result (λ e. e ≡ self.entry) }
        ensures refused { IfErr result NoMemory }
    {
        let CompiledExpression { instructions } = self;
        Ok(CompiledExpression {
            instructions: instructions.into_owned(alloc)?,
        })
    }

    /// The expression's source.
    pub fn source(&self) -> &str
        ensures { result.now ≡ self.now }
    {
        self.instructions.source()
    }

    /// The tree of the expression's source, which is read once more, in time linear in its length.
    ///
    /// # Errors
    ///
    /// [`ErrorKind::OutOfMemory`].
    pub fn tree(&self, alloc: Global) -> Result<Expr<'_>, Error>
        ensures tree { IfOk result (λ tree. expression_of tree ≡ expression_in self.now) }
        ensures refused { IfErr result NoMemory }
    {
        parse_expr(alloc, self.instructions.source())
    }

    /// The names that the expression uses, each once, by order of their bytes; where `nested`, each with the dotted
    /// names that stand directly behind it. Reads the source once more, in time linear in its length, and takes a
    /// look-up for each place of use.
    ///
    /// # Errors
    ///
    /// [`ErrorKind::OutOfMemory`].
    pub fn undeclared(&self, alloc: Global, nested: bool) -> Result<BTreeSet<String>, Error>
        ensures told { IfOk result (λ names. (text : List ℕ) → IsTrue (contains_text names text)
            ↔ IsToldAlone nested text (expression_in self.now)) }
        ensures refused { IfErr result NoMemory }
    {
        // A template that prints the expression uses the same names.
        let expr = self.tree(alloc)?;
        let print = Stmt::EmitExpr(Spanned::new(EmitExpr { expr }, Span::default()));
        Ok(find_undeclared(alloc, &print, nested)?)
    }

    /// The expression's code.
    pub fn instructions(&self) -> &Instructions<'source>
        ensures code { code_in result.now ≡ code_alone self.now }
        ensures faithful { IsFaithfulExpression self.now }
    {
        &self.instructions
    }
}

/// A law, as the contract of a function that does nothing: the expression that a source is, is the one that it is read
/// to.
pub fn one_standalone_tree()
    ensures { (source : List ℕ) (e : Expression) → IsExpressionSource source e → expression_in source ≡ e }
{}

/// A law: every expression that a source is read to has a walk.
pub fn standalone_trees_run()
    ensures { AloneRuns }
{}

/// A law: the same of an expression's refusals as [`one_refusal`](crate::one_refusal) says of a template's.
pub fn one_standalone_refusal()
    ensures one { (source : List ℕ) (kinds others : List Kind) → IsExpressionRefusedWith source kinds
        → IsExpressionRefusedWith source others → ¬ NoRoom kinds → ¬ NoRoom others → kinds ≡ others }
    ensures accepted { (source : List ℕ) (kinds : List Kind) → IsAcceptedExpression source
        → IsExpressionRefusedWith source kinds → ¬ NoRoom kinds → ⊥ }
{}
