//! The generator.
ghost use Rattle.std.specs.Prelude.{◌≡◌, ◌*◌, ◌↔◌, ◌∷◌, [], None, IfOk, IfErr, OnOk, OnErr, IsOk, IsSomeAnd, MatchOption, Err, IsTrue, length, reverse, drop, min, sum_by};
ghost use Rattle.template_values_errors.specs.Memory.{NoMemory};
ghost use Rattle.template_compiler_code.specs.Listing.{name_in, source_in, code_in, places_in, line_mark, TakesNoMore};
ghost use Rattle.template_compiler_code.specs.View.{code_of};
ghost use Rattle.template_compiler_code.specs.Texts.{raw_length};
ghost use Rattle.template_compiler_tree_statements.specs.View.{statement_of};
ghost use Rattle.template_compiler_tree.specs.View.{expression_of};
ghost use Rattle.template_compiler_walk.specs.Runnable.{IsRunnable, IsTarget};
ghost use Rattle.template_compiler_codegen.specs.Expressions.{expression_code};
ghost use Rattle.template_compiler_codegen.specs.Statements.{no_ways, statements_code, target_code};
ghost use Rattle.template_compiler_generator.specs.Alone.{CanStand, statements_of};
ghost use Rattle.template_compiler_emission.specs.Puts.{NoRoom};
ghost use Rattle.template_compiler_generator.specs.Numbers.{numbered_in};
ghost use Rattle.template_compiler_generator.specs.Drafts.{Generates, IsTooLong, MarksBehind, is_branch, is_choice, is_loop, jumps_of, leap_of, loop_flags, next_jump, span_on, with_block, with_blocks, with_choice, with_choice_end, with_chosen, with_code, with_code_from, with_else, with_end, with_if, with_jump, with_line, with_loop, with_loop_end, with_marked, with_span, with_told, without_span};
ghost use Rattle.template_compiler_generator.specs.View.{draft_of, open_of, refused_of};

use crate::alone::statements;
use crate::blocks::{Block, Jump};
use crate::number_names;
use std::alloc::Global;
use template_compiler_code::{
    Instruction, Instructions, LOOP_FLAG_RECURSIVE, LOOP_FLAG_WITH_LOOP_VAR, buffer_size_hint,
};
use template_compiler_emission::Leap;
use template_compiler_expression_codegen::compile_expr;
use template_compiler_statement_codegen::{compile_assignment, compile_statements};
use template_compiler_tree::{Expr, Span};
use template_compiler_tree_statements::Stmt;
use template_values_errors::{Error, ErrorKind};

/// Instructions that are generated one behind the other, with the blocks that are open, the current line, and the spans
/// that are open. From a refusal on it answers that refusal's kind, and gives no instructions.
#[derive(Drop)]
pub struct CodeGenerator<'source> {
    alloc: Global,
    code: Instructions<'source>,
    blocks: Vec<Block>,
    line: u16,
    spans: Vec<Span>,
    refused: Option<ErrorKind>,
}

impl<'source> CodeGenerator<'source> {
    /// Nothing is generated yet, for a template with a name and its source.
    pub fn new(alloc: Global, file: &'source str, source: &'source str) -> CodeGenerator<'source>
        ensures draft { draft_of result
            ≡ record { name = file.now; source = source.now; code = []; marks = []; blocks = []; line = 0; spans = [] } }
        ensures fresh { refused_of result ≡ None }
    {
        CodeGenerator {
            alloc,
            code: Instructions::new(alloc, file, source),
            blocks: Vec::new(alloc),
            line: 0,
            spans: Vec::new(alloc),
            refused: None,
        }
    }

    /// What is added from now on comes from a line.
    pub fn set_line(&mut self, line: u16)
        ensures draft { draft_of self.new ≡ with_line line (draft_of self.old) }
        ensures kept { refused_of self.new ≡ refused_of self.old }
    {
        self.line = line;
    }

    /// What is added from now on comes from the line that a span starts in.
    pub fn set_line_from_span(&mut self, span: Span)
        ensures draft { draft_of self.new ≡ with_line span.start_line (draft_of self.old) }
        ensures kept { refused_of self.new ≡ refused_of self.old }
    {
        self.set_line(span.start_line);
    }

    /// Opens a span, from whose line what is added from now on comes.
    ///
    /// # Errors
    ///
    /// [`ErrorKind::OutOfMemory`]; then all stays as it was, and the generator is of no further use.
    pub fn push_span(&mut self, span: Span) -> Result<(), Error>
        ensures opened { OnOk result (draft_of self.new ≡ with_span span (draft_of self.old)) }
        ensures refused { refused_of self.old ≡ None → IfErr result NoMemory }
        ensures again { MatchOption (refused_of self.old) (Unit {0}) (λ kind. result ≡ Err (kind ∷ [])) }
        ensures kept { MatchOption (refused_of self.new) (IsOk result) (λ kind. result ≡ Err (kind ∷ [])) }
        ensures unchanged { OnErr result (draft_of self.new ≡ draft_of self.old) }
    {
        self.go_on()?;
        match self.spans.push(span) {
            Ok(()) => {
                self.set_line_from_span(span);
                Ok(())
            }
            Err(_) => Err(self.refuse(Error::new(ErrorKind::OutOfMemory))),
        }
    }

    /// Closes the innermost open span, if there is one. The line stays.
    pub fn pop_span(&mut self)
        ensures draft { draft_of self.new ≡ without_span (draft_of self.old) }
        ensures kept { refused_of self.new ≡ refused_of self.old }
    {
        self.spans.pop();
    }

    /// Adds an instruction, and answers its place. It comes from the innermost open span, where that starts on the
    /// current line, and else from that line.
    ///
    /// # Errors
    ///
    /// Those of [`Instructions::add`]; then all stays as it was, and the generator is of no further use.
    pub fn add(&mut self, instruction: Instruction<'source>) -> Result<u32, Error>
        ensures place { IfOk result (λ place. place ≡ length (draft_of self.old).code) }
        ensures added { OnOk result (draft_of self.new ≡ with_code (code_of instruction.entry) (draft_of self.old)) }
        ensures refused { refused_of self.old ≡ None → IfErr result (TakesNoMore (draft_of self.old).code) }
        ensures again { MatchOption (refused_of self.old) (Unit {0}) (λ kind. result ≡ Err (kind ∷ [])) }
        ensures kept { MatchOption (refused_of self.new) (IsOk result) (λ kind. result ≡ Err (kind ∷ [])) }
        ensures unchanged { OnErr result (draft_of self.new ≡ draft_of self.old) }
    {
        match self.span() {
            Some(span) => self.add_with_span(instruction, span),
            None => self.add_with_line(instruction, self.line),
        }
    }

    /// The same for an instruction that comes from a span.
    ///
    /// # Errors
    ///
    /// As [`CodeGenerator::add`].
    pub fn add_with_span(
        &mut self,
        instruction: Instruction<'source>,
        span: Span,
    ) -> Result<u32, Error>
        ensures place { IfOk result (λ place. place ≡ length (draft_of self.old).code) }
        ensures added { OnOk result (draft_of self.new ≡ with_code_from span (code_of instruction.entry) (draft_of self.old)) }
        ensures refused { refused_of self.old ≡ None → IfErr result (TakesNoMore (draft_of self.old).code) }
        ensures again { MatchOption (refused_of self.old) (Unit {0}) (λ kind. result ≡ Err (kind ∷ [])) }
        ensures kept { MatchOption (refused_of self.new) (IsOk result) (λ kind. result ≡ Err (kind ∷ [])) }
        ensures unchanged { OnErr result (draft_of self.new ≡ draft_of self.old) }
    {
        self.go_on()?;
        match self.code.add_with_span(instruction, span) {
            Ok(place) => Ok(place),
            Err(error) => Err(self.refuse(error)),
        }
    }

    // The same for an instruction that comes from a line.
    fn add_with_line(&mut self, instruction: Instruction<'source>, line: u16) -> Result<u32, Error>
        ensures place { IfOk result (λ place. place ≡ length (draft_of self.old).code) }
        ensures added { OnOk result (draft_of self.new
            ≡ with_marked (code_of instruction.entry) (line_mark (length (draft_of self.old).code) line) (draft_of self.old)) }
        ensures refused { refused_of self.old ≡ None → IfErr result (TakesNoMore (draft_of self.old).code) }
        ensures again { MatchOption (refused_of self.old) (Unit {0}) (λ kind. result ≡ Err (kind ∷ [])) }
        ensures kept { MatchOption (refused_of self.new) (IsOk result) (λ kind. result ≡ Err (kind ∷ [])) }
        ensures unchanged { OnErr result (draft_of self.new ≡ draft_of self.old) }
    {
        self.go_on()?;
        match self.code.add_with_line(instruction, line) {
            Ok(place) => Ok(place),
            Err(error) => Err(self.refuse(error)),
        }
    }

    // A refusal that was met before is met again.
    fn go_on(&self) -> Result<(), Error>
        ensures { MatchOption (refused_of self.now) (IsOk result) (λ kind. result ≡ Err (kind ∷ [])) }
    {
        match self.refused {
            Some(kind) => Err(Error::new(kind)),
            None => Ok(()),
        }
    }

    // Keeps the kind of a refusal.
    fn refuse(&mut self, error: Error) -> Error
        requires { NoRoom error }
        ensures same { result ≡ error }
        ensures draft { draft_of self.new ≡ draft_of self.old }
        ensures kept { IsSomeAnd (refused_of self.new) (λ kind. result ≡ kind ∷ []) }
    {
        self.refused = Some(error.kind());
        error
    }

    // The innermost open span, where it starts on the current line.
    fn span(&self) -> Option<Span>
        ensures { result ≡ span_on (draft_of self.now).line (draft_of self.now).spans }
    {
        let span = *self.spans.as_slice().last()?;
        if span.start_line == self.line {
            Some(span)
        } else {
            None
        }
    }

    /// The place of the next instruction.
    pub fn next_instruction(&self) -> u32
        ensures { result ≡ length (draft_of self.now).code }
    {
        self.code.len() as u32
    }

    // Adds a jump that is told later where it leads.
    fn reserve(&mut self, leap: Leap) -> Result<Jump, Error>
        ensures jump { IfOk result (λ jump. jump ≡ next_jump leap (draft_of self.old)) }
        ensures added { OnOk result (draft_of self.new ≡ with_jump leap (draft_of self.old)) }
        ensures refused { refused_of self.old ≡ None → IfErr result (TakesNoMore (draft_of self.old).code) }
        ensures again { MatchOption (refused_of self.old) (Unit {0}) (λ kind. result ≡ Err (kind ∷ [])) }
        ensures kept { MatchOption (refused_of self.new) (IsOk result) (λ kind. result ≡ Err (kind ∷ [])) }
    {
        let place = self.add(leap.to(0))?;
        Ok(Jump { place, leap })
    }

    // Tells a jump that it leads behind the last instruction.
    fn tell(&mut self, jump: Jump)
        ensures draft { draft_of self.new ≡ with_told jump (draft_of self.old) }
        ensures kept { refused_of self.new ≡ refused_of self.old }
    {
        let target = self.next_instruction();
        self.code.replace(jump.place, jump.leap.to(target));
    }

    // Opens a block.
    fn enter(&mut self, block: Block) -> Result<(), Error>
        ensures entered { OnOk result (draft_of self.new ≡ with_block (open_of block) (draft_of self.old)) }
        ensures refused { refused_of self.old ≡ None → IfErr result NoMemory }
        ensures again { MatchOption (refused_of self.old) (Unit {0}) (λ kind. result ≡ Err (kind ∷ [])) }
        ensures kept { MatchOption (refused_of self.new) (IsOk result) (λ kind. result ≡ Err (kind ∷ [])) }
        ensures unchanged { OnErr result (draft_of self.new ≡ draft_of self.old) }
    {
        self.go_on()?;
        match self.blocks.push(block) {
            Ok(()) => Ok(()),
            Err(_) => Err(self.refuse(Error::new(ErrorKind::OutOfMemory))),
        }
    }

    /// Whether the innermost open block is a branch.
    pub fn is_in_branch(&self) -> bool
        ensures { result ≡ is_branch (draft_of self.now).blocks }
    {
        match self.blocks.as_slice().last() {
            Some(Block::Branch(_)) => true,
            Some(Block::Loop(_)) => false,
            Some(Block::Choice(_)) => false,
            None => false,
        }
    }

    /// Opens a branch, which is leapt over where the value on top, which is taken, is false.
    ///
    /// # Errors
    ///
    /// Those of [`Instructions::add`]; then the generator is of no further use.
    pub fn start_if(&mut self) -> Result<(), Error>
        ensures started { OnOk result (draft_of self.new ≡ with_if (draft_of self.old)) }
        ensures refused { refused_of self.old ≡ None → IfErr result (TakesNoMore (draft_of self.old).code) }
        ensures again { MatchOption (refused_of self.old) (Unit {0}) (λ kind. result ≡ Err (kind ∷ [])) }
        ensures kept { MatchOption (refused_of self.new) (IsOk result) (λ kind. result ≡ Err (kind ∷ [])) }
    {
        let jump = self.reserve(Leap::IfFalse)?;
        self.enter(Block::Branch(jump))
    }

    /// Closes the branch, and opens another one, which runs where that one was leapt over.
    ///
    /// # Errors
    ///
    /// Those of [`Instructions::add`]; then the generator is of no further use.
    pub fn start_else(&mut self) -> Result<(), Error>
        requires { IsTrue (is_branch (draft_of self.old).blocks) }
        ensures started { OnOk result (draft_of self.new ≡ with_else (draft_of self.old)) }
        ensures refused { refused_of self.old ≡ None → IfErr result (TakesNoMore (draft_of self.old).code) }
        ensures again { MatchOption (refused_of self.old) (Unit {0}) (λ kind. result ≡ Err (kind ∷ [])) }
        ensures kept { MatchOption (refused_of self.new) (IsOk result) (λ kind. result ≡ Err (kind ∷ [])) }
    {
        let jump = self.reserve(Leap::Always)?;
        self.end_if();
        self.enter(Block::Branch(jump))
    }

    /// Closes the branch: what leaps over it goes on here.
    pub fn end_if(&mut self)
        requires { IsTrue (is_branch (draft_of self.old).blocks) }
        ensures draft { draft_of self.new ≡ with_end (draft_of self.old) }
        ensures kept { refused_of self.new ≡ refused_of self.old }
    {
        match self.blocks.pop() {
            Some(Block::Branch(jump)) => self.tell(jump),
            Some(Block::Loop(_)) => unreachable!(),
            Some(Block::Choice(_)) => unreachable!(),
            None => unreachable!(),
        }
    }

    /// Whether the innermost open block is a loop.
    pub fn is_in_loop(&self) -> bool
        ensures { result ≡ is_loop (draft_of self.now).blocks }
    {
        match self.blocks.as_slice().last() {
            Some(Block::Loop(_)) => true,
            Some(Block::Branch(_)) => false,
            Some(Block::Choice(_)) => false,
            None => false,
        }
    }

    /// Opens a loop over the value on top, which is taken, with its variable or without it, and its rounds, each of which
    /// begins with the next item on top.
    ///
    /// # Errors
    ///
    /// As [`CodeGenerator::start_if`].
    pub fn start_for_loop(&mut self, with_loop_var: bool, recursive: bool) -> Result<(), Error>
        ensures started { OnOk result (draft_of self.new ≡ with_loop with_loop_var recursive (draft_of self.old)) }
        ensures refused { refused_of self.old ≡ None → IfErr result (IsTooLong (with_loop with_loop_var recursive (draft_of self.old))) }
        ensures again { MatchOption (refused_of self.old) (Unit {0}) (λ kind. result ≡ Err (kind ∷ [])) }
        ensures kept { MatchOption (refused_of self.new) (IsOk result) (λ kind. result ≡ Err (kind ∷ [])) }
    {
        self.add(Instruction::PushLoop(loop_flags(with_loop_var, recursive)))?;
        let asks = self.reserve(Leap::Iterate)?;
        self.enter(Block::Loop(asks.place))
    }

    /// Closes the rounds and the loop: behind the last item it goes on here, where wanted with whether there was none.
    ///
    /// # Errors
    ///
    /// As [`CodeGenerator::start_if`].
    pub fn end_for_loop(&mut self, push_did_not_iterate: bool) -> Result<(), Error>
        requires { IsTrue (is_loop (draft_of self.old).blocks) }
        ensures ended { OnOk result (draft_of self.new ≡ with_loop_end push_did_not_iterate (draft_of self.old)) }
        ensures refused { refused_of self.old ≡ None → IfErr result (IsTooLong (with_loop_end push_did_not_iterate (draft_of self.old))) }
        ensures again { MatchOption (refused_of self.old) (Unit {0}) (λ kind. result ≡ Err (kind ∷ [])) }
        ensures kept { MatchOption (refused_of self.new) (IsOk result) (λ kind. result ≡ Err (kind ∷ [])) }
    {
        let asks = match self.blocks.pop() {
            Some(Block::Loop(asks)) => asks,
            Some(Block::Branch(_)) => unreachable!(),
            Some(Block::Choice(_)) => unreachable!(),
            None => unreachable!(),
        };
        self.add(Leap::Always.to(asks))?;
        self.tell(Jump {
            place: asks,
            leap: Leap::Iterate,
        });
        if push_did_not_iterate {
            self.add(Instruction::PushDidNotIterate)?;
        }
        self.add(Instruction::PopLoopFrame)?;
        Ok(())
    }

    /// Whether the innermost open block is a choice.
    pub fn is_in_choice(&self) -> bool
        ensures { result ≡ is_choice (draft_of self.now).blocks }
    {
        match self.blocks.as_slice().last() {
            Some(Block::Choice(_)) => true,
            Some(Block::Branch(_)) => false,
            Some(Block::Loop(_)) => false,
            None => false,
        }
    }

    /// Opens a choice, which `and` and `or` make.
    ///
    /// # Errors
    ///
    /// [`ErrorKind::OutOfMemory`]; then all stays as it was, and the generator is of no further use.
    pub fn start_sc_bool(&mut self) -> Result<(), Error>
        ensures started { OnOk result (draft_of self.new ≡ with_choice (draft_of self.old)) }
        ensures refused { refused_of self.old ≡ None → IfErr result NoMemory }
        ensures again { MatchOption (refused_of self.old) (Unit {0}) (λ kind. result ≡ Err (kind ∷ [])) }
        ensures kept { MatchOption (refused_of self.new) (IsOk result) (λ kind. result ≡ Err (kind ∷ [])) }
        ensures unchanged { OnErr result (draft_of self.new ≡ draft_of self.old) }
    {
        self.enter(Block::Choice(Vec::new(self.alloc)))
    }

    /// Leaves the choice where the value on top is false, for `and`, or true, for `or`; else takes that value.
    ///
    /// # Errors
    ///
    /// As [`CodeGenerator::start_if`].
    pub fn sc_bool(&mut self, and: bool) -> Result<(), Error>
        requires { IsTrue (is_choice (draft_of self.old).blocks) }
        ensures added { OnOk result (draft_of self.new ≡ with_chosen and (draft_of self.old)) }
        ensures refused { refused_of self.old ≡ None → IfErr result (TakesNoMore (draft_of self.old).code) }
        ensures again { MatchOption (refused_of self.old) (Unit {0}) (λ kind. result ≡ Err (kind ∷ [])) }
        ensures kept { MatchOption (refused_of self.new) (IsOk result) (λ kind. result ≡ Err (kind ∷ [])) }
    {
        let jump = self.reserve(leap_of(and))?;
        let mut jumps = self.leave_choice();
        match jumps.push(jump) {
            Ok(()) => self.enter(Block::Choice(jumps)),
            Err(_) => Err(self.refuse(Error::new(ErrorKind::OutOfMemory))),
        }
    }

    /// Closes the choice: what leaves it goes on here.
    pub fn end_sc_bool(&mut self)
        requires { IsTrue (is_choice (draft_of self.old).blocks) }
        ensures draft { draft_of self.new ≡ with_choice_end (draft_of self.old) }
        ensures kept { refused_of self.new ≡ refused_of self.old }
    {
        let mut jumps = self.leave_choice();
        while let Some(jump) = jumps.pop() {
            self.tell(jump);
        }
    }

    // Closes a choice, and answers its jumps.
    fn leave_choice(&mut self) -> Vec<Jump>
        requires { IsTrue (is_choice (draft_of self.old).blocks) }
        ensures left { draft_of self.new ≡ with_blocks (drop 1 (draft_of self.old).blocks) (draft_of self.old) }
        ensures jumps { reverse result.items ≡ jumps_of (draft_of self.old).blocks }
        ensures kept { refused_of self.new ≡ refused_of self.old }
    {
        match self.blocks.pop() {
            Some(Block::Choice(jumps)) => jumps,
            Some(Block::Branch(_)) => unreachable!(),
            Some(Block::Loop(_)) => unreachable!(),
            None => unreachable!(),
        }
    }

    /// Adds the instructions of an expression, which gives its value. They come from the expression, whatever line and
    /// spans are open. Linear in the expression, besides what the operators of constant trees cost.
    ///
    /// Every expression that a source has can be given (`expressions_run` of `template_compiler_laws`). One that is made by
    /// hand must have what each of them has: a value in each filter, and a comparison in each chain of them.
    ///
    /// # Errors
    ///
    /// As [`CodeGenerator::start_if`].
    pub fn compile_expr(&mut self, expr: &Expr<'source>) -> Result<(), Error>
        requires { IsRunnable (expression_of expr.now) }
        ensures added { OnOk result (Generates (expression_code (expression_of expr.now)) (draft_of self.old) (draft_of self.new)) }
        ensures places { OnOk result (MarksBehind (draft_of self.old) (draft_of self.new)) }
        ensures refused { refused_of self.old ≡ None → IfErr result (TakesNoMore (draft_of self.new).code) }
        ensures again { MatchOption (refused_of self.old) (Unit {0}) (λ kind. result ≡ Err (kind ∷ [])) }
        ensures kept { MatchOption (refused_of self.new) (IsOk result) (λ kind. result ≡ Err (kind ∷ [])) }
    {
        self.go_on()?;
        match compile_expr(self.alloc, &mut self.code, expr) {
            Ok(()) => Ok(()),
            Err(error) => Err(self.refuse(error)),
        }
    }

    /// Adds the instructions of a statement, or of a whole template. They come from its expressions and statements, whatever line
    /// and spans are open; of a block they are its call, as its body is a stream of its own. Linear in the tree, besides what the
    /// operators of constant trees cost.
    ///
    /// Every template that a source has can be given (`templates_run` of `template_compiler_laws`), and every statement of it that
    /// is no `break` and no `continue` of a loop around it. A tree that is made by hand must have what each of them has: `break` and
    /// `continue` in loops alone, a filter over each body that is filtered, targets where values are stored, no template within, and
    /// expressions as [`CodeGenerator::compile_expr`] takes them.
    ///
    /// # Errors
    ///
    /// As [`CodeGenerator::start_if`].
    pub fn compile_stmt(&mut self, tree: &Stmt<'source>) -> Result<(), Error>
        requires { CanStand (statement_of tree.now) }
        ensures added { OnOk result
            (Generates (statements_code no_ways (statements_of (statement_of tree.now))) (draft_of self.old) (draft_of self.new)) }
        ensures places { OnOk result (MarksBehind (draft_of self.old) (draft_of self.new)) }
        ensures refused { refused_of self.old ≡ None → IfErr result (TakesNoMore (draft_of self.new).code) }
        ensures again { MatchOption (refused_of self.old) (Unit {0}) (λ kind. result ≡ Err (kind ∷ [])) }
        ensures kept { MatchOption (refused_of self.new) (IsOk result) (λ kind. result ≡ Err (kind ∷ [])) }
    {
        self.go_on()?;
        match compile_statements(self.alloc, &mut self.code, statements(tree)) {
            Ok(()) => Ok(()),
            Err(error) => Err(self.refuse(error)),
        }
    }

    /// Adds the instructions that store the value on top in a target: a name, an attribute, or a list of targets, as every
    /// target in a source is. They come from the names, attributes and lists in it, whatever line and spans are open. Linear in
    /// the target, besides what the operators of constant trees cost.
    ///
    /// # Errors
    ///
    /// As [`CodeGenerator::start_if`].
    pub fn compile_assignment(&mut self, target: &Expr<'source>) -> Result<(), Error>
        requires { IsTarget (expression_of target.now) }
        ensures added { OnOk result (Generates (target_code (expression_of target.now)) (draft_of self.old) (draft_of self.new)) }
        ensures places { OnOk result (MarksBehind (draft_of self.old) (draft_of self.new)) }
        ensures refused { refused_of self.old ≡ None → IfErr result (TakesNoMore (draft_of self.new).code) }
        ensures again { MatchOption (refused_of self.old) (Unit {0}) (λ kind. result ≡ Err (kind ∷ [])) }
        ensures kept { MatchOption (refused_of self.new) (IsOk result) (λ kind. result ≡ Err (kind ∷ [])) }
    {
        self.go_on()?;
        match compile_assignment(self.alloc, &mut self.code, target) {
            Ok(()) => Ok(()),
            Err(error) => Err(self.refuse(error)),
        }
    }

    /// How much room for the output is worth asking for: twice the bytes of the template's texts, as far as a `usize`
    /// goes. Linear in the instructions.
    pub fn buffer_size_hint(&self) -> usize
        ensures { result ≡ min (2 * sum_by raw_length (draft_of self.now).code) usize.MAX }
    {
        buffer_size_hint(&self.code)
    }

    /// Whether no block is open.
    pub fn is_closed(&self) -> bool
        ensures { IsTrue result ↔ ((draft_of self.now).blocks ≡ []) }
    {
        self.blocks.is_empty()
    }

    /// The instructions, where no block is open. Their filters and tests have their numbers, whatever numbers they were
    /// added with. Takes a pass over the instructions, and at each filter and each test at most 50 comparisons of names.
    ///
    /// # Errors
    ///
    /// The kind of the refusal that the generator met, and [`ErrorKind::OutOfMemory`].
    pub fn finish(self) -> Result<Instructions<'source>, Error>
        requires { (draft_of self).blocks ≡ [] }
        ensures name { IfOk result (λ i. name_in i ≡ (draft_of self.entry).name) }
        ensures source { IfOk result (λ i. source_in i ≡ (draft_of self.entry).source) }
        ensures code { IfOk result (λ i. code_in i ≡ numbered_in (draft_of self.entry).code) }
        ensures places { IfOk result (λ i. places_in i ≡ (draft_of self.entry).marks) }
        ensures refused { MatchOption (refused_of self.entry) (IfErr result NoMemory) (λ kind. result ≡ Err (kind ∷ [])) }
    {
        if let Some(kind) = self.refused {
            return Err(Error::new(kind));
        }
        let mut code = self.code;
        number_names(self.alloc, &mut code)?;
        Ok(code)
    }
}

// The flags of a loop.
fn loop_flags(with_loop_var: bool, recursive: bool) -> u8
    ensures { result ≡ loop_flags with_loop_var recursive }
{
    let own = if with_loop_var {
        LOOP_FLAG_WITH_LOOP_VAR
    } else {
        0
    };
    if recursive {
        own + LOOP_FLAG_RECURSIVE
    } else {
        own
    }
}

// How a choice is left.
fn leap_of(and: bool) -> Leap
    ensures { result ≡ leap_of and }
{
    if and {
        Leap::IfFalseOrPop
    } else {
        Leap::IfTrueOrPop
    }
}
