//! Compiled templates.
ghost use Rattle.std.specs.Prelude.{◌≡◌, ◌↔◌, ◌≤◌, ◌*◌, ◌^◌, ℕ, List, length, min, sum_by, option_map, IsTrue, IfOk, IfErr, IsErrAnd, OnOk, OnErr};
ghost use Rattle.std.specs.BTreeSet.{contains_text};
ghost use Rattle.std.specs.Cow.{cow_str_bytes};
ghost use Rattle.template_values_errors.specs.Memory.{NoMemory};
ghost use Rattle.template_values_errors.specs.declared.ErrorKind.{ErrorKind as Kind};
ghost use Rattle.template_values_errors.specs.declared.ErrorKind.TheVariants.{TooLarge};
ghost use Rattle.template_compiler_tree.specs.Tree.{Statements, template};
ghost use Rattle.template_compiler_tree_statements.specs.View.{statement_of};
ghost use Rattle.template_compiler_code.specs.Listing.{code_in};
ghost use Rattle.template_compiler_code.specs.Texts.{raw_length};
ghost use Rattle.template_compiler_syntax.specs.Syntax.{IsUsable};
ghost use Rattle.template_compiler_sources.specs.Source.{IsAlone, IsSource};
ghost use Rattle.template_machine_surroundings.specs.Rule.{IsEscapeOf};
ghost use Rattle.template_compiled.specs.Compiled.{IsFaithful, code_for, escaped_as};
ghost use Rattle.template_compiler_names.specs.Names.{IsTold};
ghost use Rattle.template_compiler_names_statements.specs.Found.{Adds, AddsSome};
ghost use Rattle.template_compiled.specs.Names.{uses};
ghost use Rattle.template_compiler_emission.specs.Puts.{NoRoom};
ghost use Rattle.template_compiled.specs.Plain.{IsPlain, PlainStandsForItself};
ghost use Rattle.template_compiler_code.specs.Streams.{stream_in, streams_in};
ghost use Rattle.template_compiled.specs.Streams.{stream_named, streams_of};
ghost use Rattle.template_compiled.specs.Sources.{HasNoRoom, IsAccepted, IsRefusedWith, Source, TreesRun, read_by, tree_in};

use crate::config::TemplateConfig;
use crate::room::put_template;
use crate::streams::compile_blocks;
use std::alloc::Global;
use std::borrow::CowStr;
use std::collections::BTreeSet;
use std::marker::Model;
use template_compiler_code::{
    CompiledBlock, Instructions, block_among, buffer_size_hint, own_blocks,
};
use template_compiler_generator::number_names;
use template_compiler_names_needed::add_needed;
use template_compiler_names_statements::find_undeclared;
use template_compiler_sources::parse;
use template_compiler_statement_codegen::children;
use template_compiler_syntax::SyntaxConfig;
use template_compiler_tree_statements::Stmt;
use template_machine_surroundings::EscapeRule;
use template_values_errors::{AutoEscape, Error, ErrorKind};

/// A template whose source was accepted: its code, and the escape of its name. A contract sees both, with the name,
/// the source and what it was read under.
pub struct CompiledTemplate<'source> {
    instructions: Instructions<'source>,
    blocks: Vec<CompiledBlock<'source>>,
    config: TemplateConfig,
    initial_auto_escape: AutoEscape,
}

// By hand: a crate that drops one would else prove anew how each of its parts is dropped.
impl<'source> Drop for CompiledTemplate<'source> {
    fn drop(self) {
        let CompiledTemplate {
            instructions: _,
            blocks: _,
            config: _,
            initial_auto_escape: _,
        } = self;
    }
}

impl<'source> Model for CompiledTemplate<'source> {
    ghost use Rattle.std.specs.Prelude.{◌≡◌};
    ghost use Rattle.template_compiler_code.specs.Listing.{code_in, name_in, source_in};
    ghost use Rattle.template_compiled.specs.Compiled.{Compiled, IsFaithful, code_for};
    ghost use Rattle.template_compiled.specs.Sources.{read_by, tree_in};
    ghost use Rattle.template_compiler_code.specs.Streams.{streams_in};
    ghost use Rattle.template_compiled.specs.Streams.{streams_of};

    ghost Value = { Compiled };

    ghost view = { λ t. record {
      name = name_in t.instructions;
      source = read_by t.config (source_in t.instructions);
      escape = t.initial_auto_escape;
    } };

    ghost invariant = { λ t. IsFaithful (record {
      name = name_in t.instructions;
      source = read_by t.config (source_in t.instructions);
      escape = t.initial_auto_escape;
    }) × (code_in t.instructions ≡ code_for (record {
      name = name_in t.instructions;
      source = read_by t.config (source_in t.instructions);
      escape = t.initial_auto_escape;
    }))
        × (streams_in t.blocks.items ≡ streams_of (tree_in (read_by t.config (source_in t.instructions)))) };
}

impl<'source> CompiledTemplate<'source> {
    /// Compiles a source under a configuration, in time linear in its length, besides what the operators of
    /// constant trees cost.
    ///
    /// # Errors
    ///
    /// Those of [`parse`]; [`ErrorKind::OutOfMemory`], also where the code would have 2^32 instructions, which that of a
    /// source of fewer than 2^24 bytes never has.
    pub fn new(
        alloc: Global,
        name: &'source str,
        source: &'source str,
        config: &TemplateConfig,
    ) -> Result<CompiledTemplate<'source>, Error>
        ensures name { IfOk result (λ t. t.name ≡ name.now) }
        ensures source { IfOk result (λ t. t.source ≡ read_by config.now source.now) }
        ensures faithful { IfOk result IsFaithful }
        ensures refused { IfErr result (IsRefusedWith (read_by config.now source.now)) }

        ensures too_large { 2 ^ 32 ≤ length source.now → IsErrAnd result (IsAlone TooLarge) }

        // A source in which no marker starts is refused for want of memory alone, or for its size.
        ensures plain { IsPlain (read_by config.now source.now) → IfErr result (HasNoRoom source.now) }
    {
        if source.len() > u32::MAX as usize {
            return Err(Error::new(ErrorKind::TooLarge));
        }
        usable(&config.syntax_config);
        plain_text();
        let tree = parse(alloc, source, name, config.syntax_config.clone()?)?;
        let mut instructions = Instructions::new(alloc, name, source);
        put_template(alloc, &mut instructions, &tree)?;
        number_names(alloc, &mut instructions)?;
        instructions.shrink_to_fit();
        instructions.number_parts();
        let blocks = compile_blocks(alloc, name, source, children(&tree))?;
        Ok(CompiledTemplate {
            instructions,
            blocks,
            config: config.clone()?,
            initial_auto_escape: config.default_auto_escape.escape(name),
        })
    }

    /// The same of texts that need not outlive it: it keeps copies of them.
    ///
    /// # Errors
    ///
    /// As [`CompiledTemplate::new`].
    pub fn from_owned(
        alloc: Global,
        name: CowStr<'_>,
        source: CowStr<'_>,
        config: &TemplateConfig,
    ) -> Result<CompiledTemplate<'source>, Error>
        ensures name { IfOk result (λ t. t.name ≡ cow_str_bytes name.entry) }
        ensures source { IfOk result (λ t. t.source ≡ read_by config.now (cow_str_bytes source.entry)) }
        ensures faithful { IfOk result IsFaithful }
        ensures refused { IfErr result (IsRefusedWith (read_by config.now (cow_str_bytes source.entry))) }

        ensures too_large { 2 ^ 32 ≤ length (cow_str_bytes source.entry) → IsErrAnd result (IsAlone TooLarge) }

        // A source in which no marker starts is refused for want of memory alone, or for its size.
        ensures plain { IsPlain (read_by config.now (cow_str_bytes source.entry))
            → IfErr result (HasNoRoom (cow_str_bytes source.entry)) }
    {
        let borrowed = CompiledTemplate::new(alloc, name.as_str(), source.as_str(), config)?;
        Ok(borrowed.into_owned(alloc)?)
    }

    /// The same template with texts of its own, which are copied where they were borrowed. Takes time and memory linear
    /// in its source and its code.
    ///
    /// # Errors
    ///
    /// [`ErrorKind::OutOfMemory`].
    pub fn into_owned<'owned>(self, alloc: Global) -> Result<CompiledTemplate<'owned>, Error>
        ensures same { IfOk result (λ t. t ≡ self.entry) }
        ensures refused { IfErr result NoMemory }
    {
        let CompiledTemplate {
            instructions,
            blocks,
            config,
            initial_auto_escape,
        } = self;
        Ok(CompiledTemplate {
            instructions: instructions.into_owned(alloc)?,
            blocks: own_blocks(alloc, blocks)?,
            config,
            initial_auto_escape,
        })
    }

    /// The same template under an escape of its own, whatever its name is.
    pub fn with_auto_escape(self, escape: AutoEscape) -> CompiledTemplate<'source>
        ensures { result ≡ escaped_as escape self.entry }
    {
        let CompiledTemplate {
            instructions,
            blocks,
            config,
            initial_auto_escape: _,
        } = self;
        CompiledTemplate {
            instructions,
            blocks,
            config: TemplateConfig {
                syntax_config: config.syntax_config,
                default_auto_escape: EscapeRule::Fixed(escape),
            },
            initial_auto_escape: escape,
        }
    }

    /// The template's name.
    pub fn name(&self) -> &str
        ensures { result.now ≡ self.now.name }
    {
        self.instructions.name()
    }

    /// The template's source.
    pub fn source(&self) -> &str
        ensures { result.now ≡ self.now.source.text }
    {
        self.instructions.source()
    }

    /// The syntax that the source was read under.
    pub fn syntax(&self) -> &SyntaxConfig
        ensures { result.now ≡ self.now.source.syntax }
    {
        &self.config.syntax_config
    }

    /// The escape of the template's name.
    pub fn initial_auto_escape(&self) -> AutoEscape
        ensures escape { result ≡ self.now.escape }
        ensures rule { IsEscapeOf self.now.source.escapes self.now.name result }
    {
        self.initial_auto_escape
    }

    /// The tree of the template's source, which is read once more, in time linear in its length.
    ///
    /// # Errors
    ///
    /// [`ErrorKind::OutOfMemory`].
    pub fn tree(&self, alloc: Global) -> Result<Stmt<'_>, Error>
        ensures tree { IfOk result (λ tree. statement_of tree ≡ template (tree_in self.now.source)) }
        ensures faithful { IsFaithful self.now }
        ensures refused { IfErr result NoMemory }
    {
        parse(
            alloc,
            self.source(),
            self.name(),
            self.config.syntax_config.clone()?,
        )
    }

    /// Adds the names that the template needs to a set of names: those that it uses, those that one of its blocks uses
    /// by itself, and those that it imports from others. Reads the source once more, in time linear in its length, and
    /// takes a look-up for each place of use, and once more for each block around it.
    ///
    /// # Errors
    ///
    /// [`ErrorKind::OutOfMemory`]; some of the names may then have been added, and no others.
    pub fn add_undeclared(&self, alloc: Global, names: &mut BTreeSet<String>) -> Result<(), Error>
        ensures added { OnOk result (Adds (uses self.now) names.old names.new) }
        ensures partial { OnErr result (AddsSome (uses self.now) names.old names.new) }
        ensures refused { IfErr result NoMemory }
    {
        let tree = self.tree(alloc)?;
        add_needed(alloc, names, children(&tree))?;
        Ok(())
    }

    /// The names that the template uses, each once, by order of their bytes; where `nested`, each with the dotted names
    /// that stand directly behind it. Reads the source once more, in time linear in its length, and takes a look-up
    /// for each place of use.
    ///
    /// # Errors
    ///
    /// [`ErrorKind::OutOfMemory`].
    pub fn undeclared(&self, alloc: Global, nested: bool) -> Result<BTreeSet<String>, Error>
        ensures told { IfOk result (λ names. (text : List ℕ) → IsTrue (contains_text names text)
            ↔ IsTold nested text (tree_in self.now.source)) }
        ensures refused { IfErr result NoMemory }
    {
        let tree = self.tree(alloc)?;
        Ok(find_undeclared(alloc, &tree, nested)?)
    }

    /// The template's blocks, in order, those inside others too, each with the code of its body.
    pub fn blocks(&self) -> &[CompiledBlock<'source>]
        ensures { streams_in result.now ≡ streams_of (tree_in self.now.source) }
    {
        &self.blocks
    }

    /// The template's block of a name, if it has one. Linear in its blocks.
    pub fn block(&self, name: &str) -> Option<&CompiledBlock<'source>>
        ensures { option_map (λ b. stream_in b.now) result ≡ stream_named name.now (tree_in self.now.source) }
    {
        block_among(&self.blocks, name)
    }

    /// The template's code.
    pub fn instructions(&self) -> &Instructions<'source>
        ensures code { code_in result.now ≡ code_for self.now }
        ensures faithful { IsFaithful self.now }
    {
        &self.instructions
    }

    /// The template's code, and its blocks as [`CompiledTemplate::blocks`] lists them, for who runs or checks them apart.
    pub fn into_streams(self) -> (Instructions<'source>, Vec<CompiledBlock<'source>>)
        ensures code { code_in result.0 ≡ code_for self.entry }
        ensures blocks { streams_in result.1.items ≡ streams_of (tree_in self.entry.source) }
        ensures faithful { IsFaithful self.entry }
    {
        let CompiledTemplate {
            instructions,
            blocks,
            config: _,
            initial_auto_escape: _,
        } = self;
        (instructions, blocks)
    }

    /// How much room for the template's text is worth asking for: twice the bytes of the texts outside of its blocks, as far
    /// as a `usize` goes. Linear in its instructions.
    pub fn buffer_size_hint(&self) -> usize
        ensures { result ≡ min (2 * sum_by raw_length (code_for self.now)) usize.MAX }
    {
        buffer_size_hint(self.instructions())
    }
}

// No syntax has delimiters that cannot be told apart, as its accessors say.
fn usable(syntax: &SyntaxConfig)
    ensures { IsUsable syntax.now }
{
    let _delimiters = syntax.block_delimiters();
}

/// A law, as the contract of a function that does nothing: the tree that a source has is the one that it is read to.
pub fn one_tree()
    ensures { (source : Source) (tree : Statements) → IsUsable source.syntax
        → IsSource source.syntax source.text (template tree) → tree_in source ≡ tree }
{}

/// A law: every tree that a source is read to has a walk.
pub fn trees_run()
    ensures { TreesRun }
{}

/// A law: a source in which no marker starts is read to its text, and is refused for want of memory alone, or for its
/// size, where it has 2^32 bytes at least.
pub fn plain_text()
    ensures { PlainStandsForItself }
{}

/// A law: where there is room for a source and for its code, the source is refused with one kind, and where it is accepted it
/// is not refused.
pub fn one_refusal()
    ensures one { (source : Source) (kinds others : List Kind) → IsUsable source.syntax → IsRefusedWith source kinds
        → IsRefusedWith source others → ¬ NoRoom kinds → ¬ NoRoom others → kinds ≡ others }
    ensures accepted { (source : Source) (kinds : List Kind) → IsUsable source.syntax → IsAccepted source
        → IsRefusedWith source kinds → ¬ NoRoom kinds → ⊥ }
{}
