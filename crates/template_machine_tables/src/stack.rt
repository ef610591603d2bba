//! What stands under the names of blocks.
ghost use Rattle.std.specs.Prelude.{◌≡◌, ◌+◌, ◌^◌, ◌<◌, [], IfErr, IfNone, IfOk, IfSome, None, OnErr, OnOk, option_copied, slice_get, suc};
ghost use Rattle.template_values_errors.specs.Memory.{NoMemory};
ghost use Rattle.template_compiler_code.specs.Streams.{heads_of, streams_in};
ghost use Rattle.template_machine_meaning.specs.Bodies.{bodies_at, with_bodies, with_body, with_place};
ghost use Rattle.template_machine_meaning.specs.Keeps.{KeepsBodies};
ghost use Rattle.template_machine_tables.specs.Stack.{HasBehind, HasBody, IsBehind, IsBody, home_behind, home_running};
ghost use Rattle.template_machine_tables.specs.Streams.{home_of};

use crate::bodies::Bodies;
use crate::home::Home;
use std::alloc::Global;
use std::collections::BTreeMap;
use std::marker::Model;
use template_compiler_code::CompiledBlock;
use template_values_errors::Error;

/// Which templates have a body for each block, and which of them runs. A contract sees the blocks in the order of their names by
/// bytes.
#[derive(Drop)]
pub struct BlockStack<'env> {
    bodies: BTreeMap<&'env str, Bodies<'env>>,
}

impl<'env> Model for BlockStack<'env> {
    ghost use Rattle.std.specs.Prelude.{ℕ, List};
    ghost use Rattle.template_machine_meaning.specs.Bodies as meant;
    ghost use Rattle.template_machine_tables.specs.Codes.{blocks_code};
    ghost use Rattle.template_machine_tables.specs.Stack.{blocks_in};

    ghost Value = { List (List ℕ × meant.Bodies) };

    ghost coded = { blocks_code };

    ghost view = { λ s. blocks_in s.bodies };
}

/// The body of a block that runs.
#[derive(Clone, Copy)]
pub struct Body<'env> {
    /// The template that has it.
    pub home: Home<'env>,
    /// How many templates have one.
    pub count: usize,
    /// Its place among theirs.
    pub place: usize,
}

/// What stands behind the body of a block that runs.
#[derive(Clone, Copy)]
pub struct Behind<'env> {
    /// The place of the body that runs.
    pub place: usize,
    /// The template whose body is the next one.
    pub home: Home<'env>,
}

impl<'env> BlockStack<'env> {
    /// No blocks.
    pub fn new(alloc: Global) -> BlockStack<'env>
        ensures { result ≡ [] }
    {
        BlockStack {
            bodies: BTreeMap::new(alloc),
        }
    }

    /// The same blocks. Linear in their number, and in that of their bodies.
    ///
    /// # Errors
    ///
    /// [`ErrorKind::OutOfMemory`](template_values_errors::ErrorKind::OutOfMemory)
    pub fn copy(&self) -> Result<BlockStack<'env>, Error>
        ensures same { IfOk result (λ blocks. blocks ≡ self.now) }
        ensures refused { IfErr result NoMemory }
    {
        Ok(BlockStack {
            bodies: self.bodies.clone()?,
        })
    }

    /// The bodies that a template gives to its blocks go behind those that are there. Logarithmic in the number of blocks for
    /// each.
    ///
    /// # Errors
    ///
    /// [`ErrorKind::OutOfMemory`](template_values_errors::ErrorKind::OutOfMemory); some of the first may then be there.
    pub fn append(
        &mut self,
        alloc: Global,
        home: Home<'env>,
        blocks: &'env [CompiledBlock<'env>],
    ) -> Result<(), Error>
        ensures appended { OnOk result (self.new ≡ with_bodies (home_of home.entry) (heads_of (streams_in blocks.now)) self.old) }
        ensures refused { IfErr result NoMemory }
        ensures kept { OnErr result (KeepsBodies self.old self.new) }
    {
        for block in blocks {
            self.add(alloc, home, block.name.as_str())?;
        }
        Ok(())
    }

    // One body more of a block.
    fn add(&mut self, alloc: Global, home: Home<'env>, name: &'env str) -> Result<(), Error>
        ensures added { OnOk result (self.new ≡ with_body (home_of home.entry) name.now self.old) }
        ensures refused { IfErr result NoMemory }
        ensures unchanged { OnErr result (self.new ≡ self.old) }
    {
        match self.bodies.get_mut(name) {
            Some(bodies) => bodies.push(home),
            None => self.add_first(alloc, home, name),
        }
    }

    // The first body of a block that has none.
    fn add_first(&mut self, alloc: Global, home: Home<'env>, name: &'env str) -> Result<(), Error>
        requires { bodies_at name.now self.old ≡ None }
        ensures added { OnOk result (self.new ≡ with_body (home_of home.entry) name.now self.old) }
        ensures refused { IfErr result NoMemory }
        ensures unchanged { OnErr result (self.new ≡ self.old) }
    {
        let mut bodies = Bodies::new(alloc);
        bodies.push(home)?;
        self.bodies.insert(name, bodies)?;
        Ok(())
    }

    /// The body that the block's calls run; none where the block has none at its place, or there is no such block. Logarithmic
    /// in the number of blocks.
    pub fn body(&self, name: &str) -> Option<Body<'env>>
        ensures found { IfSome result (HasBody name.now self.now) }
        ensures missing { IfNone result (home_running name.now self.now ≡ None) }
    {
        match self.bodies_of(name) {
            Some(bodies) => running(bodies),
            None => None,
        }
    }

    /// The body behind the one that the block's calls run, if there is one. Logarithmic in the number of blocks.
    pub fn behind(&self, name: &str) -> Option<Behind<'env>>
        ensures found { IfSome result (HasBehind name.now self.now) }
        ensures within { IfSome result (λ behind. behind.place + 1 < 2 ^ 64) }
        ensures missing { IfNone result (home_behind name.now self.now ≡ None) }
    {
        match self.bodies_of(name) {
            Some(bodies) => standing_behind(bodies),
            None => None,
        }
    }

    /// From now on the block's calls run the body at the place. Logarithmic in the number of blocks.
    pub fn set_place(&mut self, name: &str, place: usize)
        ensures { self.new ≡ with_place name.now place self.old }
    {
        match self.bodies.get_mut(name) {
            Some(bodies) => bodies.set_place(place),
            None => {}
        }
    }

    // The bodies of a block, if there is one of that name.
    fn bodies_of(&self, name: &str) -> Option<&Bodies<'env>>
        ensures { option_copied result ≡ bodies_at name.now self.now }
    {
        self.bodies.get(name)
    }
}

// The body that runs, if there is one at its place.
fn running<'env>(bodies: &Bodies<'env>) -> Option<Body<'env>>
    ensures told { IfSome result (IsBody bodies.now) }
    ensures missing { IfNone result (slice_get bodies.now.homes bodies.now.place ≡ None) }
{
    match bodies.home_at(bodies.place()) {
        Some(home) => Some(Body {
            home,
            count: bodies.count(),
            place: bodies.place(),
        }),
        None => None,
    }
}

// What stands behind it, if anything does.
fn standing_behind<'env>(bodies: &Bodies<'env>) -> Option<Behind<'env>>
    ensures told { IfSome result (IsBehind bodies.now) }
    ensures within { IfSome result (λ behind. behind.place + 1 < 2 ^ 64) }
    ensures missing { IfNone result (slice_get bodies.now.homes (suc bodies.now.place) ≡ None) }
{
    match bodies.home_behind() {
        Some(home) => Some(Behind {
            place: bodies.place(),
            home,
        }),
        None => None,
    }
}
