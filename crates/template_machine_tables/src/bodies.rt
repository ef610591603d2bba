//! The bodies of one block.
ghost use Rattle.std.specs.Prelude.{◌≡◌, ◌+◌, ◌^◌, ◌<◌, ◌∷◌, ◌++◌, [], IfErr, IfOk, IfSome, OnErr, OnOk, length, option_map, slice_get, suc};
ghost use Rattle.template_values_errors.specs.Memory.{NoMemory};
ghost use Rattle.template_machine_tables.specs.Streams.{home_of};
ghost use Rattle.template_machine_meaning.specs.Bodies.{placed};

use crate::home::Home;
use std::alloc::{AllocError, Global};
use std::marker::Model;
use template_values_errors::Error;

/// The templates that have a body for a block, the one that extends the others first; and the place of the one whose body runs.
#[derive(Drop)]
pub(crate) struct Bodies<'env> {
    homes: Vec<Home<'env>>,
    place: usize,
}

impl<'env> Model for Bodies<'env> {
    ghost use Rattle.std.specs.Prelude.{map};
    ghost use Rattle.template_machine_meaning.specs.Bodies as meant;
    ghost use Rattle.template_machine_tables.specs.Codes.{bodies_code};
    ghost use Rattle.template_machine_tables.specs.Streams.{home_of};

    ghost Value = { meant.Bodies };

    ghost coded = { bodies_code };

    ghost view = { λ b. record { homes = map home_of b.homes.items; place = b.place } };
}

impl<'env> Clone for Bodies<'env> {
    ghost is_clone = { λ bodies copy. copy ≡ bodies };

    fn clone(&self) -> Result<Bodies<'env>, AllocError> {
        Ok(Bodies {
            homes: copies_of(*self.homes.allocator(), self.homes.as_slice())?,
            place: self.place,
        })
    }
}

impl<'env> Bodies<'env> {
    /// None yet.
    pub(crate) fn new(alloc: Global) -> Bodies<'env>
        ensures { result ≡ record { homes = []; place = 0 } }
    {
        Bodies {
            homes: Vec::new(alloc),
            place: 0,
        }
    }

    /// One more, behind those that are there.
    ///
    /// # Errors
    ///
    /// [`ErrorKind::OutOfMemory`](template_values_errors::ErrorKind::OutOfMemory); they are then as they were.
    pub(crate) fn push(&mut self, home: Home<'env>) -> Result<(), Error>
        ensures pushed { OnOk result (self.new ≡ record self.old { homes = self.old.homes ++ home_of home.entry ∷ [] }) }
        ensures refused { IfErr result NoMemory }
        ensures unchanged { OnErr result (self.new ≡ self.old) }
    {
        self.homes.push(home)?;
        Ok(())
    }

    /// From now on the body at the place runs.
    pub(crate) fn set_place(&mut self, place: usize)
        ensures { self.new ≡ placed place self.old }
    {
        self.place = place;
    }

    /// The place of the one whose body runs.
    pub(crate) fn place(&self) -> usize
        ensures { result ≡ self.now.place }
    {
        self.place
    }

    /// How many there are.
    pub(crate) fn count(&self) -> usize
        ensures { result ≡ length self.now.homes }
    {
        self.homes.len()
    }

    /// The one at a place, if there is one.
    pub(crate) fn home_at(&self, place: usize) -> Option<Home<'env>>
        ensures { option_map home_of result ≡ slice_get self.now.homes place }
    {
        match self.homes.get(place) {
            Some(home) => Some(*home),
            None => None,
        }
    }

    /// The one behind the one whose body runs, if there is one.
    pub(crate) fn home_behind(&self) -> Option<Home<'env>>
        ensures found { option_map home_of result ≡ slice_get self.now.homes (suc self.now.place) }
        ensures within { IfSome result (λ _. self.now.place + 1 < 2 ^ 64) }
    {
        if self.homes.len() <= self.place {
            return None;
        }
        self.home_at(self.place + 1)
    }
}

// The same homes.
fn copies_of<'env>(alloc: Global, homes: &[Home<'env>]) -> Result<Vec<Home<'env>>, AllocError>
    ensures { IfOk result (λ copies. copies.items ≡ homes.now) }
{
    let mut copies = Vec::with_capacity(alloc, homes.len())?;
    for home in homes {
        copies.push(*home)?;
    }
    Ok(copies)
}
