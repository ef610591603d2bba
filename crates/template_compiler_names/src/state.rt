//! The names that are found and known while a tree is gone over.
ghost use Rattle.std.specs.Prelude.{◌≡◌, ℕ, Bool, false, List, [], IfOk, OnOk, codes, string_bytes};
ghost use Rattle.std.specs.BTreeSet.{contains_text};
ghost use Rattle.template_compiler_names.specs.Names.{joined};
ghost use Rattle.template_compiler_names.specs.Among.{is_among, just, nothing};
ghost use Rattle.template_compiler_names.specs.Dotted.{fields_of};
ghost use Rattle.template_compiler_names.specs.Goes.{Closes, Goes, Opens, PutsAside, TakesBack, knows, knows_further, no_place, place, tells};

use crate::owned::{add_each, add_name};
use std::alloc::{AllocError, Global};
use std::collections::BTreeSet;
use std::mem;
use template_values_core::is_same;

// So many names are looked through one by one, further ones stand in sets.
const FEW: usize = 8;

/// The texts of the places of use that are found: names, or where attributes are told too, names with those
/// directly behind them; the names that are stored in the region where the walk is, and in each region around
/// it. The first few names of each kind stand in lists, those that the innermost region stores last; further
/// ones stand in sets. A text that is told is put together in one buffer, which all of them share.
#[derive(Drop)]
pub struct Names<'source> {
    pub alloc: Global,
    pub nested: bool,
    pub first: Vec<&'source str>,
    pub found: BTreeSet<String>,
    pub text: String,
    pub few: Vec<&'source str>,
    pub here: BTreeSet<&'source str>,
    pub outer: Vec<BTreeSet<&'source str>>,
}

/// What is around a region: how many names its list has, and whether it has put a set aside.
#[derive(Copy, Clone)]
pub struct Around {
    pub few: usize,
    pub aside: bool,
}

impl<'source> Names<'source> {
    /// Nothing is found or known.
    pub fn new(alloc: Global, nested: bool) -> Names<'source>
        ensures nested { result.nested ≡ nested }
        ensures found { (text : List ℕ) → tells result text ≡ false }
        ensures known { (name : List ℕ) → knows result name ≡ false }
    {
        Names {
            alloc,
            nested,
            first: Vec::new(alloc),
            found: BTreeSet::new(alloc),
            text: String::new(alloc),
            few: Vec::new(alloc),
            here: BTreeSet::new(alloc),
            outer: Vec::new(alloc),
        }
    }

    /// The texts that are found.
    ///
    /// # Errors
    ///
    /// Want of memory.
    pub fn into_found(self) -> Result<BTreeSet<String>, AllocError>
        ensures { IfOk result (λ found. (text : List ℕ) → contains_text found text ≡ tells self.entry text) }
    {
        let Names {
            alloc,
            first,
            mut found,
            ..
        } = self;
        add_each(alloc, &mut found, &first)?;
        Ok(found)
    }

    /// The name is used, with these dotted names behind it, the last one first. Takes memory for a text that is new,
    /// and for one that is longer than those before it.
    ///
    /// # Errors
    ///
    /// Want of memory.
    pub fn find(&mut self, name: &'source str, behind: &[&str]) -> Result<(), AllocError>
        ensures { OnOk result (Goes (place name.now (fields_of behind.now)) nothing self.old self.new) }
    {
        if !self.nested {
            return self.find_plain(name);
        }
        if is_among(&self.few, name) || self.knows_further(name) {
            return Ok(());
        }
        let alloc = self.alloc;
        join(&mut self.text, name, behind)?;
        add_name(alloc, &mut self.found, &self.text)
    }

    /// The name is used, with no dotted names behind it.
    ///
    /// # Errors
    ///
    /// Want of memory.
    #[inline(always)]
    pub fn find_alone(&mut self, name: &'source str) -> Result<(), AllocError>
        ensures { OnOk result (Goes (place name.now []) nothing self.old self.new) }
    {
        if self.nested {
            self.find_bare(name)
        } else {
            self.find_plain(name)
        }
    }

    // The same where attributes are told too.
    #[inline(never)]
    fn find_bare(&mut self, name: &'source str) -> Result<(), AllocError>
        ensures { OnOk result (Goes (place name.now []) nothing self.old self.new) }
    {
        self.find(name, &[])
    }

    // The name is used, where names alone are told.
    #[inline(never)]
    fn find_plain(&mut self, name: &'source str) -> Result<(), AllocError>
        requires { self.old.nested ≡ false }
        ensures { OnOk result ((fields : List (List ℕ)) → Goes (place name.now fields) nothing self.old self.new) }
    {
        if is_among(&self.first, name) || is_among(&self.few, name) {
            return Ok(());
        }
        self.find_further(name)
    }

    // The same of a name that is none of the first few that are stored.
    #[inline(never)]
    fn find_further(&mut self, name: &'source str) -> Result<(), AllocError>
        requires plain { self.old.nested ≡ false }
        requires new { is_among self.old.few.items name.now ≡ false }
        ensures { OnOk result ((fields : List (List ℕ)) → Goes (place name.now fields) nothing self.old self.new) }
    {
        if self.knows_further(name) {
            return Ok(());
        }
        if self.first.len() < FEW {
            self.first.push(name)?;
            return Ok(());
        }
        let alloc = self.alloc;
        add_name(alloc, &mut self.found, name)
    }

    // Whether the name is one of the further names that are stored in the region, or in one around it.
    fn knows_further(&self, name: &str) -> bool
        ensures { result ≡ knows_further self.now name.now }
    {
        for region in &self.outer {
            if region.contains(name) {
                return true;
            }
        }
        self.here.contains(name)
    }

    /// The name is stored.
    ///
    /// # Errors
    ///
    /// Want of memory.
    #[inline(always)]
    pub fn store(&mut self, name: &'source str) -> Result<(), AllocError>
        ensures { OnOk result (Goes no_place (just name.now) self.old self.new) }
    {
        if self.few.len() < FEW {
            self.few.push(name)?;
            return Ok(());
        }
        self.store_further(name)
    }

    // The same beyond the first few names.
    #[inline(never)]
    fn store_further(&mut self, name: &'source str) -> Result<(), AllocError>
        ensures { OnOk result (Goes no_place (just name.now) self.old self.new) }
    {
        self.here.insert(name)?;
        Ok(())
    }

    /// A loop's body begins: in it `loop` is stored.
    ///
    /// # Errors
    ///
    /// Want of memory.
    #[inline(always)]
    pub fn store_loop(&mut self) -> Result<(), AllocError>
        ensures { OnOk result (Goes no_place (just (codes "loop")) self.old self.new) }
    {
        self.store("loop")
    }

    /// A region begins.
    ///
    /// # Errors
    ///
    /// Want of memory.
    #[inline(always)]
    pub fn open(&mut self) -> Result<Around, AllocError>
        ensures { IfOk result (Opens self.old self.new) }
    {
        let few = self.few.len();
        if self.here.is_empty() {
            return Ok(Around { few, aside: false });
        }
        self.put_aside()?;
        Ok(Around { few, aside: true })
    }

    // The set of the region around is put aside.
    #[inline(never)]
    fn put_aside(&mut self) -> Result<(), AllocError>
        ensures { OnOk result (PutsAside self.old self.new) }
    {
        let alloc = self.alloc;
        let region = mem::replace(&mut self.here, BTreeSet::new(alloc));
        self.outer.push(region)?;
        Ok(())
    }

    /// It ends.
    #[inline(always)]
    pub fn close(&mut self, around: Around)
        ensures { Closes around self.old self.new }
    {
        self.few.truncate(around.few);
        if around.aside {
            self.take_back();
        } else if !self.here.is_empty() {
            self.here.clear();
        }
    }

    // It is the set of the region again.
    #[inline(never)]
    fn take_back(&mut self)
        ensures { TakesBack self.old self.new }
    {
        if let Some(region) = self.outer.pop() {
            self.here = region;
        }
    }
}

// Whether the name is one of these.
#[inline(always)]
fn is_among(names: &[&str], name: &str) -> bool
    ensures { result ≡ is_among names.now name.now }
{
    for other in names {
        if is_same(other, name) {
            return true;
        }
    }
    false
}

// Puts a name and the dotted names behind it, of which the last comes first, into the text, joined by dots.
fn join(text: &mut String, name: &str, behind: &[&str]) -> Result<(), AllocError>
    ensures { OnOk result (string_bytes text.new ≡ joined name.now (fields_of behind.now)) }
{
    text.clear();
    text.push_str(name)?;
    let mut left = behind.len();
    while left > 0 {
        left -= 1;
        let field = &behind[left];
        text.push_str(".")?;
        text.push_str(field)?;
    }
    Ok(())
}
