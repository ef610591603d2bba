//! What a case says of the names that stand in templates.
ghost use Rattle.std.specs.Prelude.{◌≡◌, ◌++◌, IfErr, IfOk, string_bytes};
ghost use Rattle.template_values_errors.specs.Memory.{NoMemory};
ghost use Rattle.template_rows.specs.Joins.{joined_says, prefix_at, prefixes_in};

use crate::what::fault;
use std::alloc::Global;
use template_callables::PathJoin;
use template_values_errors::{Error, ErrorKind};

/// What a name means in a template.
#[derive(Drop)]
pub struct Joined {
    /// What joined names are made with.
    pub alloc: Global,
    /// What all names mean.
    pub means: Means,
}

/// What all names mean.
#[derive(Drop)]
pub enum Means {
    /// The name behind the text that stands for the template; where none does, the name itself.
    Behind(Vec<(String, String)>),
    /// Nothing: a fault of a kind, and of the kind of its cause, if it has one.
    Fails(ErrorKind, Option<ErrorKind>),
}

impl PathJoin for Joined {
    ghost answer = { joined_says };

    fn join(&self, name: &str, parent: &str) -> Result<String, Error> {
        match &self.means {
            Means::Behind(prefixes) => {
                behind(self.alloc, prefix_of(prefixes.as_slice(), parent), name)
            }
            Means::Fails(kind, cause) => Err(fault(self.alloc, *kind, *cause)),
        }
    }
}

// The text that stands for a template; an empty one, if none does.
fn prefix_of<'a>(prefixes: &'a [(String, String)], parent: &str) -> &'a str
    ensures { result.now ≡ prefix_at parent.now (prefixes_in prefixes.now) }
{
    for (name, prefix) in prefixes {
        if name.as_str() == parent {
            return prefix.as_str();
        }
    }
    ""
}

fn behind(alloc: Global, prefix: &str, name: &str) -> Result<String, Error>
    ensures joined { IfOk result (λ joined. string_bytes joined ≡ prefix.now ++ name.now) }
    ensures refused { IfErr result NoMemory }
{
    let mut joined = String::from_str(alloc, prefix)?;
    joined.push_str(name)?;
    Ok(joined)
}
