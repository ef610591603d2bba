//! Where in a template something was refused.

use std::fmt;

/// A place in a template's source.
#[derive(Debug, Drop)]
pub struct Place {
    /// The template's name; `<expression>` in an expression that stands for itself.
    pub name: String,
    /// The line, from 1; 65535 from there on.
    pub line: u16,
    /// The characters of the line before the place; 65535 from there on.
    pub column: u16,
    /// The byte of the source at which the place begins.
    pub start: u32,
    /// The byte behind its last; as `start` where only the line is known.
    pub end: u32,
}

/// Writes `name:line:column`, with the column from 1.
impl fmt::Display for Place {
    fn fmt<W: fmt::Write>(&self, f: &mut fmt::Formatter<W>) -> fmt::Result {
        f.write_str(self.name.as_str())?;
        f.write_str(":")?;
        self.line.fmt(f)?;
        f.write_str(":")?;
        (self.column as u32 + 1).fmt(f)
    }
}
