//! Where a stream is at home.
ghost use Rattle.std.specs.Prelude.{◌≡◌};
ghost use Rattle.template_machine_meaning.specs.Keys.{Around, own, block_of};
ghost use Rattle.template_machine_meaning.specs.Names.{name_at, name_of};
ghost use Rattle.template_machine_tables.specs.Streams.{home_of, stream_of};

/// The template that a stream is of.
#[derive(Clone, Copy)]
pub enum Home<'env> {
    /// The one that is rendered.
    Rendered,
    /// The one that stands under this name.
    Standing(&'env str),
    /// None: the stream was handed in by itself, as the one of this number among such.
    Kept(usize),
}

impl<'env> Home<'env> {
    /// Its name, where that of the one that is rendered, and of streams that were handed in, is `rendered`.
    pub fn name<'a>(&'a self, rendered: &'a str) -> &'a str
        ensures { (a : Around) → result.now ≡ name_at (record a { name = rendered.now }) (home_of self.now) }
    {
        match *self {
            Home::Rendered => rendered,
            Home::Standing(name) => name,
            Home::Kept(_) => rendered,
        }
    }
}

/// What runs: a template's own stream, or that of one of its blocks.
#[derive(Clone, Copy)]
pub struct Stream<'env> {
    /// The template.
    pub home: Home<'env>,
    /// The block's name, if it is one's.
    pub block: Option<&'env str>,
}

impl<'env> Stream<'env> {
    /// A template's own stream.
    pub fn own(home: Home<'env>) -> Stream<'env>
        ensures { stream_of result ≡ own (home_of home.entry) }
    {
        Stream { home, block: None }
    }

    /// The stream of one of its blocks.
    pub fn of_block(home: Home<'env>, name: &'env str) -> Stream<'env>
        ensures { stream_of result ≡ block_of (home_of home.entry) name.now }
    {
        Stream {
            home,
            block: Some(name),
        }
    }

    /// The name of its template, where that of the one that is rendered is `rendered`.
    pub fn name<'a>(&'a self, rendered: &'a str) -> &'a str
        ensures { (a : Around) → result.now ≡ name_of (record a { name = rendered.now }) (stream_of self.now) }
    {
        self.home.name(rendered)
    }
}
