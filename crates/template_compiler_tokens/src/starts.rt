//! Whether the starts of segments can be told apart.

ghost use Rattle.std.specs.Prelude.{◌≡◌, ◌↔◌, IsTrue};
ghost use Rattle.std.specs.List.{list_all};
ghost use Rattle.template_compiler_tokens.specs.Starts.{AreApart, Differ};

/// No two of the starts that are there are the same: those of prints, blocks and comments, and the prefixes of lines that
/// are statements or comments. An empty one is none.
pub fn are_apart(
    variable: &str,
    block: &str,
    comment: &str,
    line_statement: &str,
    line_comment: &str,
) -> bool
    ensures { IsTrue result ↔ AreApart variable.now block.now comment.now line_statement.now line_comment.now }
{
    let pairs = [
        differ(variable, block),
        differ(variable, comment),
        differ(variable, line_statement),
        differ(variable, line_comment),
        differ(block, comment),
        differ(block, line_statement),
        differ(block, line_comment),
        differ(comment, line_statement),
        differ(comment, line_comment),
        differ(line_statement, line_comment),
    ];
    all_hold(&pairs)
}

fn all_hold(tests: &[bool]) -> bool
    ensures { result ≡ list_all (λ test. test) tests.now }
{
    tests.iter().all(|test| *test)
}

// Two starts are not the same; an empty one is none.
fn differ(first: &str, second: &str) -> bool
    ensures { IsTrue result ↔ Differ first.now second.now }
{
    first.is_empty() || first != second
}
