//! The word `scoped` behind the name of a block.
ghost use Rattle.std.specs.Prelude.{◌≡◌};
ghost use Rattle.template_compiler_sources.specs.Scoped as scoped;
ghost use Rattle.template_compiler_sources.specs.Scoped.{taken_spans, unscoped};
ghost use Rattle.template_compiler_tokenizer.specs.Held.{spanned_of};
ghost use Rattle.template_compiler_tokenizer.specs.Spans.{Spanned};
ghost use Rattle.template_compiler_tokens.specs.View.{token_of};

use template_compiler_tokens::Token;
use template_compiler_tree::Span;

/// Where a reader of tokens stands.
#[derive(Clone, Copy)]
pub(crate) enum Head {
    /// Not in the head of a block.
    Elsewhere,
    /// Behind the start of a statement.
    Begun,
    /// Behind the word `block` that begins one.
    Worded,
    /// Behind the name of a block.
    Named,
}

/// Leaves out each word `scoped` that stands behind the name of a block, where blocks may be so. Linear.
pub(crate) fn leave_scoped_out(scoped_blocks: bool, tokens: &mut Vec<(Token<'_>, Span)>)
    ensures { spanned_of tokens.new.items ≡ taken_spans scoped_blocks (spanned_of tokens.old.items) }
{
    if scoped_blocks {
        forget_scoped(tokens);
    }
}

fn forget_scoped(tokens: &mut Vec<(Token<'_>, Span)>)
    ensures { spanned_of tokens.new.items ≡ unscoped (λ (t : Spanned). t.token) Head.Elsewhere (spanned_of tokens.old.items) }
{
    let mut head = Head::Elsewhere;
    tokens.retain(move |entry| {
        let stays = !is_scoped(head, &entry.0);
        head = after(head, &entry.0);
        stays
    });
}

// Whether a token is the word `scoped`, behind the name of a block.
fn is_scoped(head: Head, token: &Token) -> bool
    ensures { result ≡ scoped.is_scoped head (token_of token.now) }
{
    match token {
        Token::Ident(word) => is_named(head) && *word == "scoped",
        _ => false,
    }
}

fn is_named(head: Head) -> bool
    ensures { result ≡ scoped.is_named head }
{
    match head {
        Head::Named => true,
        Head::Elsewhere | Head::Begun | Head::Worded => false,
    }
}

// Where a reader stands behind one more token.
fn after(head: Head, token: &Token) -> Head
    ensures { result ≡ scoped.after head (token_of token.now) }
{
    match token {
        Token::BlockStart => Head::Begun,
        Token::Ident(word) => after_word(head, word),
        _ => Head::Elsewhere,
    }
}

fn after_word(head: Head, word: &str) -> Head
    ensures { result ≡ scoped.after_word head word.now }
{
    match head {
        Head::Begun => {
            if word == "block" {
                Head::Worded
            } else {
                Head::Elsewhere
            }
        }
        Head::Worded => Head::Named,
        Head::Named | Head::Elsewhere => Head::Elsewhere,
    }
}
