//! The words that set the syntax of templates.
ghost use Rattle.std.specs.Prelude.{◌≡◌, IfOk, All, false, map};
ghost use Rattle.clap.specs.Words.{rule_of};
ghost use Rattle.template_program_words.specs.CommandLine as line;

use crate::options::{flag_option, text_option};
use clap::Arg;
use std::alloc::{AllocError, Global};

/// `[--trim-blocks] [--lstrip-blocks] [--keep-trailing-newline] [--scoped-blocks]`
pub(crate) fn syntax_flags<'a>(alloc: Global) -> Result<Vec<Arg<'a>>, AllocError>
    ensures rules { IfOk result (λ arguments. map rule_of arguments.items ≡ line.syntax_flags) }
    ensures local { IfOk result (λ arguments. All (λ a. a.global ≡ false) arguments.items) }
{
    let trim = "Takes off one newline after a block or a comment";
    let lstrip = "Takes off the spaces and tabs before a block or a comment that begins its line";
    let keep = "Keeps a newline at the end of a template; it is taken off if not given";
    let scoped =
        "Takes the word `scoped` behind a block's name, where it means nothing; refused if not given";
    Ok(vec![in alloc;
        flag_option(alloc, "trim-blocks", trim),
        flag_option(alloc, "lstrip-blocks", lstrip),
        flag_option(alloc, "keep-trailing-newline", keep),
        flag_option(alloc, "scoped-blocks", scoped),
    ]?)
}

/// `[--line-statement PREFIX] [--line-comment PREFIX] [--block-start TEXT] [--block-end TEXT] [--variable-start TEXT]
/// [--variable-end TEXT] [--comment-start TEXT] [--comment-end TEXT]`
pub(crate) fn syntax_texts<'a>(alloc: Global) -> Result<Vec<Arg<'a>>, AllocError>
    ensures rules { IfOk result (λ arguments. map rule_of arguments.items ≡ line.syntax_texts) }
    ensures local { IfOk result (λ arguments. All (λ a. a.global ≡ false) arguments.items) }
{
    let statement = "What begins a line that is a statement; nothing if not given";
    let comment = "What begins a comment that ends with its line; nothing if not given";
    Ok(vec![in alloc;
        text_option(alloc, "line-statement", "PREFIX", statement),
        text_option(alloc, "line-comment", "PREFIX", comment),
        text_option(
            alloc,
            "block-start",
            "TEXT",
            "What blocks begin with; `{%` if not given"
        ),
        text_option(
            alloc,
            "block-end",
            "TEXT",
            "What blocks end with; `%}` if not given"
        ),
        text_option(
            alloc,
            "variable-start",
            "TEXT",
            "What prints begin with; `{{` if not given"
        ),
        text_option(
            alloc,
            "variable-end",
            "TEXT",
            "What prints end with; `}}` if not given"
        ),
        text_option(
            alloc,
            "comment-start",
            "TEXT",
            "What comments begin with; `{#` if not given"
        ),
        text_option(
            alloc,
            "comment-end",
            "TEXT",
            "What comments end with; `#}` if not given"
        ),
    ]?)
}
