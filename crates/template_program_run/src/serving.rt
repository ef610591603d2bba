//! What requests are served with, by the words.
ghost use Rattle.std.specs.Prelude.{◌≡◌, map, option_map, unwrap_or};
ghost use Rattle.template_compiler_syntax.specs.Syntax.{default_syntax};
ghost use Rattle.template_program_run.specs.Asked.{output_word, rule_named as rule_of, served_by, syntax_set, syntax_words as syntax_in};
ghost use Rattle.template_program_run.specs.Expressions.{asked_in, asked_so, expression_word};
ghost use Rattle.template_program_run.specs.Served.{served_under};
ghost use Rattle.template_program_run.specs.Values.{value_texts};

use crate::evaluating::Expression;
use crate::options::Options;
use template_compiler_syntax::SyntaxConfig;
use template_machine_surroundings::EscapeRule;
use template_program_words::{Definition, EscapeWord, SyntaxWords, Words};
use template_values_errors::AutoEscape;

/// The options that the words ask for, with the syntax that they set.
pub(crate) fn options_of<'a>(words: &Words<'_>, syntax: Option<&'a SyntaxConfig>) -> Options<'a>
    requires { unwrap_or (option_map (λ given. given.now) syntax) default_syntax ≡ syntax_set (syntax_in words.now) }
    ensures { served_under result ≡ served_by words.now }
{
    match words {
        Words::Render(words) => Options {
            builtins: words.builtins,
            escapes: rule_named(words.autoescape),
            syntax,
            names_as_json: false,
            tells_where: words.tells_where,
            leaves_context: true,
        },
        Words::Names(words) => Options {
            builtins: words.builtins,
            escapes: EscapeRule::ByName,
            syntax,
            names_as_json: words.json,
            tells_where: words.tells_where,
            leaves_context: false,
        },
        Words::Check(words) => Options {
            builtins: words.builtins,
            escapes: EscapeRule::ByName,
            syntax,
            names_as_json: false,
            tells_where: false,
            leaves_context: false,
        },
    }
}

fn rule_named(word: EscapeWord) -> EscapeRule
    ensures { result ≡ rule_of word }
{
    match word {
        EscapeWord::None => EscapeRule::Never,
        EscapeWord::Html => EscapeRule::Fixed(AutoEscape::Html),
        EscapeWord::Json => EscapeRule::Fixed(AutoEscape::Json),
        EscapeWord::Name => EscapeRule::ByName,
    }
}

/// The path of the file that is written in place of the output, if the words name one.
pub(crate) fn output_of<'a>(words: &Words<'a>) -> Option<&'a str>
    ensures { option_map (λ path. path.now) result ≡ output_word words.now }
{
    match words {
        Words::Render(words) => words.output,
        Words::Names(words) => words.output,
        Words::Check(_) => None,
    }
}

/// The words that set the syntax.
pub(crate) fn syntax_words<'a, 'b>(words: &'b Words<'a>) -> &'b SyntaxWords<'a>
    ensures { result.now ≡ syntax_in words.now }
{
    match words {
        Words::Render(words) => &words.syntax,
        Words::Names(words) => &words.syntax,
        Words::Check(words) => &words.syntax,
    }
}

/// The values that are given as JSON.
pub(crate) fn values_of<'a, 'b>(words: &'b Words<'a>) -> &'b [Definition<'a>]
    ensures { map (λ value. value.text.now) result.now ≡ value_texts words.now }
{
    match words {
        Words::Render(words) => words.values.as_slice(),
        Words::Names(_) | Words::Check(_) => &[],
    }
}

/// The expression that the words ask for, if they do.
pub(crate) fn expression_of<'a>(words: &Words<'a>) -> Option<Expression<'a>>
    ensures { option_map asked_in result ≡ expression_word words.now }
{
    match words {
        Words::Render(words) => wanted(words.expression, words.as_json),
        Words::Names(_) | Words::Check(_) => None,
    }
}

fn wanted<'a>(text: Option<&'a str>, as_json: bool) -> Option<Expression<'a>>
    ensures { option_map asked_in result ≡ option_map (asked_so as_json) text.entry }
{
    match text {
        Some(text) => Some(Expression { text, as_json }),
        None => None,
    }
}
