//! The parser of templates: statements with their bodies.
//!
//! # What it reads
//!
//! Below, a word between quotes is a word of the source, `{ .. }` may stand any number of times, `[ .. ]` once or not at all,
//! and `|` parts what may stand instead. `TEXT` is text outside of tags, `name` an identifier that is no reserved word where
//! it is stored, `expr` an expression, `condition` one that is no if-expression, `filter` a filter's name with its arguments,
//! and `chain` filters, each behind a `|`. Each tag begins with `{%` and ends with `%}`, or is a line statement. The definition
//! that the contracts cite is `template_compiler_grammar::specs::TemplateGrammar`; this is the same for whoever reads the code.
//!
//! ```text
//! template     = statements
//! statements   = { statement }
//! statement    = TEXT | print | for | if | with | set | set_block | autoescape | filter_block | block
//!              | import | from | extends | include | macro | call_block | do | break | continue
//! ```
//!
//! A template is its statements up to the end of its source; the name of a block stands once in it. A body is one nesting
//! level deeper than its statement, and 150 levels are the most.
//!
//! ## What is printed
//!
//! ```text
//! print        = "{{" expr "}}"
//! ```
//!
//! - `{{ user.name|upper }}` prints the value.
//!
//! ## Loops
//!
//! ```text
//! for          = "for" targets "in" condition [ "if" expr ] [ "recursive" ] body [ else ] "endfor"
//! targets      = target { "," target }
//! target       = name | "(" targets ")"
//! else         = "else" body
//! ```
//!
//! - `{% for item in items %}{{ item }}{% endfor %}` goes over the items.
//! - `{% for key, value in pairs if value %}..{% else %}none{% endfor %}` unpacks each item, leaves some out, and has a body
//!   for the case that there is none.
//!
//! What a loop goes over is no if-expression, so that an `if` behind it is the condition on its items. In its body, `break`
//! and `continue` may stand; not so in its `else`, unless another loop is around it.
//!
//! ```text
//! break        = "break"
//! continue     = "continue"
//! ```
//!
//! ## Conditions
//!
//! ```text
//! if           = "if" expr body { "elif" expr body } [ else ] "endif"
//! ```
//!
//! - `{% if a %}A{% elif b %}B{% else %}C{% endif %}`
//!
//! An `elif` is the one statement of the other body of the condition before it, and no level deeper. So the tree of the line
//! above is the one of `{% if a %}A{% else %}{% if b %}B{% else %}C{% endif %}{% endif %}`.
//!
//! ## Names
//!
//! ```text
//! with         = "with" [ assignment { "," assignment } ] body "endwith"
//! assignment   = target "=" expr
//! set          = "set" paths "=" values
//! set_block    = "set" path [ chain ] body "endset"
//! paths        = path { "," path }
//! path         = name { "." name } | "(" paths ")"
//! values       = expr { "," expr }
//! ```
//!
//! - `{% with a = 1, b = 2 %}{{ a + b }}{% endwith %}` stores names for its body.
//! - `{% set total = total + 1 %}` stores a name; `{% set a, b = pair %}` unpacks; `{% set space.found = true %}` stores an
//!   attribute.
//! - `{% set title|upper %}Hello{% endset %}` stores the text of its body, through filters.
//!
//! Several values are a tuple, and several targets unpack one.
//!
//! ## Text
//!
//! ```text
//! autoescape   = "autoescape" expr body "endautoescape"
//! filter_block = "filter" filter [ chain ] body "endfilter"
//! ```
//!
//! - `{% autoescape false %}{{ html }}{% endautoescape %}` says how what is printed is escaped.
//! - `{% filter upper|trim %}text{% endfilter %}` sends the text of its body through filters.
//!
//! ## Templates from templates
//!
//! ```text
//! include      = "include" expr [ context ] [ "ignore" "missing" [ context ] ]
//! import       = "import" expr "as" name [ context ]
//! from         = "from" expr "import" imported { "," imported } [ context ]
//! imported     = name [ "as" name ]
//! context      = "with" "context"
//! extends      = "extends" expr
//! block        = "block" name [ "required" ] body "endblock" [ name ]
//! ```
//!
//! - `{% include "head.html" ignore missing %}` renders another template here.
//! - `{% import "forms.html" as forms %}` and `{% from "forms.html" import field, label as caption %}` take what a template
//!   exports.
//! - `{% extends "page.html" %}` and `{% block title %}..{% endblock title %}` fill the blocks of another template.
//!
//! `with context` changes nothing. A block stands in no macro, and in its body no loop is around; the name behind its
//! `endblock` is its own; the body of a required block is blank.
//!
//! ## Macros
//!
//! ```text
//! macro        = "macro" name "(" [ parameters ] ")" body "endmacro"
//! call_block   = "call" [ "(" [ parameters ] ")" ] call body "endcall"
//! do           = "do" call
//! parameters   = parameter { "," parameter }
//! parameter    = name [ "=" expr ]
//! call         = an expr that is a call
//! ```
//!
//! - `{% macro field(name, kind="text") %}<input name={{ name }} type={{ kind }}>{% endmacro %}` declares a macro. Behind an
//!   argument with a default, each has one.
//! - `{% call(row) table(rows) %}{{ row.name }}{% endcall %}` calls with its body as the macro `caller`.
//! - `{% do list.append(1) %}` calls, and prints nothing.
//!
//! In the body of a macro or of a call block no loop is around, whatever stands around it.
//!
//! # How it reads
//!
//! Each function reads one of the rules above, from what begins it to what ends it, and takes its tokens off the stream.
//! Which rule is next shows in the next one or two tokens: a text, a `{{`, or a `{%` and its word
//! ([`opening_named`](template_compiler_statement_makers::opening_named)). A word that begins no statement, such as `endif`,
//! ends a body, and whoever reads the statement around it looks for the word that it wants. So no token is read twice, and
//! nothing is given back.
//!
//! What calls itself stands here, in one cycle: a body is read by what reads a statement, which reads bodies. What a tag
//! holds is read elsewhere, from the word that begins it to its `%}`: `template_compiler_statement_heads` reads the heads of
//! loops, of conditions, of `with`, of `autoescape` and of filter blocks, `template_compiler_statement_heads` those of
//! what declares a name, and `template_compiler_statement_heads` the statements without a body. Expressions are read through
//! [`ReadsExpressions`](template_compiler_statement_parts::ReadsExpressions), so that the two parsers stand side by side.
//!
//! # What a contract says
//!
//! That what is answered is what the reader of `template_compiler_grammar` reads of the same tokens, tree and rest, or that
//! the refusal is the fault of the token at which the reader gives up. Want of memory may come instead of either. Of the
//! places of nodes nothing is said here.
#![tactic(auto)]

mod behind;
mod kinds;
mod statements;

pub use statements::read_statements;
