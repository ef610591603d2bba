//! What the definition of spans gives.
ghost use Rattle.std.specs.Prelude.{◌≡◌, ℕ, List};
ghost use Rattle.template_compiler_syntax.specs.Syntax.{Syntax, IsUsable};
ghost use Rattle.template_compiler_syntax.specs.Flat.{IsTokens};
ghost use Rattle.template_compiler_tokenizer.specs.Spans.{Spanned, words_in, HasSpans};

/// The tokens of a source with their spans are one list, and without the spans they are its tokens.
pub fn one_list_of_spans()
    ensures some { (x : Syntax) (source : List ℕ) → (tokens : List Spanned) × HasSpans x source tokens }
    ensures one { (x : Syntax) (source : List ℕ) (ts us : List Spanned) → IsUsable x → HasSpans x source ts → HasSpans x source us →
        ts ≡ us }
    ensures words { (x : Syntax) (source : List ℕ) (ts : List Spanned) → HasSpans x source ts → IsTokens x source (words_in ts) }
{}
