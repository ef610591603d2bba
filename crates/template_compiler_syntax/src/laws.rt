//! What the definition of segments gives.
ghost use Rattle.std.specs.Prelude.{◌≡◌, ℕ, List};
ghost use Rattle.template_compiler_syntax.specs.Syntax.{Syntax, IsUsable};
ghost use Rattle.template_compiler_tokens.specs.Token.{Token};
ghost use Rattle.template_compiler_syntax.specs.Segments.{HasNoStart, HasPieces, Piece};
ghost use Rattle.template_compiler_syntax.specs.Flat.{IsTokens, template_text, plain_tokens};

/// A source has one list of pieces.
pub fn one_list_of_pieces()
    ensures some { (x : Syntax) (s : List ℕ) → (pieces : List Piece) × HasPieces x s 0 pieces }
    ensures one { (x : Syntax) (s : List ℕ) (ps qs : List Piece) → IsUsable x → HasPieces x s 0 ps → HasPieces x s 0 qs → ps ≡ qs }
{}

/// A source has one list of tokens.
pub fn one_list_of_tokens()
    ensures some { (x : Syntax) (source : List ℕ) → (tokens : List Token) × IsTokens x source tokens }
    ensures one { (x : Syntax) (source : List ℕ) (ts us : List Token) → IsUsable x → IsTokens x source ts → IsTokens x source us → ts ≡ us }
{}

/// A text without a start marker is its own one data, less the newline at its end where the syntax does not keep it.
pub fn plain_text_is_its_own_data()
    ensures { (x : Syntax) (source : List ℕ) → HasNoStart x (template_text x source) 0 →
        IsTokens x source (plain_tokens (template_text x source)) }
{}
