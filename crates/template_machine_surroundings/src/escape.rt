//! Which escape a template's name stands for.

ghost use Rattle.std.specs.Prelude.{◌≡◌, ℕ, List};
ghost use Rattle.template_machine_surroundings.specs.Rule.{IsEscapeOf, IsExtensionOf, IsRuleOf, IsStemOf, rule_of_extension};

use template_values_errors::AutoEscape;

/// How the escape of a template comes of its name.
#[derive(Clone, Copy, Debug, PartialEq, Eq)]
pub enum EscapeRule {
    /// The ending of the name decides, as [`default_auto_escape_callback`] says.
    ByName,
    /// There is none, whatever the name.
    Never,
    /// It is this one, whatever the name.
    Fixed(AutoEscape),
}

impl EscapeRule {
    /// The escape of a name. Takes time linear in the name, and no memory.
    pub fn escape(self, name: &str) -> AutoEscape
        ensures { IsEscapeOf self name.now result }
    {
        match self {
            EscapeRule::ByName => default_auto_escape_callback(name),
            EscapeRule::Never => AutoEscape::None,
            EscapeRule::Fixed(escape) => escape,
        }
    }
}

/// A rule of a caller's own that gives the escape of a name. Its answer is a function of the name alone.
pub trait AutoEscapeRule: Drop {
    ghost use Rattle.template_values_errors.specs.declared.modes.AutoEscape.{AutoEscape};

    /// The answer for each name.
    ghost answer: { Self → List ℕ → AutoEscape };

    /// The escape of a template by its name.
    fn rule(&self, name: &str) -> AutoEscape
        ensures { result ≡ answer self.now name.now };
}

/// The rule where a caller has none of its own: nothing is escaped, whatever the name.
#[derive(Drop)]
pub struct NoRule;

impl AutoEscapeRule for NoRule {
    ghost use Rattle.template_values_errors.specs.declared.modes.AutoEscape.TheVariants as escapes;

    ghost answer = { λ rule name. escapes.None };

    fn rule(&self, _name: &str) -> AutoEscape {
        AutoEscape::None
    }
}

/// The escape of a template by its name: after one final `.j2`, `.jinja2` or `.jinja` is taken away,
/// what follows the last dot decides (the whole name, where it has none). `html`, `htm` and `xml` are
/// [`AutoEscape::Html`], `json`, `json5`, `js`, `yaml` and `yml` are [`AutoEscape::Json`], all else is
/// [`AutoEscape::None`]. Takes time linear in the name, and no memory.
pub fn default_auto_escape_callback(name: &str) -> AutoEscape
    ensures { IsRuleOf name.now result }
{
    rule_by_extension(extension(stem(name)))
}

/// A name has no two escapes.
pub fn one_rule()
    ensures { (name : List ℕ) (rule other : AutoEscape) → IsRuleOf name rule → IsRuleOf name other → rule ≡ other }
{}

/// Nor has it under a rule.
pub fn one_escape()
    ensures { (rule : EscapeRule) (name : List ℕ) (escape other : AutoEscape) →
        IsEscapeOf rule name escape → IsEscapeOf rule name other → escape ≡ other }
{}

// The name less one ending that says that it is a template.
fn stem(name: &str) -> &str
    ensures { IsStemOf name.now result.now }
{
    if let Some(stem) = name.strip_suffix(".j2") {
        return stem;
    }
    if let Some(stem) = name.strip_suffix(".jinja2") {
        return stem;
    }
    if let Some(stem) = name.strip_suffix(".jinja") {
        return stem;
    }
    name
}

// What follows the last dot, or the whole where there is none.
fn extension(stem: &str) -> &str
    ensures { IsExtensionOf stem.now result.now }
{
    match stem.rfind('.') {
        Some(dot) => stem.split_at(dot + 1).1,
        None => stem,
    }
}

fn rule_by_extension(extension: &str) -> AutoEscape
    ensures { result ≡ rule_of_extension extension.now }
{
    if ["html", "htm", "xml"].contains(&extension) {
        return AutoEscape::Html;
    }
    if ["json", "json5", "js", "yaml", "yml"].contains(&extension) {
        return AutoEscape::Json;
    }
    AutoEscape::None
}
