//! Generated code is accepted by the check of streams: it has a certificate. And its pieces do what their walks do
//! wherever they stand. The functions do nothing: each stands for the law in its contract.

ghost use Rattle.template_compiler_generator.specs.Certificates.{TemplatesAreCertified, ExpressionsAreCertified, TemplatesGoOn, ExpressionsGoOn};
ghost use Rattle.template_compiler_generator.specs.Pieces.{ExpressionsPerformAnywhere, StatementsPerformAnywhere};

use template_compiler_code_shapes::{certified_is_good, good_goes_on};

/// The code of every runnable template has a certificate as a template's, so it is good.
pub fn templates_are_certified()
    ensures { TemplatesAreCertified }
{}

/// The code of every runnable expression has a certificate as an expression's, so it is good.
pub fn expressions_are_certified()
    ensures { ExpressionsAreCertified }
{}

/// The code of every runnable template performs the asks that follow on so many answers, whatever they are, within one
/// more than them times one more than its instructions.
pub fn templates_go_on()
    ensures { TemplatesGoOn }
{
    templates_are_certified();
    certified_is_good();
    good_goes_on();
}

/// The same of the code of every runnable expression.
pub fn expressions_go_on()
    ensures { ExpressionsGoOn }
{
    expressions_are_certified();
    certified_is_good();
    good_goes_on();
}

/// Wherever in a code the code of an expression stands, over whatever operands, it does there what its walk does,
/// whatever is told, and the code goes on behind it with the value on top.
pub fn expressions_perform_anywhere()
    ensures { ExpressionsPerformAnywhere }
{}

/// The same of the code of statements, over the same operands behind it as before it: where `break` or `continue` leads
/// out, the code does what the exits of the walk do.
pub fn statements_perform_anywhere()
    ensures { StatementsPerformAnywhere }
{}
