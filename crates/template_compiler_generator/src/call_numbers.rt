//! The numbers under which a stream knows the filters and the tests that it names.

ghost use Rattle.template_compiler_generator.specs.NumberLaws.{NumbersRunAlike};

/// A law, as the contract of a function that does nothing: code does the same with its numbers as without them.
pub fn numbers_run_alike()
    ensures { NumbersRunAlike }
{}
