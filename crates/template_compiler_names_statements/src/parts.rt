//! The names in parts of statements that hold no statements.
ghost use Rattle.std.specs.Prelude.{◌≡◌, not, ◌&&◌, ◌||◌, OnOk, codes};
ghost use Rattle.template_compiler_tree.specs.View.{arguments_in, expression_of, optional_in};
ghost use Rattle.template_compiler_names.specs.Names.{is_stored_in, place_if_given, place_in, place_in_arguments, place_in_target};
ghost use Rattle.template_compiler_names.specs.Among.{just, nothing};
ghost use Rattle.template_compiler_names.specs.Goes.{Goes};

use crate::{assign_target, use_arguments, use_expression, use_optional};
use std::alloc::AllocError;
use template_compiler_names::Names;
use template_compiler_tree::Call;
use template_compiler_tree_statements::{ForLoop, SetBlock};

// A loop's target, its filter, and the name that is stored in its body.
#[inline(always)]
pub(crate) fn begin_loop<'source>(
    names: &mut Names<'source>,
    node: &ForLoop<'source>,
) -> Result<(), AllocError>
    ensures { OnOk result (Goes (λ places. place_in_target places (expression_of node.now.target)
        || not (is_stored_in places.name (expression_of node.now.target)) && place_if_given places (optional_in node.now.filter_expr))
        (λ name. is_stored_in name (expression_of node.now.target) || just (codes "loop") name) names.old names.new) }
{
    assign_target(names, &node.target)?;
    use_optional(names, &node.filter_expr)?;
    names.store_loop()
}

// The filter and the target of a block that is set.
pub(crate) fn end_set_block<'source>(
    names: &mut Names<'source>,
    node: &SetBlock<'source>,
) -> Result<(), AllocError>
    ensures { OnOk result (Goes (λ places. place_if_given places (optional_in node.now.filter)
        || place_in_target places (expression_of node.now.target))
        (λ name. is_stored_in name (expression_of node.now.target)) names.old names.new) }
{
    use_optional(names, &node.filter)?;
    assign_target(names, &node.target)
}

// What is called, and the arguments that are passed.
pub(crate) fn use_call<'source>(
    names: &mut Names<'source>,
    call: &Call<'source>,
) -> Result<(), AllocError>
    ensures { OnOk result (Goes (λ places. place_in places (expression_of call.now.expr)
        || place_in_arguments places (arguments_in call.now.args.items)) nothing names.old names.new) }
{
    use_expression(names, &call.expr)?;
    use_arguments(names, &call.args)
}
