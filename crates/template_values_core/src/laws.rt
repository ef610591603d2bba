//! The laws of the order of values.
ghost use Rattle.std.specs.Cmp.{IsTotalOrder};
ghost use Rattle.template_values_core.specs.Order.{val_cmp};
ghost use Rattle.template_values_core.specs.OrderLaws.{Alike, KindsFirst, WithinKinds};

/// The order of values is total: kinds stand in their order, values of one kind by what they
/// hold, and some values that are not identical are equal. Does nothing.
pub fn order_laws()
    ensures total { IsTotalOrder val_cmp }
    ensures kinds { KindsFirst }
    ensures within { WithinKinds }
    ensures alike { Alike }
{}
