ghost use Rattle.definedness.specs.Laws.{FirstUndefinedIsOne, ShapeKnowsLabels, UndefinedUsesAreFaults};

/// Empty on purpose: its contract is the law.
///
/// A function with shape may be asked whether it is defined, and which of its blocks are reached.
pub fn shape_knows_labels()
    ensures { ShapeKnowsLabels }
{}

/// Empty on purpose: its contract is the law.
///
/// A function with shape that has a first use that isn't defined isn't defined: what `defined` tells is one or the other.
pub fn undefined_uses_are_faults()
    ensures { UndefinedUsesAreFaults }
{}

/// Empty on purpose: its contract is the law.
///
/// A function whose labels are known has at most one first use that isn't defined, with one first path: `defined` tells it and no other.
pub fn first_undefined_is_one()
    ensures { FirstUndefinedIsOne }
{}
