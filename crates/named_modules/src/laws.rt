ghost use Rattle.named_modules.specs.Laws.{FaultlessTreesNameWhatIsBuilt, NamedTreesAreFaultless};

/// Empty on purpose: its contract is the law.
///
/// Where nothing is at fault in a tree and none of its functions passes the limit of lines, the tree names the module that is built of it.
pub fn faultless_trees_name_what_is_built()
    ensures { FaultlessTreesNameWhatIsBuilt }
{}

/// Empty on purpose: its contract is the law.
///
/// Where a tree names a module, it is the one that is built of the tree, and nothing is at fault in the tree. So a tree within the limit
/// names one module or has a fault, and never both.
pub fn named_trees_are_faultless()
    ensures { NamedTreesAreFaultless }
{}
