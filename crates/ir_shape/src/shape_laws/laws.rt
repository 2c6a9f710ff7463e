ghost use Rattle.ir_shape.specs.ShapeLaws.Laws.{EndsAreOne, EndsOfFunctionsAreOne, FaultlessModulesHaveShape, ShapelyModulesAreFaultless, FaultlessFunctionsHaveShape, ShapelyFunctionsAreFaultless};
ghost use Rattle.ir_shape.specs.ShapeLaws.Laws.{FittingLinesHaveNone, OperandsOfNoInteger, ConditionsAndArms, Conversions, Results, Phis, EnteredEntries, Branches, Cases, NamedTypes, StatedTypes, Names, Labels, Operands, Registers};
ghost use Rattle.ir_shape.specs.ShapeLaws.Laws.{Accesses, Addresses, Calls, Declarations, DeclarationsComeInOrder, Globals, RecursiveCalls, UsesOfAddresses};
ghost use Rattle.ir_shape.specs.ShapeLaws.Laws.{LinesComeBeforeEnds, NamesComeBeforeLines, TypesComeFirst, FunctionsComeInOrder, KindsComeInOrder};

/// Empty on purpose: its contract is the law.
///
/// A module without fault has shape.
pub fn faultless_modules_have_shape()
    ensures { FaultlessModulesHaveShape }
{}

/// Empty on purpose: its contract is the law.
///
/// A module that has shape has no fault.
#[tactic(auto, using(crate::proofs::ShapeLaws::Shapely::shapely_modules_are_faultless))]
pub fn modules_with_shape_are_faultless()
    ensures { ShapelyModulesAreFaultless }
{}

/// Empty on purpose: its contract is the law.
///
/// A function beside a module whose functions have different names has no fault exactly where it has shape.
pub fn functions_have_shape_or_a_fault()
    ensures faultless { FaultlessFunctionsHaveShape }
    ensures shapely { ShapelyFunctionsAreFaultless }
{}

/// Empty on purpose: its contract is the law.
///
/// One end at most that isn't want of memory is a module's, or a function's beside a module.
#[tactic(auto, using(crate::proofs::ShapeLaws::OneEnd::ends_are_one, crate::proofs::ShapeLaws::OneEnd::ends_of_functions_are_one))]
pub fn ends_are_one()
    ensures modules { EndsAreOne }
    ensures functions { EndsOfFunctionsAreOne }
{}

/// Empty on purpose: its contract is the law.
///
/// What is at fault in a line, a terminator, a label and a name, and that nothing is where all fit.
pub fn examples_of_shape_faults()
    ensures none { FittingLinesHaveNone }
    ensures integers { OperandsOfNoInteger }
    ensures arms { ConditionsAndArms }
    ensures conversions { Conversions }
    ensures results { Results }
    ensures phis { Phis }
    ensures entries { EnteredEntries }
    ensures branches { Branches }
    ensures cases { Cases }
    ensures names { Names }
    ensures labels { Labels }
    ensures operands { Operands }
    ensures registers { Registers }
{}

/// Empty on purpose: its contract is the law.
///
/// What is at fault in a named type: its name, where an earlier one has it, and a name in it that none has; and that such a name is at fault
/// wherever it stands.
pub fn examples_of_type_faults()
    ensures named { NamedTypes }
    ensures stated { StatedTypes }
{}

/// Empty on purpose: its contract is the law.
///
/// What is at fault in a global, a declaration, an access to memory, an address and a call; and in which order globals and declarations come.
pub fn examples_of_memory_faults()
    ensures globals { Globals }
    ensures declarations { Declarations }
    ensures order { DeclarationsComeInOrder }
    ensures accesses { Accesses }
    ensures addresses { Addresses }
    ensures uses { UsesOfAddresses }
    ensures calls { Calls }
    ensures recursion { RecursiveCalls }
{}

/// Empty on purpose: its contract is the law.
///
/// The first place decides: a line before a terminator, a name before the lines, a function before the next one's name, and a named type
/// before each function. At one place the first kind does.
pub fn examples_of_order()
    ensures ends { LinesComeBeforeEnds }
    ensures names { NamesComeBeforeLines }
    ensures types { TypesComeFirst }
    ensures functions { FunctionsComeInOrder }
    ensures kinds { KindsComeInOrder }
{}
