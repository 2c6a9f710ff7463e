ghost use Rattle.ir_types.specs.Examples.{IntegersTake, ArraysTake, StructsTake, NamesTake, BlocksFit, FieldsBegin};
ghost use Rattle.ir_types.specs.Laws.{LayoutsAreComputed, LayoutsAreOne, NamesAreStructs, PointersHaveLayouts};
ghost use Rattle.ir_types.specs.Laws.{SizesAreMultiples, AlignsArePowers, FieldsLieInside, FieldsAreApart, ElementsLieInside, PartsFit};
ghost use Rattle.ir_types.specs.Held.{HeldTypesAreSized, NoneHoldsItself, UnsizedTypesHoldOne};

/// Empty on purpose: its contract is the law.
///
/// A type has one layout at most, and where it has one it is the one that definitions compute. A named type has that of its struct,
/// and none where it is opaque or unknown; a pointer has one, whatever it points to.
pub fn layouts_are_computed()
    ensures computed { LayoutsAreComputed }
    ensures one { LayoutsAreOne }
    ensures names { NamesAreStructs }
    ensures pointers { PointersHaveLayouts }
{}

/// Empty on purpose: its contract is the law.
///
/// What a type with a layout holds outside of pointers has one too, and no type has one that holds itself. A type has none exactly where it
/// is `void`, opaque, unknown or holds itself, or holds such a one.
pub fn sized_types_hold_sized()
    ensures held { HeldTypesAreSized }
    ensures itself { NoneHoldsItself }
    ensures reason { UnsizedTypesHoldOne }
{}

/// Empty on purpose: its contract is the law.
///
/// A size is a multiple of its alignment, which is a power of two. Fields and elements lie inside, at multiples of their alignment, and apart;
/// what lies inside of what makes a block makes one.
pub fn parts_lie_inside()
    ensures multiples { SizesAreMultiples }
    ensures powers { AlignsArePowers }
    ensures fields { FieldsLieInside }
    ensures apart { FieldsAreApart }
    ensures elements { ElementsLieInside }
    ensures parts { PartsFit }
{}

/// Empty on purpose: its contract is the law.
///
/// Sizes and alignments of integers, arrays, structs and named types, blocks and offsets, worked out by hand.
pub fn examples_of_layouts()
    ensures integers { IntegersTake }
    ensures arrays { ArraysTake }
    ensures structs { StructsTake }
    ensures names { NamesTake }
    ensures blocks { BlocksFit }
    ensures fields { FieldsBegin }
{}
