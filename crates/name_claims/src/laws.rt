ghost use Rattle.name_claims.specs.Laws.{TwiceComesBeforeWrongNumber, PlacesComeBeforeRanks, LabelsAreOfNoType, LabelsNameBlocks, RegistersAreNoLabels};

/// Empty on purpose: its contract is the law.
///
/// Of two faults at one place a name that is defined twice comes before a wrong number; of two places the first one decides, also
/// where its fault is of a later kind; and a block's name that is used as a value is known, but is of the wrong type,
/// as a register's name is that is used as a label.
pub fn examples_of_faults()
    ensures rank { TwiceComesBeforeWrongNumber }
    ensures place { PlacesComeBeforeRanks }
    ensures label { LabelsAreOfNoType }
    ensures jump { RegistersAreNoLabels }
    ensures unknown { LabelsNameBlocks }
{}
