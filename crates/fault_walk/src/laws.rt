ghost use Rattle.fault_walk.specs.First.{NoneIsNotedOfNone, NotedComeFirst};

/// Empty on purpose: its contract is the law.
///
/// None is noted exactly of no faults. What is noted of some is one of them, and none of them comes before it.
pub fn noted_faults_come_first()
    ensures none { NoneIsNotedOfNone }
    ensures first { NotedComeFirst }
{}
