//! Laws over the definitions, on functions that do nothing.

ghost use Rattle.drm_rules.specs.Conforms.{TellsBroken, TellsLeastFirst, TellsNoneWhereKept};

/// Proves that what is told as broken is what is broken, and that nothing is told exactly where a log keeps all rules.
/// What is told first is of the least line that breaks a rule.
pub fn answers_are_exact()
    ensures broken { TellsBroken }
    ensures kept { TellsNoneWhereKept }
    ensures first { TellsLeastFirst }
{}
