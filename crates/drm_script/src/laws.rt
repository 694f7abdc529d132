//! Laws over the definitions, on functions that do nothing.

ghost use Rattle.drm_parse.specs.Spelling.{IsJudgedAsSpelled, SpellsOne};
ghost use Rattle.drm_script.specs.Grammar.{SpellsScript};
ghost use Rattle.drm_script.specs.Run.{judge_run};
ghost use Rattle.drm_script.specs.RunGrammar.{SpellsRun};
ghost use Rattle.drm_script.specs.Script.{judge_script};

/// The definitions that tell the first fault of a text accept exactly the texts of the grammar, as what they spell.
pub fn texts_are_judged_as_spelled()
    ensures scripts { IsJudgedAsSpelled judge_script SpellsScript }
    ensures runs { IsJudgedAsSpelled judge_run SpellsRun }
{}

/// A text spells at most one script, and at most one script for threads.
pub fn a_text_spells_one()
    ensures script { SpellsOne SpellsScript }
    ensures run { SpellsOne SpellsRun }
{}
