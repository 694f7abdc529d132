//! Laws over the definitions, on functions that do nothing.

ghost use Rattle.drm_parse.specs.Spelling.{IsJudgedAsSpelled, SpellsOne};
ghost use Rattle.drm_journal.specs.Journal.{judge_journal};
ghost use Rattle.drm_journal.specs.JournalGrammar.{SpellsJournal};

/// The definition that tells the first fault of a text accepts exactly the texts of the grammar, as what they spell.
pub fn journals_are_judged_as_spelled()
    ensures { IsJudgedAsSpelled judge_journal SpellsJournal }
{}

/// A text spells at most one journal.
pub fn a_text_spells_one_journal()
    ensures { SpellsOne SpellsJournal }
{}
