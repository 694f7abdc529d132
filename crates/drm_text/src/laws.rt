//! Laws over the definitions, on functions that do nothing.
ghost use Rattle.drm_text.specs.Laws.{BytesAreReadAsWritten, JoinedPartsAreCut, KeywordsAreReadAsWritten, NumbersAreReadAsWritten, PartsAreFree, PartsMakeTheText, WrittenBytesAreRead, WrittenKeywordsAreRead, WrittenNumbersAreRead};

/// Each number is spelled in one way: as it is written.
pub fn numbers_are_spelled_in_one_way()
    ensures read { NumbersAreReadAsWritten }
    ensures written { WrittenNumbersAreRead }
{}

/// Bytes are spelled in one way: as they are written.
pub fn bytes_are_spelled_in_one_way()
    ensures read { BytesAreReadAsWritten }
    ensures written { WrittenBytesAreRead }
{}

/// Each first word of a line is read where it is written, and no other word is.
pub fn keywords_are_spelled_in_one_way()
    ensures read { KeywordsAreReadAsWritten }
    ensures written { WrittenKeywordsAreRead }
{}

/// Cutting and joining at a separator undo one another: lines, words, and the pieces of a word.
pub fn parts_are_cut_as_joined()
    ensures joined { PartsMakeTheText }
    ensures free { PartsAreFree }
    ensures cut { JoinedPartsAreCut }
{}
