//! Laws of memory alone, as contracts of functions that do nothing.
ghost use Rattle.mem_image.specs.Laws.{WordsAreReadBack, OtherWordsStay, WritesCommute, WritesKeepPlaces, OpeningIsWhole, WordsAreBytes, ViewsAreKept, LinesHoldWords};

/// What was written is read back; it changes no word that shares no byte with it; two writes that share no byte may
/// change places; and a write keeps memory whole and moves no global. All accesses are valid.
pub fn writes_are_kept()
    ensures back { WordsAreReadBack }
    ensures others { OtherWordsStay }
    ensures commute { WritesCommute }
    ensures places { WritesKeepPlaces }
{}

/// The memory that a run begins with is whole. A word is what its bytes are, and memory is no more than its bytes and the
/// places of its globals. What is seen through bytes that were written is memory with these in place, and lines of a transaction
/// hold them.
pub fn words_are_bytes()
    ensures opening { OpeningIsWhole }
    ensures bytes { WordsAreBytes }
    ensures views { ViewsAreKept }
    ensures lines { LinesHoldWords }
{}
