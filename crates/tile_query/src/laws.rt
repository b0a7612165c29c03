//! Laws of answers: functions with nothing to do, whose contracts say what holds over all bytes.
ghost use Rattle.tile_query.specs.Laws.{OneAnswerLaw, ToldLaw};

/// Two answers to one question over the same bytes are equal.
pub fn one_answer()
    ensures { OneAnswerLaw }
{}

/// Where the bytes are a tile with a mesh in metres, every answer tells something.
pub fn told_where_read()
    ensures { ToldLaw }
{}
