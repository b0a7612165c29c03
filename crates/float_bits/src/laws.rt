//! The laws of patterns (IEEE 754-2019, 3.4): functions with nothing to do, whose contracts say what holds of all
//! numbers.
ghost use Rattle.float_bits.specs.Laws.{OnePatternLaw, OneNumberLaw, PatternLaw, WidthLaw};

/// At most one pattern stands for a number.
pub fn one_pattern()
    ensures { OnePatternLaw }
{}

/// A pattern stands for at most one number.
pub fn one_number()
    ensures { OneNumberLaw }
{}

/// Each number of the formats has a pattern: for whole numbers below 2^53 in size over a power of two up to 2^63,
/// and for whole numbers below 2^24 in size.
pub fn pattern()
    ensures { PatternLaw }
{}

/// A pattern is below 2^64, and one of a whole number in binary32 below 2^32.
pub fn width()
    ensures { WidthLaw }
{}
