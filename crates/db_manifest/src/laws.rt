//! What the definitions that contracts cite come to, in the words of the subject. Each law is what a function
//! with an empty body ensures.
ghost use Rattle.db_manifest.specs.Laws.{VersionIsThree, FitsByMembers, ManifestsDiffer, OneBadLine, RefusedAreNone};

/// The text of a manifest is of version 3.
pub fn version_is_three()
    ensures { VersionIsThree }
{}

/// Rows are as what is under way has them exactly where a key that is put is one of them, and one that is dropped is
/// not.
pub fn fits_by_members()
    ensures { FitsByMembers }
{}

/// Different good manifests have different texts.
pub fn manifests_differ()
    ensures { ManifestsDiffer }
{}

/// Bytes have at most one line for which they are refused.
pub fn one_bad_line()
    ensures { OneBadLine }
{}

/// Bytes that are refused are the text of no good manifest.
pub fn refused_are_none()
    ensures { RefusedAreNone }
{}
