//! What the definitions that contracts cite come to, in the words of the subject. Each law is what a function
//! with an empty body ensures.
ghost use Rattle.manifest_lines.specs.Laws.{LinesDiffer, VersionIsFirstLine, TextsTellVersions, ManifestsDiffer};
ghost use Rattle.manifest_lines.specs.Laws.{OneBadLine, RefusedAreNone};

use crate::Row;

/// Different lines make different texts.
pub fn lines_differ()
    ensures { LinesDiffer }
{}

/// Bytes are of a version exactly where its first line, line feed and all, stands at their front.
pub fn version_is_first_line()
    ensures { VersionIsFirstLine }
{}

/// The text of a manifest is of the manifest's version.
pub fn texts_tell_versions<R: Row>()
    ensures { TextsTellVersions R.grammar }
{}

/// Different manifests of a version have different texts.
pub fn manifests_differ<R: Row>()
    ensures { ManifestsDiffer R.grammar }
{}

/// Bytes have at most one line for which they are refused.
pub fn one_bad_line<R: Row>()
    ensures { OneBadLine R.grammar }
{}

/// Bytes that are refused are the text of no manifest.
pub fn refused_are_none<R: Row>()
    ensures { RefusedAreNone R.grammar }
{}
