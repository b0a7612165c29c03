// The versions of the manifest.
ghost use Rattle.std.specs.Prelude.{◌≡◌, ◌≢◌, ◌++◌, List, ℕ, IfSome, IfNone};
ghost use Rattle.manifest_lines.specs.Version.{first_line, version_in};

/// A version of the manifest, which its first line tells.
#[derive(Clone, Copy, Debug, PartialEq, Eq)]
pub enum Version {
    /// A square has one cell.
    One,
    /// A square has a cell of each level.
    Two,
    /// Tiles have a certified horizon.
    Three,
}

// The first line, with its line feed.
fn first_bytes(version: Version) -> &'static [u8]
    ensures { result.now ≡ first_line version }
{
    match version {
        Version::One => b"terrain-db 1\n",
        Version::Two => b"terrain-db 2\n",
        Version::Three => b"terrain-db 3\n",
    }
}

// What follows the first line, where it is that of the version.
pub(crate) fn take_version(bytes: &[u8], version: Version) -> Option<&[u8]>
    ensures some { IfSome result (λ rest. bytes.now ≡ first_line version ++ rest.now) }
    ensures none { IfNone result ((rest : List ℕ) → bytes.now ≢ first_line version ++ rest) }
{
    bytes.strip_prefix(first_bytes(version))
}

/// The version that the first line tells, 1, 2 or 3. `None` exactly where it is the first line of no version, or lacks
/// its line feed.
pub fn manifest_version(bytes: &[u8]) -> Option<u32>
    ensures { result ≡ version_in bytes.now }
{
    if bytes.starts_with(first_bytes(Version::One)) {
        return Some(1);
    }
    if bytes.starts_with(first_bytes(Version::Two)) {
        return Some(2);
    }
    if bytes.starts_with(first_bytes(Version::Three)) {
        return Some(3);
    }
    None
}
