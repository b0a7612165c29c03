//! First lines.
use super::*;

#[test]
fn the_first_line_tells_the_version(rt: HostRuntime) {
    for (version, text) in [
        (Some(1), "terrain-db 1\n"),
        (Some(2), "terrain-db 2\ncap 15\n"),
        (
            Some(3),
            "terrain-db 3\ncap 9\nfill 0\nstate closed\ncells 0\n",
        ),
        (None, "terrain-db 3"),
        (None, "terrain-db 4\n"),
        (None, "terrain-db 3\r\n"),
        (None, ""),
    ] {
        assert_eq!(rt; manifest_version(text.as_bytes()), version, "{text}");
    }
}
