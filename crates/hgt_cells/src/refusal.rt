// Why a file is no HGT file.
use thiserror::Error;

/// Why a file is no HGT file. Lines count from the north and places on a line from the west, from 0.
#[derive(Clone, Copy, Debug, Error, PartialEq, Eq)]
pub enum HgtRefusal {
    /// The file has neither the bytes of 1201 lines nor those of 3601.
    #[error("bad length: {have}")]
    BadLength { have: u64 },
    /// A sample that is no void is beyond 16000 metres.
    #[error("height {value} out of range on line {line}, place {place}")]
    HeightOutOfRange { line: u16, place: u16, value: i16 },
}
