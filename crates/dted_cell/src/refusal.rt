// Why a file is no cell.
use thiserror::Error;

/// Why a file is no cell. Offsets count from the end of the lead. Columns count from the west and rows
/// from the south, from 0.
#[derive(Clone, Copy, Debug, Error, PartialEq, Eq)]
pub enum CellRefusal {
    /// The file has fewer bytes than the header, or the header and its records, need. The lead counts.
    #[error("too short: need {need}, have {have}")]
    TooShort { need: u64, have: u64 },
    /// No user header label follows the lead.
    #[error("no UHL")]
    NoUhl,
    /// The field at this offset is not what stands there in a header.
    #[error("bad field at {offset}")]
    BadField { offset: u16 },
    /// The origin is no corner of a square of one degree.
    #[error("off degree")]
    OffDegree,
    /// The intervals are not those of a level at this latitude.
    #[error("wrong spacing")]
    WrongSpacing,
    /// The counts are not the columns and rows of the level at this latitude.
    #[error("wrong counts")]
    WrongCounts,
    /// No data set identification follows the user header label.
    #[error("no DSI")]
    NoDsi,
    /// The series designator is not that of the level.
    #[error("series disagrees")]
    SeriesDisagrees,
    /// The horizontal datum is not WGS84.
    #[error("not WGS84")]
    NotWgs84,
    /// No accuracy description follows the data set identification.
    #[error("no ACC")]
    NoAcc,
    /// A record does not begin with the byte AA.
    #[error("bad sentinel in column {col}")]
    BadSentinel { col: u16 },
    /// A record's longitude count is not its column.
    #[error("bad column {col}")]
    BadColumn { col: u16 },
    /// A record's checksum is not the sum of its bytes.
    #[error("bad checksum in column {col}: {stated} stated, {summed} summed")]
    BadChecksum { col: u16, stated: u32, summed: u32 },
    /// An elevation that is no void is beyond 16000 metres.
    #[error("height {value} out of range in column {col}, row {row}")]
    HeightOutOfRange { col: u16, row: u16, value: i16 },
}
