// Numbers in a tile, little-endian.
ghost use Rattle.std.specs.Prelude.{◌≡◌, ◌+◌, ◌^◌, ◌<◌, ◌≤◌, ◌++◌, length, OnOk};
ghost use Rattle.byteorder.specs.Endian.{little_bytes};
ghost use Rattle.mesh_codec.specs.Number.{number_at};

use byteorder::{ByteOrder, LittleEndian};
use terrain_base::NoMemory;

/// The number of two bytes at a place.
#[tactic(auto, unfolding(crate::specs::Number::number_at))]
pub(crate) fn short(bytes: &[u8], at: usize) -> u16
    requires { at + 2 ≤ length bytes.now }
    ensures { result ≡ number_at 2 bytes.now at }
{
    LittleEndian::read_u16(&bytes[at..])
}

/// The number of four bytes at a place.
#[tactic(auto, unfolding(crate::specs::Number::number_at))]
pub(crate) fn long(bytes: &[u8], at: usize) -> u32
    requires { at + 4 ≤ length bytes.now }
    ensures number { result ≡ number_at 4 bytes.now at }
    ensures few { result < 2 ^ 32 }
{
    LittleEndian::read_u32(&bytes[at..])
}

/// The number of eight bytes at a place.
#[tactic(auto, unfolding(crate::specs::Number::number_at))]
pub(crate) fn double(bytes: &[u8], at: usize) -> u64
    requires { at + 8 ≤ length bytes.now }
    ensures { result ≡ number_at 8 bytes.now at }
{
    LittleEndian::read_u64(&bytes[at..])
}

/// Adds a number of two bytes.
pub(crate) fn put_short(out: &mut Vec<u8>, n: u16) -> Result<(), NoMemory>
    ensures { OnOk result (out.new.items ≡ out.old.items ++ little_bytes 2 n) }
{
    out.extend_from_slice(&n.to_le_bytes())?;
    Ok(())
}

/// Adds a number of four bytes.
pub(crate) fn put_long(out: &mut Vec<u8>, n: u32) -> Result<(), NoMemory>
    ensures { OnOk result (out.new.items ≡ out.old.items ++ little_bytes 4 n) }
{
    out.extend_from_slice(&n.to_le_bytes())?;
    Ok(())
}

/// Adds a number of eight bytes.
pub(crate) fn put_double(out: &mut Vec<u8>, n: u64) -> Result<(), NoMemory>
    ensures { OnOk result (out.new.items ≡ out.old.items ++ little_bytes 8 n) }
{
    out.extend_from_slice(&n.to_le_bytes())?;
    Ok(())
}
