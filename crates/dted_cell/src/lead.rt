// The tape labels before a cell's header.
ghost use Rattle.std.specs.Prelude.{◌≡◌, ◌+◌, ◌*◌, ◌<◌, ◌≤◌, length};
ghost use Rattle.std.specs.List.{prefix_len, range_with_len};
ghost use Rattle.dted_cell.specs.Lead.{is_label, lead_of, text_behind_lead};

use crate::field::has_word;

// Whether a block of 80 bytes is whole and begins with `VOL` or `HDR`.
fn has_label(bytes: &[u8], block: usize) -> bool
    requires { block < 4 }
    ensures { result ≡ is_label bytes.now block }
{
    let at = 80 * block;
    at + 80 <= bytes.len() && (has_word(bytes, at, b"VOL") || has_word(bytes, at, b"HDR"))
}

// How many blocks of labels stand before the header, at most four.
fn labels(bytes: &[u8]) -> usize
    ensures exact { result ≡ prefix_len (is_label bytes.now) (range_with_len 0 4) }
    ensures few { result ≤ 4 }
{
    (0..4).take_while(|block| has_label(bytes, *block)).count()
}

// How many bytes of labels stand before the header.
#[tactic(auto, using(crate::proofs::Leads::lead_within), unfolding(crate::specs::Lead::lead_of))]
pub(crate) fn lead(bytes: &[u8]) -> usize
    ensures exact { result ≡ lead_of bytes.now }
    ensures within { result ≤ length bytes.now }
    ensures small { result ≤ 320 }
{
    80 * labels(bytes)
}

// What follows the lead.
#[tactic(auto, unfolding(crate::specs::Lead::text_behind_lead))]
pub(crate) fn behind(bytes: &[u8], lead: usize) -> &[u8]
    requires is_lead { lead ≡ lead_of bytes.now }
    requires within { lead ≤ length bytes.now }
    ensures text { result.now ≡ text_behind_lead bytes.now }
    ensures length { length result.now + lead ≡ length bytes.now }
{
    &bytes[lead..]
}
