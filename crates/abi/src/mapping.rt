// The C functions on maps.
ghost use Rattle.std.specs.Prelude.{◌≡◌};
ghost use Rattle.abi.specs.Maps.{make_map_answer, judge_map_answer, read_mapped_answer};

use crate::after_check;
use encoding::answers::{amount_code, checked_code};
use encoding::bytes104;
use refusals::Refusal;

// The map of the session at the front of `out`. Done: its length.
pub fn brawnesk_map(image: &[u8], session: &[u8; 104], out: &mut [u8]) -> u64
    ensures { (result, out.new) ≡ make_map_answer image.now session.now out.old }
{
    if !bytes104::one_user(session) {
        return after_check(image, Refusal::SessionRules);
    }
    amount_code(maps::make_map(image, bytes104::session_in(session), out))
}

// Is that the map of the session? Done: 0.
pub fn brawnesk_judge_map(image: &[u8], session: &[u8; 104], map: &[u8]) -> u64
    ensures { result ≡ judge_map_answer image.now session.now map.now }
{
    if !bytes104::one_user(session) {
        return after_check(image, Refusal::SessionRules);
    }
    checked_code(maps::judge_map(image, bytes104::session_in(session), map))
}

// Copies the rows that the session may read to the front of `out`, by a map that is judged first. Done: how many.
pub fn brawnesk_read_mapped(
    image: &[u8],
    session: &[u8; 104],
    table: &[u8],
    width: usize,
    map: &[u8],
    out: &mut [u8],
) -> u64
    ensures { (result, out.new) ≡ read_mapped_answer image.now session.now table.now width map.now out.old }
{
    if !bytes104::one_user(session) {
        return after_check(image, Refusal::SessionRules);
    }
    let s = bytes104::session_in(session);
    amount_code(rows::read_mapped(image, s, table, width, map, out))
}
