// The exported C functions on maps.
ghost use Rattle.std.specs.Prelude.{◌≡◌};
ghost use Rattle.abi.specs.Maps.{make_map_answer, judge_map_answer, read_mapped_answer};

#[unsafe(no_mangle)]
pub extern "C" fn brawnesk_map(image: &[u8], session: &[u8; 104], out: &mut [u8]) -> u64
    ensures { (result, out.new) ≡ make_map_answer image.now session.now out.old }
{
    abi::mapping::brawnesk_map(image, session, out)
}

#[unsafe(no_mangle)]
pub extern "C" fn brawnesk_judge_map(image: &[u8], session: &[u8; 104], map: &[u8]) -> u64
    ensures { result ≡ judge_map_answer image.now session.now map.now }
{
    abi::mapping::brawnesk_judge_map(image, session, map)
}

#[unsafe(no_mangle)]
pub extern "C" fn brawnesk_read_mapped(
    image: &[u8],
    session: &[u8; 104],
    table: &[u8],
    width: usize,
    map: &[u8],
    out: &mut [u8],
) -> u64
    ensures { (result, out.new) ≡ read_mapped_answer image.now session.now table.now width map.now out.old }
{
    abi::mapping::brawnesk_read_mapped(image, session, table, width, map, out)
}
