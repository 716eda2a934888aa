// The C functions as the static library exports them: each calls the function of `abi` of its name, and states its clauses again.

#![tactic(auto)]

pub mod laying;
pub mod mapping;
pub mod moving;

ghost use Rattle.std.specs.Prelude.{◌≡◌};
ghost use Rattle.abi.specs.Answers.{check_answer, name_span};
ghost use Rattle.abi.specs.Labels.{parse_answer, print_answer};
ghost use Rattle.abi.specs.Sessions.{open_answer, set_label_answer, set_row_label_answer, may_read_answer, may_write_answer};
ghost use Rattle.abi.specs.Tables.{read_answer, update_answer, masked_answer};
ghost use Rattle.abi.specs.TwoLabels.{dominates_answer, strictly_dominates_answer, merge_answer};

#[unsafe(no_mangle)]
pub extern "C" fn brawnesk_check(image: &[u8]) -> u64
    ensures { result ≡ check_answer image.now }
{
    abi::brawnesk_check(image)
}

#[unsafe(no_mangle)]
pub extern "C" fn brawnesk_name(image: &[u8], class: u8, place: u8) -> u64
    ensures { result ≡ name_span image.now class place }
{
    abi::brawnesk_name(image, class, place)
}

#[unsafe(no_mangle)]
pub extern "C" fn brawnesk_parse(image: &[u8], text: &[u8], label: &mut [u8; 48]) -> u64
    ensures { (result, label.new) ≡ parse_answer image.now text.now label.old }
{
    abi::brawnesk_parse(image, text, label)
}

#[unsafe(no_mangle)]
pub extern "C" fn brawnesk_print(image: &[u8], label: &[u8; 48], text: &mut [u8]) -> u64
    ensures { (result, text.new) ≡ print_answer image.now label.now text.old }
{
    abi::brawnesk_print(image, label, text)
}

#[unsafe(no_mangle)]
pub extern "C" fn brawnesk_open(image: &[u8], name: &[u8], session: &mut [u8; 104]) -> u64
    ensures { (result, session.new) ≡ open_answer image.now name.now session.old }
{
    abi::brawnesk_open(image, name, session)
}

#[unsafe(no_mangle)]
pub extern "C" fn brawnesk_set_label(image: &[u8], session: &mut [u8; 104], text: &[u8]) -> u64
    ensures { (result, session.new) ≡ set_label_answer image.now session.old text.now }
{
    abi::brawnesk_set_label(image, session, text)
}

#[unsafe(no_mangle)]
pub extern "C" fn brawnesk_set_row_label(image: &[u8], session: &mut [u8; 104], text: &[u8]) -> u64
    ensures { (result, session.new) ≡ set_row_label_answer image.now session.old text.now }
{
    abi::brawnesk_set_row_label(image, session, text)
}

#[unsafe(no_mangle)]
pub extern "C" fn brawnesk_may_read(image: &[u8], session: &[u8; 104], tag: u32) -> u64
    ensures { result ≡ may_read_answer image.now session.now tag }
{
    abi::brawnesk_may_read(image, session, tag)
}

#[unsafe(no_mangle)]
pub extern "C" fn brawnesk_may_write(image: &[u8], session: &[u8; 104], tag: u32) -> u64
    ensures { result ≡ may_write_answer image.now session.now tag }
{
    abi::brawnesk_may_write(image, session, tag)
}

#[unsafe(no_mangle)]
pub extern "C" fn brawnesk_read(
    image: &[u8],
    session: &[u8; 104],
    table: &[u8],
    width: usize,
    out: &mut [u8],
) -> u64
    ensures { (result, out.new) ≡ read_answer image.now session.now table.now width out.old }
{
    abi::brawnesk_read(image, session, table, width, out)
}

#[unsafe(no_mangle)]
pub extern "C" fn brawnesk_update(
    image: &[u8],
    session: &[u8; 104],
    table: &mut [u8],
    width: usize,
    n: usize,
    payload: &[u8],
) -> u64
    ensures { (result, table.new) ≡ update_answer image.now session.now table.old width n payload.now }
{
    abi::brawnesk_update(image, session, table, width, n, payload)
}

#[unsafe(no_mangle)]
pub extern "C" fn brawnesk_masked(
    image: &[u8],
    session: &[u8; 104],
    table: &[u8],
    width: usize,
    place: usize,
    mask: &[u8],
) -> u64
    ensures { result ≡ masked_answer image.now session.now table.now width place }
{
    abi::brawnesk_masked(image, session, table, width, place, mask)
}

#[unsafe(no_mangle)]
pub extern "C" fn brawnesk_dominates(image: &[u8], label1: &[u8; 48], label2: &[u8; 48]) -> u64
    ensures { result ≡ dominates_answer image.now label1.now label2.now }
{
    abi::brawnesk_dominates(image, label1, label2)
}

#[unsafe(no_mangle)]
pub extern "C" fn brawnesk_strictly_dominates(
    image: &[u8],
    label1: &[u8; 48],
    label2: &[u8; 48],
) -> u64
    ensures { result ≡ strictly_dominates_answer image.now label1.now label2.now }
{
    abi::brawnesk_strictly_dominates(image, label1, label2)
}

#[unsafe(no_mangle)]
pub extern "C" fn brawnesk_merge(
    label1: &[u8; 48],
    label2: &[u8; 48],
    letters: &[u8],
    merged: &mut [u8; 48],
) -> u64
    ensures { (result, merged.new) ≡ merge_answer label1.now label2.now letters.now merged.old }
{
    abi::brawnesk_merge(label1, label2, letters, merged)
}
