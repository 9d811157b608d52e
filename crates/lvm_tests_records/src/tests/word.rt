use crate::tests::fixtures::check;
use lvm_num::{fill, word_of};

#[test]
fn the_first_byte_of_a_word_leads(rt: HostRuntime) {
    let block = fill(0x0123_4567_89ab_cdef);
    let ends = [block[0], block[7], block[8], block[511]];
    check(&rt, ends == [0x01, 0xef, 0x01, 0xef], "bytes");
}

#[test]
fn a_block_that_no_word_fills_has_none(rt: HostRuntime) {
    let mut block = [0x5a; 512];
    check(
        &rt,
        word_of(&block) == Some(0x5a5a_5a5a_5a5a_5a5a),
        "filled",
    );
    block[511] = 0x5b;
    check(&rt, word_of(&block).is_none(), "but for the last byte");
    block[511] = 0x5a;
    block[0] = 0;
    check(&rt, word_of(&block).is_none(), "but for the first byte");
}
