ghost use Rattle.std.specs.Prelude.{IsTrue};
ghost use Rattle.lvm_show.specs.Refusals.{is_refusal};

use crate::tests::fixtures::{check, check_at};
use lvm_num::{Text, fill};
use lvm_show::{
    Carried, Refusal, push_refusal, show_block, show_migrated, show_refusal, show_stepped,
    show_synced,
};
use std::process::Abort;

// Whether a refusal has this text.
fn says(rt: &(impl Abort + AllocGlobal), number: u8, carried: Carried, text: &[u8])
    requires { IsTrue (is_refusal (record { number = number; carried = carried })) }
{
    let shown = show_refusal(rt.alloc(), &Refusal { number, carried }).expect(rt, "memory");
    check_at(rt, shown.as_bytes() == text, "refusal", usize::from(number));
}

#[test]
fn refusals_of_lines_and_groups(rt: HostRuntime) {
    says(&rt, 1, Carried::Number(19), b"refused 1 BadLine 19\n");
    says(&rt, 2, Carried::Nothing, b"refused 2 NoGroup\n");
    says(&rt, 3, Carried::Nothing, b"refused 3 GroupOn\n");
    says(&rt, 4, Carried::Nothing, b"refused 4 GroupExists\n");
    says(&rt, 5, Carried::Disk(9), b"refused 5 NoDisk hdisk9\n");
    says(&rt, 6, Carried::Disk(0), b"refused 6 TooSmall hdisk0\n");
    says(
        &rt,
        7,
        Carried::Votes { have: 1, total: 3 },
        b"refused 7 NoQuorum 1 3\n",
    );
    says(&rt, 8, Carried::Number(50), b"refused 8 ClockBack 50\n");
}

#[test]
fn refusals_of_records_and_volumes(rt: HostRuntime) {
    says(
        &rt,
        9,
        Carried::Disk(127),
        b"refused 9 DiskFailed hdisk127\n",
    );
    says(&rt, 10, Carried::Nothing, b"refused 10 Ambiguous\n");
    says(&rt, 11, Carried::Nothing, b"refused 11 NoRecord\n");
    says(&rt, 12, Carried::Nothing, b"refused 12 NoVolume\n");
    says(&rt, 13, Carried::Nothing, b"refused 13 VolumeExists\n");
    says(&rt, 14, Carried::Number(32), b"refused 14 TooMany 32\n");
    says(&rt, 15, Carried::Number(18), b"refused 15 NoRoom 18\n");
    says(&rt, 16, Carried::Number(0), b"refused 16 CopyLimit 0\n");
}

#[test]
fn refusals_of_requests(rt: HostRuntime) {
    says(&rt, 17, Carried::Lp(0), b"refused 17 LastFresh 1\n");
    says(
        &rt,
        18,
        Carried::Number(16_384),
        b"refused 18 OutOfRange 16384\n",
    );
    says(&rt, 19, Carried::Nothing, b"refused 19 Lost\n");
    says(&rt, 20, Carried::Nothing, b"refused 20 ReadFailed\n");
    says(
        &rt,
        21,
        Carried::Lp(4_294_967_295),
        b"refused 21 NoFresh 4294967296\n",
    );
    says(
        &rt,
        22,
        Carried::Votes { have: 1, total: 3 },
        b"refused 22 WentOff 1 3\n",
    );
    says(&rt, 23, Carried::Nothing, b"refused 23 Dark\n");
    says(&rt, 24, Carried::Nothing, b"refused 24 Stuck\n");
}

#[test]
fn refusals_of_rooms_and_disks(rt: HostRuntime) {
    says(&rt, 25, Carried::Nothing, b"refused 25 HistoryFull\n");
    says(&rt, 26, Carried::Disk(3), b"refused 26 InGroup hdisk3\n");
    says(&rt, 27, Carried::Nothing, b"refused 27 NoPlan\n");
    says(&rt, 28, Carried::Disk(2), b"refused 28 SyncFailed hdisk2\n");
    says(&rt, 29, Carried::Nothing, b"refused 29 Memory\n");
    says(&rt, 30, Carried::Nothing, b"refused 30 Busy\n");
    says(&rt, 31, Carried::Disk(0), b"refused 31 Missing hdisk0\n");
    says(&rt, 32, Carried::Number(2), b"refused 32 TableFull 2\n");
    says(&rt, 33, Carried::Disk(1), b"refused 33 DiskInUse hdisk1\n");
    says(&rt, 34, Carried::Nothing, b"refused 34 LastDisk\n");
    says(&rt, 35, Carried::Lp(1), b"refused 35 Strict 2\n");
    says(&rt, 36, Carried::Lp(0), b"refused 36 StaleCopy 1\n");
}

#[test]
fn a_refusal_is_added_to_a_text(rt: HostRuntime) {
    let mut text = String::new(rt.alloc());
    text.push_str("ok\n").expect(&rt, "memory");
    let refusal = Refusal {
        number: 21,
        carried: Carried::Lp(0),
    };
    push_refusal(&mut text, &refusal).expect(&rt, "memory");
    check(&rt, text.as_str() == "ok\nrefused 21 NoFresh 1\n", "text");
}

#[test]
fn turns_are_shown(rt: HostRuntime) {
    let shown = show_stepped(rt.alloc(), 1_000_000).expect(&rt, "memory");
    check(&rt, shown.as_str() == "stepped 1000000\n", "turns");
}

#[test]
fn copies_are_shown(rt: HostRuntime) {
    let shown = show_synced(rt.alloc(), 4_294_967_295).expect(&rt, "memory");
    check(&rt, shown.as_str() == "synced 4294967295\n", "copies");
}

#[test]
fn moves_are_shown(rt: HostRuntime) {
    let shown = show_migrated(rt.alloc(), 130_048).expect(&rt, "memory");
    check(&rt, shown.as_str() == "migrated 130048\n", "moves");
}

fn block(rt: &(impl Abort + AllocGlobal), at: u64, block: &[u8; 512]) -> Text {
    show_block(rt.alloc(), at, block).expect(rt, "memory")
}

static FILLED: [(u64, u64, &str); 2] = [
    (510, 0x19f, "510 000000000000019f\n"),
    (0, 0xABCD_EF01_2345_6789, "0 abcdef0123456789\n"),
];

#[test]
fn a_filled_block_is_shown_by_its_word(rt: HostRuntime) {
    for (at, word, text) in &FILLED {
        check(&rt, block(&rt, *at, &fill(*word)).as_str() == *text, text);
    }
}

#[test]
fn another_block_is_shown_whole(rt: HostRuntime) {
    let mut bytes = [0; 512];
    bytes[511] = 0xa5;
    let shown = block(&rt, 4_096, &bytes);
    check(&rt, shown.len() == 1_030, "length");
    check(
        &rt,
        shown.as_str().starts_with("4096 000000000000000"),
        "first",
    );
    check(&rt, shown.as_str().ends_with("000a5\n"), "last");
}
