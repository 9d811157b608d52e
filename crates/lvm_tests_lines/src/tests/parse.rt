use crate::tests::fixtures::{check, check_at};
use lvm_num::{Mode, Name, Policy, Rows};
use lvm_parse::{Command, ParseFault, parse};
use std::process::Abort;

// The line isn't in the language from this column on.
fn refused(rt: &(impl Abort + AllocGlobal), line: &[u8], column: u32) {
    let read = parse(rt.alloc(), line);
    check_at(
        rt,
        read == Err(ParseFault::BadLine { column }),
        "column",
        column as usize,
    );
}

// The line spells this command.
fn spells(rt: &(impl Abort + AllocGlobal), line: &[u8], command: Command) {
    let read = parse(rt.alloc(), line);
    assert!(rt; read == Ok(Some(command)));
}

// The line asks for nothing.
fn skipped(rt: &(impl Abort + AllocGlobal), line: &[u8]) {
    let read = parse(rt.alloc(), line);
    check(rt, read == Ok(None), "nothing");
}

fn name(rt: &impl Abort, bytes: &[u8]) -> Name {
    Name::read(bytes).expect(rt, "name")
}

fn disks(rt: &(impl Abort + AllocGlobal), disks: &[u16]) -> Rows<u16> {
    Rows::new(disks.to_vec(rt.alloc()).expect(rt, "memory"))
}

// So many times this byte, and then these.
fn repeated(rt: &(impl Abort + AllocGlobal), byte: u8, times: usize, end: &[u8]) -> Vec<u8> {
    let mut line = vec![in rt.alloc(); byte; times].expect(rt, "memory");
    line.extend_from_slice(end).expect(rt, "memory");
    line
}

static UNPRINTED: [(&[u8], u32); 6] = [
    (b"rd\thdisk0 0 1", 3),
    (b"# remark \x07", 10),
    (b"foo \x80", 5),
    (b"\x7f", 1),
    (b"mkvg -y 9 hdisk0\r", 17),
    (b"rd hdisk0 0 1\n", 14),
];

#[test]
fn a_byte_that_does_not_print_comes_first(rt: HostRuntime) {
    for (line, column) in &UNPRINTED {
        refused(&rt, line, *column);
    }
}

#[test]
fn a_long_line_is_refused_behind_its_longest(rt: HostRuntime) {
    skipped(&rt, &repeated(&rt, b' ', 4096, b""));
    refused(&rt, &repeated(&rt, b' ', 4096, b" "), 4097);
    refused(&rt, &repeated(&rt, b'#', 4096, b"\x07"), 4097);
    refused(&rt, &repeated(&rt, b'#', 4095, b"\x07 "), 4096);
    refused(&rt, &repeated(&rt, b'x', 4096, b"x"), 4097);
    refused(&rt, &repeated(&rt, b' ', 4093, b"rd "), 4097);
    refused(&rt, &repeated(&rt, b' ', 4094, b"rd"), 4097);
}

#[test]
fn an_empty_line_and_a_remark_ask_for_nothing(rt: HostRuntime) {
    skipped(&rt, b"");
    skipped(&rt, b"   ");
    skipped(&rt, b"#");
    skipped(&rt, b"  # mkvg");
    skipped(&rt, b"#rd hdisk0");
}

#[test]
fn blocks_are_spelled(rt: HostRuntime) {
    let (disk, at, count) = (0, u64::MAX, 4096);
    spells(
        &rt,
        b"rd hdisk0 18446744073709551615 4096",
        Command::RawRd { disk, at, count },
    );
    let (disk, at, count) = (127, 7, 1);
    spells(
        &rt,
        b"rd hdisk127 00000000000000000007 0001",
        Command::RawRd { disk, at, count },
    );
    let (disk, at, count, word) = (9, 5, 1, 0xabff);
    spells(
        &rt,
        b"  wr   hdisk9 5 1 000000000000aBFf  ",
        Command::RawWr {
            disk,
            at,
            count,
            word,
        },
    );
    let word = u64::MAX;
    spells(
        &rt,
        b"wr hdisk9 5 1 ffffffffffffffff",
        Command::RawWr {
            disk,
            at,
            count,
            word,
        },
    );
}

#[test]
fn requests_are_spelled(rt: HostRuntime) {
    let name = name(&rt, b"lv00");
    let (at, count, word) = (255, 256, 0xa0);
    spells(&rt, b"rd lv00 255 256", Command::Rd { name, at, count });
    spells(
        &rt,
        b"wr lv00 255 256 00000000000000a0",
        Command::Wr {
            name,
            at,
            count,
            word,
        },
    );
    spells(
        &rt,
        b" post lv00  0255 256 00000000000000A0",
        Command::Post {
            name,
            at,
            count,
            word,
        },
    );
    spells(&rt, b"wait ", Command::Wait);
    spells(&rt, b"step 0001000000", Command::Step { turns: 1_000_000 });
}

#[test]
fn disks_and_cuts_are_spelled(rt: HostRuntime) {
    spells(&rt, b"lspv hdisk3", Command::Lspv { disk: 3 });
    spells(&rt, b"fail hdisk10", Command::Fail { disk: 10 });
    spells(&rt, b"heal hdisk99", Command::Heal { disk: 99 });
    spells(&rt, b"cut", Command::Cut { word: 0 });
    spells(
        &rt,
        b"cut 5555555555555555 ",
        Command::Cut {
            word: 0x5555555555555555,
        },
    );
}

#[test]
fn groups_are_spelled(rt: HostRuntime) {
    let datavg = name(&rt, b"datavg");
    for line in ["varyonvg -n datavg", "varyonvg datavg"] {
        spells(&rt, line.as_bytes(), Command::Varyon { name: datavg });
    }
    spells(&rt, b"varyoffvg datavg", Command::Varyoff { name: datavg });
    spells(
        &rt,
        b"lsvg datavg",
        Command::Lsvg {
            volumes: false,
            name: datavg,
        },
    );
    spells(
        &rt,
        b"lsvg -l datavg",
        Command::Lsvg {
            volumes: true,
            name: datavg,
        },
    );
}

#[test]
fn a_new_group_is_spelled(rt: HostRuntime) {
    spells(
        &rt,
        b"mkvg -y datavg -s 1 hdisk0 hdisk1 hdisk2",
        Command::Mkvg {
            force: false,
            name: name(&rt, b"datavg"),
            mib: Some(1),
            disks: disks(&rt, &[0, 1, 2]),
        },
    );
    spells(
        &rt,
        b"mkvg -s 01024 -f -y a hdisk127",
        Command::Mkvg {
            force: true,
            name: name(&rt, b"a"),
            mib: Some(1024),
            disks: disks(&rt, &[127]),
        },
    );
    spells(
        &rt,
        b"mkvg -y Data_vg_1234567 hdisk1 hdisk0",
        Command::Mkvg {
            force: false,
            name: name(&rt, b"Data_vg_1234567"),
            mib: None,
            disks: disks(&rt, &[1, 0]),
        },
    );
}

#[test]
fn volumes_are_spelled(rt: HostRuntime) {
    let lv00 = name(&rt, b"lv00");
    spells(&rt, b"rmlv lv00", Command::Rmlv { name: lv00 });
    spells(&rt, b"rmlv -f lv00", Command::Rmlv { name: lv00 });
    spells(&rt, b"lslv -m lv00", Command::Lslv { name: lv00 });
}

#[test]
fn copies_are_spelled(rt: HostRuntime) {
    let name = name(&rt, b"lv00");
    spells(
        &rt,
        b"mklvcopy lv00 3",
        Command::Mklvcopy { name, copies: 3 },
    );
    spells(
        &rt,
        b"rmlvcopy lv00 00",
        Command::Rmlvcopy { name, copies: 0 },
    );
}

#[test]
fn resyncs_are_spelled(rt: HostRuntime) {
    let name = name(&rt, b"lv00");
    spells(&rt, b"syncvg -l lv00", Command::SyncVolume { name });
    spells(&rt, b" syncvg  -v  lv00 ", Command::SyncGroup { name });
}

#[test]
fn changes_of_a_group_are_spelled(rt: HostRuntime) {
    let name = name(&rt, b"datavg");
    spells(
        &rt,
        b"chvg -Q y datavg",
        Command::ChvgQuorum { on: true, name },
    );
    spells(
        &rt,
        b" chvg  -Q  n  datavg ",
        Command::ChvgQuorum { on: false, name },
    );
    spells(&rt, b"chvg -B datavg", Command::ChvgBig { name });
}

// Lines that would change a group, and the column at which each isn't in the language.
static UNCHANGED: [(&[u8], u32); 12] = [
    (b"chvg", 5),
    (b"chvg datavg", 6),
    (b"chvg -b datavg", 6),
    (b"chvg -Q", 8),
    (b"chvg -Q Y datavg", 9),
    (b"chvg -Q yes datavg", 9),
    (b"chvg -Q y", 10),
    (b"chvg -Q n hdisk0", 11),
    (b"chvg -Q y -B datavg", 11),
    (b"chvg -Q y n datavg", 13),
    (b"chvg -B -B datavg", 9),
    (b"chvg -B datavg -Q", 16),
];

#[test]
fn a_change_takes_one_of_its_options(rt: HostRuntime) {
    for (line, column) in &UNCHANGED {
        refused(&rt, line, *column);
    }
}

#[test]
fn disks_that_leave_are_spelled(rt: HostRuntime) {
    let name = name(&rt, b"datavg");
    spells(
        &rt,
        b"reducevg datavg hdisk0",
        Command::Reducevg {
            name,
            disks: disks(&rt, &[0]),
        },
    );
    spells(
        &rt,
        b" reducevg  datavg  hdisk127  hdisk0  hdisk3 ",
        Command::Reducevg {
            name,
            disks: disks(&rt, &[127, 0, 3]),
        },
    );
}

// Lines by which disks would leave, and the column at which each isn't in the language.
static UNREDUCED: [(&[u8], u32); 12] = [
    (b"reducevg", 9),
    (b"reducevg datavg", 16),
    (b"reducevg datavg ", 17),
    (b"reducevg hdisk0", 10),
    (b"reducevg hdisk0 datavg", 10),
    (b"reducevg datavg hdisk128", 17),
    (b"reducevg datavg lv00", 17),
    (b"reducevg datavg hdisk0 hdisk0", 24),
    (b"reducevg datavg hdisk0 hdisk1 hdisk0", 31),
    (b"reducevg datavg hdisk0 datavg", 24),
    (b"reducevg -d datavg hdisk0", 10),
    (b"reducevg datavg -f hdisk0", 17),
];

#[test]
fn disks_that_leave_are_all_different(rt: HostRuntime) {
    for (line, column) in &UNREDUCED {
        refused(&rt, line, *column);
    }
}

#[test]
fn moves_are_spelled(rt: HostRuntime) {
    spells(
        &rt,
        b"migratepv hdisk0 hdisk127",
        Command::Migratepv {
            volume: None,
            from: 0,
            to: 127,
        },
    );
    let volume = name(&rt, b"lv00");
    spells(
        &rt,
        b" migratepv  -l  lv00  hdisk2  hdisk1 ",
        Command::Migratepv {
            volume: Some(volume),
            from: 2,
            to: 1,
        },
    );
}

// Lines that would move copies, and the column at which each isn't in the language.
static UNMOVED: [(&[u8], u32); 14] = [
    (b"migratepv", 10),
    (b"migratepv hdisk0", 17),
    (b"migratepv hdisk0 hdisk0", 18),
    (b"migratepv hdisk0 hdisk0 hdisk1", 18),
    (b"migratepv hdisk0 hdisk128", 18),
    (b"migratepv hdisk0 hdisk1 hdisk2", 25),
    (b"migratepv hdisk0 lv00", 18),
    (b"migratepv lv00 hdisk0 hdisk1", 11),
    (b"migratepv -l", 13),
    (b"migratepv -l hdisk0 hdisk1", 14),
    (b"migratepv -l lv00 hdisk0", 25),
    (b"migratepv -l lv00 hdisk1 hdisk1", 26),
    (b"migratepv -l lv00 -l lv00 hdisk0 hdisk1", 19),
    (b"migratepv hdisk0 hdisk1 -l lv00", 25),
];

#[test]
fn a_move_takes_two_disks(rt: HostRuntime) {
    for (line, column) in &UNMOVED {
        refused(&rt, line, *column);
    }
}

// The volume lv00 in datavg, in mode off.
fn volume(rt: &impl Abort, copies: u8, policy: Policy, lps: u32) -> Command {
    volume_in(rt, Mode::Off, copies, policy, lps)
}

// The volume lv00 in datavg, in a mode.
fn volume_in(rt: &impl Abort, mode: Mode, copies: u8, policy: Policy, lps: u32) -> Command {
    Command::Mklv {
        name: name(rt, b"lv00"),
        copies,
        mode,
        policy,
        group: name(rt, b"datavg"),
        lps,
    }
}

// A line, and the copies, the policy and the logical partitions that it asks for.
static NEW_VOLUMES: [(&[u8], u8, Policy, u32); 5] = [
    (b"mklv -y lv00 -w n datavg 7", 1, Policy::Parallel, 7),
    (
        b"mklv -d pr -c 0 -w n -y lv00 datavg 65535",
        0,
        Policy::RoundRobin,
        65535,
    ),
    (
        b"mklv -w n -d s -c 9 -y lv00 datavg 1",
        9,
        Policy::Sequential,
        1,
    ),
    (
        b"mklv -y lv00 -d ps -w n -c 02 datavg 00001",
        2,
        Policy::ParallelWrite,
        1,
    ),
    (b"mklv -y lv00 -d p -w n datavg 1", 1, Policy::Parallel, 1),
];

#[test]
fn a_new_volume_is_spelled(rt: HostRuntime) {
    for (line, copies, policy, lps) in &NEW_VOLUMES {
        spells(&rt, line, volume(&rt, *copies, *policy, *lps));
    }
}

#[test]
fn a_volume_is_active_unless_it_is_said(rt: HostRuntime) {
    for line in [
        "mklv -y lv00 -c 2 datavg 7",
        "mklv -y lv00 -c 2 -w y datavg 7",
        "mklv -w a -c 2 -y lv00 datavg 7",
    ] {
        let active = volume_in(&rt, Mode::Active, 2, Policy::Parallel, 7);
        spells(&rt, line.as_bytes(), active);
    }
}
