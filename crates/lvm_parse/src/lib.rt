//! The words of a line, read from the left, each with its column: what a single word means, and the options
//! of a `mkvg` and of a `mklv`, in any order, each at most once. An operand that doesn't fit is told by its
//! column. The lines of a script: what each asks for, or the column at which it isn't in the language. #
//! Lines A line, without its line feed, has at most 4,096 bytes, each a blank (a space) or a printing ASCII
//! byte. Its words are separated by one or more blanks, and blanks may stand at both ends. A line without a
//! word, and one whose first word begins with `#`, asks for nothing. The first word says what the line does.
//! Options come next, in any order, each at most once; the value of an option is the word behind it. Then
//! come the operands, and nothing behind them. | Word | What it is | |---|---| | `DISK` | `hdisk` and a
//! number from 0 to 127 without zeros in front | | `NAME` | 1 to 15 letters, digits and underscores, of which
//! the first is a letter; it doesn't begin with `hdisk` | | `BLOCK` | 1 to 20 decimal digits of a number
//! below 2^64; zeros in front are allowed, in each number but a disk's | | `COUNT` | a number from 1 to 4,096
//! | | `MIB` | a power of two from 1 to 1,024 | | `N` | a number from 0 to 9 | | `TURNS` | a number from 1 to
//! 1,000,000 | | `LPS` | a number from 1 to 65,535 | | `WORD` | 16 hexadecimal digits of either case | | Line
//! | What it asks for | |---|---| | `mkvg [-f] -y NAME [-s MIB] DISK ..` | make a volume group of 1 to 128
//! disks, all different, and vary it on; `-s` is the size of a partition, `-f` takes disks of another group
//! too | | `varyonvg [-n] NAME` | vary a group on; `-n` changes nothing | | `varyoffvg NAME` | vary it off |
//! | `lsvg [-l] NAME` | list the group, or with `-l` its volumes | | `chvg -Q V NAME` | switch quorum checking of a group on, where `V` is `y`, or off, where it is `n` | | `chvg -B NAME` | make a group a big one | | `reducevg NAME DISK ..` | take 1 to 128 disks, all different, out of the group | | `mklv -y NAME [-c N] [-w MODE] [-d
//! POLICY] NAME LPS` | make a volume, the first name, in the group, the second, of so many logical
//! partitions; `-c` is the number of copies, 1 where it isn't given; `-w` is `y` or `a` (active, where it
//! isn't given), `p` (passive) or `n` (off); `-d` is `p` (parallel, where it isn't given), `s` (sequential), `ps` or `pr` |
//! | `rmlv [-f] NAME` | remove a volume; `-f` changes nothing | | `mklvcopy NAME N` | give each logical
//! partition of a volume so many copies | | `rmlvcopy NAME N` | leave each so many | | `splitlvcopy -y
//! NEW NAME N` | leave each so many, and make the others a volume of their own | | `migratepv [-l NAME] DISK DISK` | move the copies of all volumes, or of one, from the first disk to the second; the two differ | | `syncvg -l NAME`,
//! `syncvg -v NAME` | bring up the stale copies of a volume, or of the group | | `lslv -m NAME` | list where
//! a volume's copies lie | | `lspv DISK` | list a member of the group | | `rd NAME BLOCK COUNT`, `rd DISK
//! BLOCK COUNT` | read blocks of a volume, or of a disk | | `wr NAME BLOCK COUNT WORD`, `wr DISK BLOCK COUNT
//! WORD` | write blocks of a volume, or of a disk, the first filled with the word, each next one with one
//! more | | `post NAME BLOCK COUNT WORD` | ask for such a write of a volume, and don't wait for it | | `wait`
//! | wait for the writes that were posted | | `step TURNS` | make so many turns | | `fail DISK`, `heal DISK`
//! | let a disk fail; let it work again | | `cut [WORD]` | cut the power; the word, 0 where it isn't given,
//! says what is kept of the writes that were out | Any other line isn't in the language. # Columns Columns
//! count the bytes of a line from 1. A line that isn't in the language is refused - at the first byte that is
//! neither a blank nor prints, where one is among the first 4,096; - else at 4,097, where it has more bytes
//! than that; - else at its first word that doesn't fit, reading from the left: a word that is none of those
//! in its place, an option that stood before, a word behind the last operand; an option that must stand and
//! doesn't is found at the first word behind the options; - else, where a word is lacking, behind its last
//! byte, blanks included. ```text mkvg -y datavg -s 3 hdisk0 column 19: 3 is no power of two mkvg -y datavg
//! hdisk0 hdisk0 column 23: the disk stands twice rd hdisk0 5 column 12: COUNT is lacking ```
#![tactic(auto)]

mod chosen;
mod command;
mod disk_list;
pub mod laws;
mod line;
mod operands;
mod operands_line;
mod options;
mod range;
mod rest;
mod rules;
mod scan;
mod words;

pub use chosen::{MklvOptions, MkvgOptions};
pub use command::{Command, ParseFault};
pub use disk_list::disks;
pub use line::parse;
pub use operands::{
    copies, count, disk, ends, is_disk_next, last_copies, last_disk, last_name, last_other_disk,
    last_partitions, last_pattern, last_turns, misfit, mode, name, next_column, number, option,
    other_disk, partitions, pattern, policy, size, switch, turns,
};
pub use operands_line::{is_remark, unreadable_at};
pub use options::{mklv_options, mkvg_options};
pub use range::{BlockRange, blocks, last_blocks};
pub use rest::{Misfit, Rest, Word};
pub use scan::next_word;
pub use words::{
    copy_count_of, count_of, disk_of, hex_word, mode_of, name_of, number_of, other_disk_of,
    partition_count_of, policy_of, size_of, switch_of, turns_of,
};
