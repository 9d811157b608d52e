use crate::tests::fixtures::check;
use lvm_io::{
    Clock, Got, Images, Lines, MOST_BYTES, MemClock, MemSink, MemSource, NextLine, Put, Sink,
    SinkFault, Source, StdSink, StdSource, SystemClock, write_all,
};
use lvm_num::Rows;
use std::io::{self, ErrorKind, Read, Write};
use std::process::Abort;
use std::time::{self, Duration};

fn rows(rt: &(impl Abort + AllocGlobal), bytes: &[u8]) -> Rows<u8> {
    Rows::new(bytes.to_vec(rt.alloc()).expect(rt, "memory"))
}

fn calls(rt: &(impl Abort + AllocGlobal), numbers: &[u64]) -> Rows<u64> {
    Rows::new(numbers.to_vec(rt.alloc()).expect(rt, "memory"))
}

fn is_line(next: &NextLine, want: &[u8]) -> bool {
    match next {
        NextLine::Line(line) => line.as_slice() == want,
        _ => false,
    }
}

// Expects these lines, and then the end.
fn expect_lines<R: Abort + AllocGlobal, I: Source>(rt: &R, input: &mut I, want: &[&[u8]]) {
    let mut lines = Lines::new(rt.alloc()).expect(rt, "memory");
    see_lines(rt, &mut lines, input, want);
}

// The same, of lines of which some were read before.
fn see_lines<R: Abort + AllocGlobal, I: Source>(
    rt: &R,
    lines: &mut Lines,
    input: &mut I,
    want: &[&[u8]],
) {
    for line in want {
        let next = lines.next_line(rt.alloc(), input);
        check(rt, is_line(&next, line), "a line");
    }
    let end = lines.next_line(rt.alloc(), input);
    check(rt, matches!(end, NextLine::End), "the end");
}

static TEXTS: [(&[u8], &[&[u8]]); 3] = [
    (b"", &[]),
    (b"wr\n\nrd 1\n", &[b"wr", b"", b"rd 1"]),
    (b"\nrd", &[b"", b"rd"]),
];

#[test]
fn lines_end_with_a_line_feed_that_the_last_may_lack(rt: HostRuntime) {
    for (text, want) in &TEXTS {
        let mut input = MemSource::new(rows(&rt, text), calls(&rt, &[]));
        expect_lines(&rt, &mut input, want);
    }
}

// Gives a byte at a time, and fails once before the third.
#[derive(Drop)]
struct Dripping<'a> {
    left: &'a [u8],
    calls: u64,
}

impl Read for Dripping<'_> {
    fn read(&mut self, into: &mut [u8]) -> io::Result<usize> {
        self.calls = self.calls.saturating_add(1);
        if self.calls == 3 {
            return Err(io::Error::from(ErrorKind::Other));
        }
        match (self.left.split_first(), into.first_mut()) {
            (Some((byte, left)), Some(place)) => {
                *place = *byte;
                self.left = left;
                Ok(1)
            }
            _ => Ok(0),
        }
    }
}

static AFTER_THE_FAULT: [&[u8]; 2] = [b"wait", b"step"];

#[test]
fn a_fault_in_the_middle_of_a_line_loses_nothing(rt: HostRuntime) {
    let mut input = StdSource::new(Dripping {
        left: b"wait\nstep",
        calls: 0,
    });
    let mut lines = Lines::new(rt.alloc()).expect(&rt, "memory");
    let first = lines.next_line(rt.alloc(), &mut input);
    check(&rt, matches!(first, NextLine::Failed), "the fault");
    see_lines(&rt, &mut lines, &mut input, &AFTER_THE_FAULT);
}

// Reads a source of so many bytes without a line feed, and the answer after it.
fn long_line(rt: &(impl Abort + AllocGlobal), size: usize) -> (NextLine, NextLine) {
    let bytes = vec![in rt.alloc(); b'x'; size].expect(rt, "memory");
    let mut input = MemSource::new(Rows::new(bytes), Rows::empty(rt.alloc()));
    let mut lines = Lines::new(rt.alloc()).expect(rt, "memory");
    let line = lines.next_line(rt.alloc(), &mut input);
    let after = lines.next_line(rt.alloc(), &mut input);
    (line, after)
}

#[test]
fn sixteen_mebibytes_are_a_line(rt: HostRuntime) {
    let most = MOST_BYTES as usize;
    let (whole, after) = long_line(&rt, most);
    let is_whole = match whole {
        NextLine::Line(line) => line.len() == most,
        _ => false,
    };
    check(&rt, is_whole, "the line");
    check(&rt, matches!(after, NextLine::End), "the end");
}

#[test]
fn a_byte_more_is_too_long(rt: HostRuntime) {
    let (first, second) = long_line(&rt, MOST_BYTES as usize + 1);
    check(&rt, matches!(first, NextLine::TooLong), "the line");
    check(&rt, matches!(second, NextLine::TooLong), "what follows");
}

#[test]
fn a_source_in_memory_fails_at_its_calls(rt: HostRuntime) {
    let mut source = MemSource::new(rows(&rt, b"abcde"), calls(&rt, &[1, 3]));
    let mut first = [0; 3];
    let answers = [source.read(&mut first), source.read(&mut first)];
    check(
        &rt,
        answers == [Got::Failed, Got::Bytes(3)] && first == *b"abc",
        "first",
    );
    let mut rest = [0; 3];
    let answers = [
        source.read(&mut rest),
        source.read(&mut rest),
        source.read(&mut rest),
    ];
    let want = [Got::Failed, Got::Bytes(2), Got::End];
    check(&rt, answers == want && rest == *b"de\0", "rest");
}

#[test]
fn a_sink_in_memory_fails_at_its_calls_and_once_it_is_full(rt: HostRuntime) {
    let mut sink = MemSink::new(rt.alloc(), 5, calls(&rt, &[2])).expect(&rt, "memory");
    let puts = [
        sink.write(b"abc"),
        sink.write(b"def"),
        sink.write(b"def"),
        sink.write(b"f"),
    ];
    let want = [Put::Took(3), Put::Failed, Put::Took(2), Put::Failed];
    check(&rt, puts == want, "answers");
    check(&rt, sink.bytes() == b"abcde".as_slice(), "bytes");
}

#[test]
fn a_sink_in_memory_begins_anew_with_an_image(rt: HostRuntime) {
    let mut sink = MemSink::new(rt.alloc(), 5, calls(&rt, &[])).expect(&rt, "memory");
    let full = write_all(&mut sink, b"abcde");
    sink.choose(1);
    check(&rt, sink.bytes().is_empty(), "a new image");
    let again = write_all(&mut sink, b"image");
    check(&rt, full == Ok(()) && again == Ok(()), "answers");
    check(&rt, sink.bytes() == b"image".as_slice(), "bytes");
}

#[test]
fn a_front_of_a_text_is_written_where_the_sink_fails(rt: HostRuntime) {
    let mut sink = MemSink::new(rt.alloc(), 4, calls(&rt, &[])).expect(&rt, "memory");
    let whole = write_all(&mut sink, b"ok\n");
    let front = write_all(&mut sink, b"ok\n");
    check(&rt, whole == Ok(()) && front == Err(SinkFault), "answers");
    check(&rt, sink.bytes() == b"ok\no".as_slice(), "bytes");
}

// Takes two bytes at a time, and then none.
#[derive(Drop)]
struct Narrow(usize);

impl Write for Narrow {
    fn write(&mut self, from: &[u8]) -> io::Result<usize> {
        let count = from.len().min(self.0).min(2);
        self.0 -= count;
        Ok(count)
    }

    fn flush(&mut self) -> io::Result<()> {
        Ok(())
    }
}

#[test]
fn a_writer_that_takes_nothing_has_failed(rt: HostRuntime) {
    let mut sink = StdSink::new(Narrow(5));
    let whole = write_all(&mut sink, b"abcd");
    let puts = [sink.write(b"ef"), sink.write(b"f")];
    check(&rt, whole == Ok(()), "whole");
    check(&rt, puts == [Put::Took(1), Put::Failed], "answers");
}

// where a clock starts, and the first two moments that it tells
static MOMENTS: [(u64, u64, u64); 2] = [(49, 49, 50), (u64::MAX, u64::MAX, u64::MAX)];

#[test]
fn a_clock_in_memory_counts_up_to_the_last_moment(rt: HostRuntime) {
    for (start, first, second) in &MOMENTS {
        let mut clock = MemClock::new(*start);
        let moments = [clock.now(), clock.now()];
        check(&rt, moments == [*first, *second], "moments");
    }
}

// A clock that stands still, or tells no time.
#[derive(Drop)]
struct Standing(Option<u64>);

impl time::Clock for Standing {
    fn monotonic(&self) -> io::Result<Duration> {
        Err(io::Error::from(ErrorKind::Other))
    }

    fn since_1970(&self) -> io::Result<Duration> {
        match self.0 {
            Some(micros) => Ok(Duration::from_micros(micros)),
            None => Err(io::Error::from(ErrorKind::Other)),
        }
    }
}

// where a clock stands, and the first two moments that it tells
static STANDING: [(Option<u64>, u64, u64); 2] = [(Some(70), 70, 71), (None, 1, 2)];

#[test]
fn the_clock_of_the_system_tells_microseconds_and_rises(rt: HostRuntime) {
    for (time, first, second) in &STANDING {
        let mut clock = SystemClock::new(Standing(*time));
        let moments = [clock.now(), clock.now()];
        check(&rt, moments == [*first, *second], "moments");
    }

    // 2020 was over when this was written, and 2100 hasn't come.
    let mut real = SystemClock::new(rt);
    let moment = real.now();
    check(&rt, moment > 1_600_000_000_000_000, "later than 2020");
    check(&rt, moment < 4_102_444_800_000_000, "earlier than 2100");
}
