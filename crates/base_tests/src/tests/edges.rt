//! What no contract says: listed failures, and what passes through std.
use crate::tests::comparing::{same, same_bytes};
use ebl_base::{ByteList, CallList, Copied, Moment, NoMemory, count_fault};
use ebl_edge::{
    BoundedLink, BoundedSink, Clock, InfallibleSource, Link, MemoryClock, MemoryLink, MemorySink,
    MemorySource, PieceList, ReaderSource, RepeatedSource, Sink, Source, StreamLink, SystemClock,
    WriterSink, standard_input, standard_output,
};
use std::alloc::{AllocError, Global};
use std::io;
use std::io::{ErrorKind, Input, Print, Read, Write};
use std::process::Abort;
use std::test::Fail;

// What a read of three bytes answers: the bytes or a mark for a failure, and then a bar.
fn tell_read<S: Source>(source: &mut S, told: &mut Vec<u8>) -> Result<(), AllocError> {
    let mut into = [0u8; 3];
    match source.read(&mut into) {
        Ok(count) => told.extend_from_slice(&into[..count])?,
        Err(_) => told.push(b'!')?,
    }
    told.push(b'|')?;
    Ok(())
}

// What six reads answer.
fn reads<S: Source>(alloc: Global, source: &mut S) -> Result<Vec<u8>, AllocError> {
    let mut told = Vec::new(alloc);
    for _ in 0..6 {
        tell_read(source, &mut told)?;
    }
    Ok(told)
}

fn assert_reads<S: Source>(
    rt: &impl Abort,
    alloc: Global,
    source: &mut S,
    told: &[u8],
) -> Result<(), AllocError> {
    let answers = reads(alloc, source)?;
    same_bytes(rt, answers.as_slice(), told);
    Ok(())
}

// What a sink answers to a piece.
fn put<K: Sink>(sink: &mut K, piece: &[u8]) -> u8 {
    match sink.put(piece) {
        Ok(()) => b'.',
        Err(_) => b'!',
    }
}

// What a sink answers to three pieces.
fn puts<K: Sink>(sink: &mut K) -> [u8; 3] {
    [put(sink, b"ab"), put(sink, b"cdef"), put(sink, b"ghi")]
}

fn assert_puts<K: Sink>(rt: &impl Abort, sink: &mut K, told: &[u8]) {
    let answers = puts(sink);
    same_bytes(rt, answers.as_slice(), told);
}

// A source of seven bytes, which fails at these reads.
fn source_of(alloc: Global, fails: &[u64]) -> Result<MemorySource, NoMemory> {
    let fails = CallList::from_slice(alloc, fails)?;
    let bytes = ByteList::from_slice(alloc, b"abcdefg")?;
    let source = MemorySource::new(bytes, fails);
    let copy = source.copy(alloc);
    drop(source);
    copy
}

fn source_row(
    rt: &impl Abort,
    alloc: Global,
    fails: &[u64],
    told: &[u8],
    faults: u64,
) -> Result<(), Fail> {
    let mut source = source_of(alloc, fails)?;
    let done = assert_reads(rt, alloc, &mut source, told);
    let seen = (source.faults(), source.left().len());
    drop(source);
    done?;
    same(rt, &"faults and bytes left", seen, (faults, 0));
    Ok(())
}

// The reads that fail, what the reads answer, and how many faults are counted.
const SOURCES: [(&[u64], &[u8], u64); 4] = [
    (&[9], b"abc|def|g||||", 0),
    (&[0, 9], b"!|abc|def|g|||", 1),
    (&[3, 1], b"abc|!|def|!|g||", 2),
    (&[4, 4], b"abc|def|g||!||", 1),
];

#[test]
fn a_memory_source_fails_at_the_listed_reads(rt: HostRuntime) -> Result<(), Fail> {
    for &(fails, told, faults) in &SOURCES {
        source_row(&rt, rt.alloc(), fails, told, faults)?;
    }
    Ok(())
}

fn assert_steady(rt: &impl Abort, alloc: Global) -> Result<(), NoMemory> {
    let mut steady = InfallibleSource::new(ByteList::from_slice(alloc, b"abcdefg")?);
    assert_reads(rt, alloc, &mut steady, b"abc|def|g||||")?;
    Ok(())
}

#[test]
fn sources_that_never_fail(rt: HostRuntime) -> Result<(), Fail> {
    assert_steady(&rt, rt.alloc())?;
    let mut repeated = RepeatedSource::new(b'x', 4);
    assert_reads(&rt, rt.alloc(), &mut repeated, b"xxx|x|||||")?;
    Ok(())
}

fn sink_row(rt: &impl Abort, mut sink: MemorySink, told: &[u8], written: &[u8], faults: u64) {
    assert_puts(rt, &mut sink, told);
    same_bytes(rt, sink.written(), written);
    same(rt, &"faults", sink.faults(), faults);
    same_bytes(rt, sink.into_bytes().as_slice(), written);
}

fn listed_calls(alloc: Global) -> Result<CallList, NoMemory> {
    CallList::from_slice(alloc, &[2, 0])
}

// A copy of a sink that fails at copied calls.
fn copied_sink(alloc: Global) -> Result<MemorySink, NoMemory> {
    let fails = listed_calls(alloc)?.copy(alloc)?;
    let sink = MemorySink::new(alloc, fails);
    let copy = sink.copy(alloc);
    drop(sink);
    copy
}

#[test]
fn a_memory_sink_fails_at_the_listed_calls(rt: HostRuntime) -> Result<(), Fail> {
    sink_row(&rt, copied_sink(rt.alloc())?, b"!.!", b"cdef", 2);
    let tearing = MemorySink::tearing(rt.alloc(), listed_calls(rt.alloc())?);
    sink_row(&rt, tearing, b"!.!", b"acdefg", 2);
    let never = MemorySink::new(rt.alloc(), CallList::new(rt.alloc()));
    sink_row(&rt, never, b"...", b"abcdefghi", 0);
    Ok(())
}

fn room_row(rt: &impl Abort, mut sink: BoundedSink, told: &[u8], written: &[u8], faults: u64) {
    assert_puts(rt, &mut sink, told);
    same_bytes(rt, sink.written(), written);
    same(rt, &"faults", sink.faults(), faults);
    same_bytes(rt, sink.into_bytes().as_slice(), written);
}

fn copied_room(alloc: Global) -> Result<BoundedSink, NoMemory> {
    BoundedSink::new(alloc, 5)?.copy(alloc)
}

#[test]
fn a_bounded_sink_fails_past_its_room_alone(rt: HostRuntime) -> Result<(), Fail> {
    let alloc = rt.alloc();
    room_row(&rt, BoundedSink::new(alloc, 9)?, b"...", b"abcdefghi", 0);
    room_row(&rt, BoundedSink::new(alloc, 8)?, b"..!", b"abcdef", 1);
    room_row(&rt, copied_room(alloc)?, b".!.", b"abghi", 1);
    Ok(())
}

#[test]
fn a_count_stays_at_the_end_of_its_type(rt: HostRuntime) {
    let mut faults = u64::MAX - 1;
    for _ in 0..3 {
        let _ = count_fault(&mut faults);
    }
    assert_eq!(rt; faults, u64::MAX);
}

// Standard input may be closed here: its read then fails, and counts.
fn assert_input(rt: &(impl Abort + Input)) {
    let mut source = standard_input(rt);
    let failed = source.read(&mut []).is_err();
    assert_eq!(rt; source.faults(), if failed { 1 } else { 0 });
}

fn assert_output(rt: &(impl Abort + Print)) {
    let mut sink = standard_output(rt);
    assert_eq!(rt; put(&mut sink, b"a line that a sink wrote\n"), b'.');
    assert_eq!(rt; sink.faults(), 0);
}

#[test]
fn standard_input_and_output(rt: HostRuntime) {
    assert_input(&rt);
    assert_output(&rt);
}

// Each second call is interrupted, and each other moves one byte, until four have been moved and calls fail.
#[derive(Drop)]
struct Stutter {
    moved: u64,
    interrupts: bool,
}

impl Stutter {
    fn new() -> Self {
        Stutter {
            moved: 0,
            interrupts: false,
        }
    }

    fn next(&mut self) -> io::Result<u8> {
        self.interrupts = !self.interrupts;
        if self.interrupts {
            return Err(io::Error::from(ErrorKind::Interrupted));
        }
        if self.moved >= 4 {
            return Err(io::Error::from(ErrorKind::BrokenPipe));
        }
        self.moved += 1;
        Ok(b'x')
    }
}

impl Read for Stutter {
    fn read(&mut self, buf: &mut [u8]) -> io::Result<usize> {
        let byte = self.next()?;
        if buf.is_empty() {
            return Ok(0);
        }
        buf[0] = byte;
        Ok(1)
    }
}

impl Write for Stutter {
    fn write(&mut self, buf: &[u8]) -> io::Result<usize> {
        let _ = self.next()?;
        Ok(buf.len().min(1))
    }

    fn flush(&mut self) -> io::Result<()> {
        Ok(())
    }
}

fn assert_puts_again(rt: &impl Abort) {
    let mut sink = WriterSink::new(Stutter::new());
    assert_puts(rt, &mut sink, b".!!");
    same(rt, &"faults of puts", sink.faults(), 8);
}

#[test]
fn interrupted_calls_are_made_again(rt: HostRuntime) -> Result<(), Fail> {
    let mut source = ReaderSource::new(Stutter::new());
    assert_reads(&rt, rt.alloc(), &mut source, b"x|x|x|x|!|!|")?;
    same(&rt, &"faults of reads", source.faults(), 8);
    assert_puts_again(&rt);
    Ok(())
}

fn assert_put_into(rt: &impl Abort, written: &mut Vec<u8>) {
    let mut sink = WriterSink::new(written);
    assert_puts(rt, &mut sink, b"...");
}

#[test]
fn bytes_pass_through_std(rt: HostRuntime) -> Result<(), Fail> {
    let mut source = ReaderSource::new(b"abcdefg".as_slice());
    assert_reads(&rt, rt.alloc(), &mut source, b"abc|def|g||||")?;
    let mut written = Vec::new(rt.alloc());
    assert_put_into(&rt, &mut written);
    same_bytes(&rt, written.as_slice(), b"abcdefghi");
    Ok(())
}

// What a read of three bytes answers: the bytes or a mark for a failure, and then a bar.
fn tell_link_read<L: Link>(link: &mut L, told: &mut Vec<u8>) -> Result<(), AllocError> {
    let mut into = [0u8; 3];
    match link.read(&mut into) {
        Ok(count) => told.extend_from_slice(&into[..count])?,
        Err(_) => told.push(b'!')?,
    }
    told.push(b'|')?;
    Ok(())
}

// What six reads answer.
fn link_reads<L: Link>(alloc: Global, link: &mut L) -> Result<Vec<u8>, AllocError> {
    let mut told = Vec::new(alloc);
    for _ in 0..6 {
        tell_link_read(link, &mut told)?;
    }
    Ok(told)
}

fn assert_link_reads<L: Link>(
    rt: &impl Abort,
    alloc: Global,
    link: &mut L,
    told: &[u8],
) -> Result<(), AllocError> {
    let answers = link_reads(alloc, link)?;
    same_bytes(rt, answers.as_slice(), told);
    Ok(())
}

fn link_put<L: Link>(link: &mut L, piece: &[u8]) -> u8 {
    match link.put(piece) {
        Ok(()) => b'.',
        Err(_) => b'!',
    }
}

// What a link answers to three pieces.
fn link_puts<L: Link>(link: &mut L) -> [u8; 3] {
    [
        link_put(link, b"ab"),
        link_put(link, b"cdef"),
        link_put(link, b"ghi"),
    ]
}

fn assert_link_puts<L: Link>(rt: &impl Abort, link: &mut L, told: &[u8]) {
    let answers = link_puts(link);
    same_bytes(rt, answers.as_slice(), told);
}

fn link_with(
    alloc: Global,
    bytes: ByteList,
    sizes: PieceList,
    fails: &[u64],
) -> Result<MemoryLink, NoMemory> {
    let fails = CallList::from_slice(alloc, fails)?;
    Ok(MemoryLink::in_pieces(alloc, bytes, sizes, fails))
}

// A link of seven bytes in pieces of these sizes, which fails at these calls.
fn link_of(alloc: Global, sizes: &[usize], fails: &[u64]) -> Result<MemoryLink, NoMemory> {
    let bytes = ByteList::from_slice(alloc, b"abcdefg")?;
    let sizes = PieceList::from_slice(alloc, sizes)?;
    link_with(alloc, bytes, sizes, fails)
}

fn copied_link(alloc: Global, sizes: &[usize], fails: &[u64]) -> Result<MemoryLink, NoMemory> {
    let link = link_of(alloc, sizes, fails)?;
    let copy = link.copy(alloc);
    drop(link);
    copy
}

fn link_row(
    rt: &impl Abort,
    alloc: Global,
    sizes: &[usize],
    fails: &[u64],
    told: &[u8],
) -> Result<(), Fail> {
    let mut link = copied_link(alloc, sizes, fails)?;
    let done = assert_link_reads(rt, alloc, &mut link, told);
    let left = link.left().len();
    drop(link);
    done?;
    same(rt, &"bytes left", left, 0);
    Ok(())
}

// The sizes of the pieces, the calls that fail, and what the reads answer.
const LINKS: [(&[usize], &[u64], &[u8]); 4] = [
    (&[], &[], b"abc|def|g||||"),
    (&[1, 9, 2], &[], b"a|bcd|ef|g|||"),
    (&[0, 0], &[3], b"a|b|cde|!|fg||"),
    (&[2], &[0, 4], b"!|ab|cde|fg|!||"),
];

#[test]
fn a_memory_link_hands_out_its_pieces(rt: HostRuntime) -> Result<(), Fail> {
    for &(sizes, fails, told) in &LINKS {
        link_row(&rt, rt.alloc(), sizes, fails, told)?;
    }
    Ok(())
}

// What is left to be read of a link, what was written, and how many faults were counted.
fn assert_link(rt: &impl Abort, link: &MemoryLink, written: &[u8], faults: u64) {
    same_bytes(rt, link.written(), written);
    same_bytes(rt, link.left(), b"b");
    same(rt, &"faults", link.faults(), faults);
}

fn put_row(rt: &impl Abort, mut link: MemoryLink, told: &[u8], written: &[u8], faults: u64) {
    let mut into = [0u8; 1];
    let is_read = link.read(&mut into).is_ok();
    assert!(rt; is_read);
    assert_link_puts(rt, &mut link, told);
    assert_link(rt, &link, written, faults);
    drop(link);
}

fn two_bytes(alloc: Global) -> Result<ByteList, NoMemory> {
    ByteList::from_slice(alloc, b"ab")
}

fn calls_of_a_link(alloc: Global) -> Result<CallList, NoMemory> {
    CallList::from_slice(alloc, &[3, 1])?.copy(alloc)
}

fn failing_link(alloc: Global) -> Result<MemoryLink, NoMemory> {
    let fails = calls_of_a_link(alloc)?;
    Ok(MemoryLink::new(alloc, two_bytes(alloc)?, fails))
}

fn tearing_link(alloc: Global) -> Result<MemoryLink, NoMemory> {
    let fails = calls_of_a_link(alloc)?;
    let bytes = two_bytes(alloc)?;
    Ok(MemoryLink::tearing(alloc, bytes, PieceList::new(alloc), fails))
}

#[test]
fn reads_and_puts_of_a_link_are_counted_together(rt: HostRuntime) -> Result<(), Fail> {
    put_row(&rt, failing_link(rt.alloc())?, b"!.!", b"cdef", 2);
    put_row(&rt, tearing_link(rt.alloc())?, b"!.!", b"acdefg", 2);
    Ok(())
}

fn bounded_link(alloc: Global) -> Result<BoundedLink, NoMemory> {
    let link = BoundedLink::new(alloc, two_bytes(alloc)?, 5)?;
    let copy = link.copy(alloc);
    drop(link);
    copy
}

fn assert_bounded(rt: &impl Abort, link: &BoundedLink) {
    same_bytes(rt, link.written(), b"abghi");
    same(rt, &"faults", link.faults(), 1);
    same_bytes(rt, link.left(), b"ab");
}

#[test]
fn a_bounded_link_fails_past_its_room_alone(rt: HostRuntime) -> Result<(), Fail> {
    let mut link = bounded_link(rt.alloc())?;
    assert_link_puts(&rt, &mut link, b".!.");
    assert_bounded(&rt, &link);
    let done = assert_link_reads(&rt, rt.alloc(), &mut link, b"ab||||||");
    drop(link);
    Ok(done?)
}

#[test]
fn interrupted_calls_of_a_link_are_made_again(rt: HostRuntime) -> Result<(), Fail> {
    let mut link = StreamLink::new(Stutter::new());
    let mut into = [0u8; 3];
    same(&rt, &"bytes read", link.read(&mut into).ok(), Some(1));
    assert_link_puts(&rt, &mut link, b".!!");
    assert_link_reads(&rt, rt.alloc(), &mut link, b"!|!|!|!|!|!|")?;
    same(&rt, &"faults", link.faults(), 20);
    Ok(())
}

#[test]
fn a_memory_clock_stands(rt: HostRuntime) -> Result<(), Fail> {
    let moment = Moment::try_new(1000).ok_or("a moment")?;
    let mut clock = MemoryClock::new(moment);
    same(&rt, &"first time", clock.now().number(), 1000);
    same(&rt, &"second time", clock.now().number(), 1000);
    same(&rt, &"calls", clock.calls(), 2);
    Ok(())
}

// 2026 began 1,767,225,600 seconds after 1970 did.
#[test]
fn the_clock_of_the_system_tells_the_time(rt: HostRuntime) -> Result<(), Fail> {
    let first = Moment::try_new(0).ok_or("a moment")?;
    let mut clock = SystemClock::new(&rt, first);
    assert!(rt; clock.now().number() > 1_767_225_600_000);
    Ok(())
}
