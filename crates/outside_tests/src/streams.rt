use outside::{
    DirShelf, Failed, MemShelf, MemSink, MemSource, OutFail, Shelf, Sink, Source, StdSink,
    StdSource, SureShelf, SureSink, SureSource,
};
use std::alloc::{AllocError, Global};
use std::fs;
use std::io::{self, ErrorKind, Read, Write};
use std::process::Abort;
use std::rt::Files;
use std::test::Fail;

// What a source gives to a buffer of four bytes. Each piece ends with a bar, and a failed read is a mark.
fn pieces<S: Source>(alloc: Global, source: &mut S) -> Result<Vec<u8>, AllocError> {
    let mut shown = Vec::new(alloc);
    let mut buf = [0u8; 4];
    for _ in 0..20 {
        match source.read(&mut buf) {
            Ok(0) => break,
            Ok(len) => {
                shown.extend_from_slice(&buf[..len])?;
                shown.push(b'|')?;
            }
            Err(Failed) => shown.push(b'!')?,
        }
    }
    Ok(shown)
}

const TEXT: &[u8] = b"abcdefg";

// The most bytes of a piece, the numbers of the reads that fail, and the pieces.
const READ: &[(usize, &[u64], &[u8])] = &[
    (1, &[], b"a|b|c|d|e|f|g|"),
    (3, &[], b"abc|def|g|"),
    (9, &[], b"abcd|efg|"),
    (3, &[2], b"abc|!def|g|"),
    (3, &[1, 2, 5], b"!!abc|def|!g|"),
];

fn is_read_so(alloc: Global, cut: usize, fail: &[u64], want: &[u8]) -> Result<bool, AllocError> {
    let fail = fail.to_vec(alloc)?;
    let text = TEXT.to_vec(alloc)?;
    let mut source = MemSource::new(text, cut.max(1), fail);
    let read = pieces(alloc, &mut source)?;
    Ok(read.as_slice() == want)
}

#[test]
fn reads_in_pieces_and_fails_at_the_numbered_calls(rt: HostRuntime) -> Result<(), Fail> {
    for &(cut, fail, want) in READ {
        let right = is_read_so(rt.alloc(), cut, fail, want)?;
        assert!(rt; right, "in pieces of {cut}");
    }
    Ok(())
}

const WHOLE: &[u8] = b"abcd|efg|";

fn is_read_whole<S: Source>(alloc: Global, source: &mut S) -> Result<bool, AllocError> {
    let read = pieces(alloc, source)?;
    Ok(read.as_slice() == WHOLE)
}

fn sure_is_read_whole(alloc: Global) -> Result<bool, AllocError> {
    let mut sure = SureSource::new(TEXT.to_vec(alloc)?);
    is_read_whole(alloc, &mut sure)
}

#[test]
fn sure_and_standard_sources_are_read_whole(rt: HostRuntime) -> Result<(), Fail> {
    let sure = sure_is_read_whole(rt.alloc())?;
    assert!(rt; sure);
    let mut standard = StdSource::new(TEXT);
    let whole = is_read_whole(rt.alloc(), &mut standard)?;
    assert!(rt; whole);
    Ok(())
}

// Writes the whole text, with at most twenty calls. Each failed call is a mark.
fn failures<K: Sink>(alloc: Global, sink: &mut K) -> Result<Vec<u8>, AllocError> {
    let mut shown = Vec::new(alloc);
    let mut rest = TEXT;
    for _ in 0..20 {
        if rest.is_empty() {
            break;
        }
        match sink.write(rest) {
            Ok(len) => {
                shown.push(b'.')?;
                rest = &rest[len..];
            }
            Err(_) => shown.push(b'!')?,
        }
    }
    Ok(shown)
}

// The most bytes of a piece, the numbers of the writes that fail, and how the writes go.
const WRITTEN: &[(usize, &[u64], &[u8])] = &[
    (2, &[], b"...."),
    (9, &[], b"."),
    (3, &[1, 3], b"!.!.."),
];

// Whether the writes go so, and the text is there afterwards.
fn is_written_so(alloc: Global, cut: usize, fail: &[u64], want: &[u8]) -> Result<bool, AllocError> {
    let fail = fail.to_vec(alloc)?;
    let mut sink = MemSink::new(alloc, cut.max(1), fail);
    let shown = failures(alloc, &mut sink)?;
    Ok(shown.as_slice() == want && sink.bytes() == TEXT)
}

#[test]
fn writes_in_pieces_and_fails_at_the_numbered_calls(rt: HostRuntime) -> Result<(), Fail> {
    for &(cut, fail, want) in WRITTEN {
        let right = is_written_so(rt.alloc(), cut, fail, want)?;
        assert!(rt; right, "in pieces of {cut}");
    }
    Ok(())
}

fn sure_is_written_whole(alloc: Global) -> Result<bool, AllocError> {
    let mut sure = SureSink::new(alloc);
    let shown = failures(alloc, &mut sure)?;
    Ok(shown.as_slice() == b".".as_slice() && sure.bytes() == TEXT)
}

#[test]
fn sure_sinks_are_written_whole(rt: HostRuntime) -> Result<(), Fail> {
    let right = sure_is_written_whole(rt.alloc())?;
    assert!(rt; right);
    Ok(())
}

// A stream that breaks, and a writer that takes nothing.
#[derive(Drop)]
struct Broken;

#[derive(Drop)]
struct Stuck;

impl Read for Broken {
    fn read(&mut self, _buf: &mut [u8]) -> io::Result<usize> {
        Err(io::Error::from(ErrorKind::BrokenPipe))
    }
}

impl Write for Broken {
    fn write(&mut self, buf: &[u8]) -> io::Result<usize> {
        Ok(buf.len())
    }

    fn flush(&mut self) -> io::Result<()> {
        Err(io::Error::from(ErrorKind::BrokenPipe))
    }
}

impl Write for Stuck {
    fn write(&mut self, _buf: &[u8]) -> io::Result<usize> {
        Ok(0)
    }

    fn flush(&mut self) -> io::Result<()> {
        Ok(())
    }
}

#[test]
fn standard_streams_fail_as_their_readers_and_writers_do(rt: HostRuntime) {
    let mut source = StdSource::new(Broken);
    assert!(rt; matches!(source.read(&mut [0; 4]), Err(Failed)));
    let mut broken = StdSink::new(Broken);
    assert!(rt; matches!(broken.write(b"abc"), Err(OutFail::Failed)));
    let mut stuck = StdSink::new(Stuck);
    assert!(rt; matches!(stuck.write(b"abc"), Err(OutFail::Failed)));
    let mut sink = StdSink::new(io::sink());
    assert!(rt; matches!(sink.write(b"abc"), Ok(3)));
}

// Whether the text of the name is this one.
fn holds<K: Shelf>(shelf: &mut K, name: &[u8], text: &[u8]) -> bool {
    match shelf.fetch(name) {
        Ok(Some(found)) => found.as_slice() == text,
        _ => false,
    }
}

fn stores<K: Shelf>(shelf: &mut K, name: &[u8], text: &[u8]) -> bool {
    matches!(shelf.store(name, text), Ok(()))
}

fn fails_to_store<K: Shelf>(shelf: &mut K, name: &[u8], text: &[u8]) -> bool {
    matches!(shelf.store(name, text), Err(OutFail::Failed))
}

fn fails_to_fetch<K: Shelf>(shelf: &mut K, name: &[u8]) -> bool {
    matches!(shelf.fetch(name), Err(OutFail::Failed))
}

// The third and the fourth call fail.
fn calls_fail(rt: &impl Abort, shelf: &mut MemShelf) {
    assert!(rt; stores(shelf, b"a", b"two"));
    assert!(rt; holds(shelf, b"a", b"two"));
    assert!(rt; fails_to_store(shelf, b"a", b"three"));
    assert!(rt; fails_to_fetch(shelf, b"a"));
    assert!(rt; shelf.get(b"a") == Some(b"two".as_slice()));
}

fn shelf_failing(alloc: Global, fail: &[u64]) -> Result<MemShelf, AllocError> {
    let fail = fail.to_vec(alloc)?;
    let mut shelf = MemShelf::new(alloc, fail);
    shelf.put(b"a", b"one")?;
    Ok(shelf)
}

#[test]
fn a_shelf_fails_at_the_numbered_calls(rt: HostRuntime) -> Result<(), Fail> {
    let mut shelf = shelf_failing(rt.alloc(), &[3, 4])?;
    calls_fail(&rt, &mut shelf);
    Ok(())
}

fn keeps_texts(rt: &impl Abort, shelf: &mut SureShelf) -> Result<(), AllocError> {
    shelf.put(b"a", b"one")?;
    assert!(rt; stores(shelf, b"", b"empty"));
    assert!(rt; holds(shelf, b"a", b"one"));
    assert!(rt; shelf.get(b"") == Some(b"empty".as_slice()));
    Ok(())
}

#[test]
fn a_sure_shelf_keeps_texts(rt: HostRuntime) -> Result<(), Fail> {
    let mut shelf = SureShelf::new(rt.alloc());
    keeps_texts(&rt, &mut shelf)?;
    Ok(())
}

const NAME: &[u8] = b"outside_test_text";

fn is_kept_in_a_file<K: Shelf>(rt: &impl Abort, shelf: &mut K) {
    assert!(rt; stores(shelf, NAME, b"long text"));
    assert!(rt; stores(shelf, NAME, b"text"));
    assert!(rt; holds(shelf, NAME, b"text"));
}

// One byte longer than a text may be.
fn make_it_too_long(rt: &HostRuntime) -> Result<(), Fail> {
    fs::File::create(rt, "outside_test_text")?.set_len(536_870_913)?;
    Ok(())
}

fn is_read_from_its_file<K: Shelf>(
    rt: &impl Abort,
    host: &HostRuntime,
    shelf: &mut K,
) -> Result<(), Fail> {
    make_it_too_long(host)?;
    assert!(rt; fails_to_fetch(shelf, NAME));
    fs::remove_file(host, "outside_test_text")?;
    assert!(rt; matches!(shelf.fetch(NAME), Ok(None)));
    Ok(())
}

#[test]
fn a_folder_keeps_texts_in_files(rt: HostRuntime) -> Result<(), Fail> {
    let mut shelf = DirShelf::new(rt.clone()?);
    is_kept_in_a_file(&rt, &mut shelf);
    is_read_from_its_file(&rt, &rt, &mut shelf)
}

const NO_NAMES: &[&[u8]] = &[b"", b".", b"..", b"a/b", b"/", b"\xff"];

fn refuses_names<K: Shelf>(rt: &impl Abort, shelf: &mut K) {
    for &name in NO_NAMES {
        assert!(rt; fails_to_fetch(shelf, name), "{name:?}");
        assert!(rt; fails_to_store(shelf, name, b"text"), "{name:?}");
    }
}

#[test]
fn a_folder_refuses_what_names_no_file_in_it(rt: HostRuntime) -> Result<(), Fail> {
    let mut shelf = DirShelf::new(rt.clone()?);
    refuses_names(&rt, &mut shelf);
    Ok(())
}
