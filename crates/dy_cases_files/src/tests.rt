use dy_io::{Files, Found, HostFiles, HostSink, MemFiles, MemSink, ReadFail, Sink, WriteFail};
use std::alloc::{AllocError, Global};
use std::io::{ErrorKind, Write};
use std::{fs, io};

// Each call goes through the bound alone.
fn read<F: Files>(
    files: &mut F,
    alloc: Global,
    name: &str,
    most: u64,
    into: &mut Vec<u8>,
) -> Result<Found, ReadFail> {
    files.read(alloc, name, most, into)
}

fn write<F: Files>(files: &mut F, name: &str, bytes: &str) -> Result<(), WriteFail> {
    files.write(name, bytes.as_bytes())
}

fn put<S: Sink>(sink: &mut S, bytes: &str) -> Result<(), WriteFail> {
    sink.put(bytes.as_bytes())
}

#[test]
fn host_files_are_real_files(rt: HostRuntime) -> io::Result<()> {
    let alloc = rt.alloc();
    let mut files = HostFiles::new(&rt);
    let mut into = Vec::new(alloc);
    fs::create_dir(&rt, "folder")?;
    let answers = [
        ("missing", Ok(Found::Absent)),
        ("missing/too", Ok(Found::Absent)),
        ("folder", Err(ReadFail::Failed)),
        ("no\0name", Err(ReadFail::Failed)),
    ];
    for (name, answer) in answers {
        let found = read(&mut files, alloc, name, 9, &mut into);
        assert_eq!(rt; found, answer, "at {name}");
        assert!(rt; into.is_empty(), "at {name}");
    }
    assert_eq!(rt; write(&mut files, "folder", "x"), Err(WriteFail::Failed));
    assert_eq!(rt; write(&mut files, "folder/new", "over all"), Ok(()));
    assert_eq!(rt; write(&mut files, "folder/new", "0123456789"), Ok(()));
    let texts = [
        (4, "0123"),
        (10, "01230123456789"),
        (99, "012301234567890123456789"),
    ];
    for (most, text) in texts {
        let found = read(&mut files, alloc, "folder/new", most, &mut into);
        assert_eq!(rt; found, Ok(Found::Here), "at {most}");
        assert!(rt; into.as_slice() == text.as_bytes(), "at {most}");
    }
    fs::remove_file(&rt, "folder/new")?;
    fs::remove_dir(&rt, "folder")
}

#[test]
fn a_long_file_is_read_in_pieces(rt: HostRuntime) -> io::Result<()> {
    let alloc = rt.alloc();
    let mut files = HostFiles::new(&rt);
    let mut into = Vec::new(alloc);
    let long = "0123456789".repeat(alloc, 2000)?;
    assert_eq!(rt; write(&mut files, "long", long.as_str()), Ok(()));
    let found = read(&mut files, alloc, "long", 16390, &mut into);
    assert_eq!(rt; found, Ok(Found::Here));
    assert!(rt; into.as_slice() == &long.as_bytes()[..16390]);
    fs::remove_file(&rt, "long")
}

#[test]
fn a_host_sink_writes_in_order(rt: HostRuntime) -> io::Result<()> {
    let mut sink = HostSink::new(fs::create(&rt, "sent")?);
    for (piece, text) in [("one ", "one "), ("", "one "), ("two", "one two")] {
        assert_eq!(rt; put(&mut sink, piece), Ok(()), "at {piece}");
        assert!(rt;
            fs::read_to_string(&rt, "sent")?.as_str() == text,
            "at {piece}"
        );
    }
    let mut closed = HostSink::new(fs::open(&rt, "sent")?);
    assert_eq!(rt; put(&mut closed, "more"), Err(WriteFail::Failed));
    fs::remove_file(&rt, "sent")
}

// A writer that takes two bytes at a time, and whose second flush fails.
#[derive(Drop)]
struct Slow {
    held: Vec<u8>,
    flushes: u64,
}

impl Write for Slow {
    fn write(&mut self, bytes: &[u8]) -> io::Result<usize> {
        let count = bytes.len().min(2);
        self.held.extend_from_slice(&bytes[..count])?;
        Ok(count)
    }

    fn flush(&mut self) -> io::Result<()> {
        self.flushes = self.flushes.saturating_add(1);
        if self.flushes == 2 {
            return Err(io::Error::from(ErrorKind::Other));
        }
        Ok(())
    }
}

#[test]
fn a_flush_that_fails_is_a_failure(rt: HostRuntime) {
    let mut slow = Slow {
        held: Vec::new(rt.alloc()),
        flushes: 0,
    };
    let mut sink = HostSink::new(&mut slow);
    assert_eq!(rt; put(&mut sink, "first"), Ok(()));
    assert_eq!(rt; put(&mut sink, " second"), Err(WriteFail::Failed));
    assert_eq!(rt; put(&mut sink, " third"), Ok(()));
    drop(sink);
    assert!(rt; slow.held.as_slice() == "first second third".as_bytes());
    assert_eq!(rt; slow.flushes, 3);
}

#[test]
fn memory_fails_where_it_is_told_to(rt: HostRuntime) -> Result<(), AllocError> {
    let alloc = rt.alloc();
    let mut files = MemFiles::new(alloc);
    let mut into = Vec::new(alloc);
    files.add("a", "abc".as_bytes())?;
    files.fail_at(2)?;
    files.fail_at(4)?;
    assert_eq!(rt; read(&mut files, alloc, "a", 2, &mut into), Ok(Found::Here));
    assert_eq!(rt;
        read(&mut files, alloc, "a", 2, &mut into),
        Err(ReadFail::Failed)
    );
    assert_eq!(rt; write(&mut files, "b", "new"), Ok(()));
    assert_eq!(rt; write(&mut files, "a", "lost"), Err(WriteFail::Failed));
    assert_eq!(rt;
        read(&mut files, alloc, "a", 2, &mut into),
        Ok(Found::Absent)
    );
    assert_eq!(rt; read(&mut files, alloc, "b", 9, &mut into), Ok(Found::Here));
    assert!(rt; into.as_slice() == "abnew".as_bytes());
    assert!(rt; files.get("b") == Some("new".as_bytes()));

    let mut sink = MemSink::new(alloc);
    sink.fail_at(2)?;
    assert_eq!(rt; put(&mut sink, "one"), Ok(()));
    assert_eq!(rt; put(&mut sink, "two"), Err(WriteFail::Failed));
    assert_eq!(rt; put(&mut sink, "three"), Ok(()));
    assert!(rt; sink.bytes() == "onethree".as_bytes());
    Ok(())
}
