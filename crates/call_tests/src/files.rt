//! The doubles of files and of the output in memory, and the host's own.
use outside::{Failed, Files, HostFiles, HostSink, MemFiles, MemSink, ReadFail, Sink, send_all};
use source_files::{ReadingStop, read_all};
use std::fs;
use std::test::Fail;

#[test]
fn memory_files_answer(rt: HostRuntime) -> Result<(), Fail> {
    let mut files = MemFiles::new(rt.alloc());
    files.put(b"A.java", b"class B {}")?;
    files.put(b"A.java", b"class A {}")?;
    files.fail_at(2)?;
    let mut into = Vec::new(rt.alloc());
    for (name, want) in [
        ("A.java", Ok(())),
        ("A.java", Err(ReadFail::Failed)),
        ("B.java", Err(ReadFail::Failed)),
        ("A.java", Ok(())),
    ] {
        into.clear();
        assert_eq!(rt; files.read(name, &mut into), want);
        let content: &[u8] = if want.is_ok() { b"class A {}" } else { b"" };
        assert_eq!(rt; into.as_slice(), content);
    }
    Ok(())
}

#[test]
fn memory_sink_takes(rt: HostRuntime) -> Result<(), Fail> {
    let mut sink = MemSink::new(rt.alloc(), 5, 3)?;
    sink.fail_at(2)?;
    for (piece, want) in [
        ("abcd", Ok(3)),
        ("d", Err(Failed)),
        ("de", Ok(2)),
        ("", Ok(0)),
        ("f", Err(Failed)),
    ] {
        assert_eq!(rt; sink.write(piece.as_bytes()), want);
    }
    assert_eq!(rt; sink.bytes(), b"abcde".as_slice());
    Ok(())
}

#[test]
fn host_files_read(rt: HostRuntime) -> Result<(), Fail> {
    let mut text = Vec::new(rt.alloc());
    for place in 0..10_000u32 {
        text.push((place / 100) as u8)?;
    }
    fs::write(&rt, "outside_test.txt", text.as_slice())?;
    let mut files = HostFiles::new(&rt);
    let mut into = Vec::new(rt.alloc());
    assert_eq!(rt; files.read("outside_test.txt", &mut into), Ok(()));
    assert_eq!(rt; into.as_slice(), text.as_slice());
    fs::remove_file(&rt, "outside_test.txt")?;
    into.clear();
    assert_eq!(rt;
        files.read("outside_test.txt", &mut into),
        Err(ReadFail::Failed)
    );
    assert!(rt; into.is_empty());
    Ok(())
}

#[test]
fn host_sink_writes(rt: HostRuntime) {
    let mut sink = HostSink::new(&rt);
    assert_eq!(rt; send_all(&mut sink, b"text\n"), Ok(()));
}

#[test]
fn files_are_read_in_order(rt: HostRuntime) -> Result<(), Fail> {
    let mut files = MemFiles::new(rt.alloc());
    files.put(b"A.java", b"class A {}")?;
    files.put(b"B.java", b"class B {}")?;
    let mut names = Vec::new(rt.alloc());
    names.push(String::from_str(rt.alloc(), "B.java")?)?;
    names.push(String::from_str(rt.alloc(), "A.java")?)?;
    match read_all(rt.alloc(), 0, &names, &mut files) {
        Ok(texts) => assert_eq!(rt; texts[1].bytes(), b"class A {}".as_slice()),
        Err(stop) => assert_eq!(rt; stop, ReadingStop::Failed(9)),
    }
    names.push(String::from_str(rt.alloc(), "C.java")?)?;
    assert!(rt;
        matches!(
            read_all(rt.alloc(), 0, &names, &mut files),
            Err(ReadingStop::Failed(2))
        )
    );
    Ok(())
}
