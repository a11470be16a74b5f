//! Values from outside, and the edge to the system.
ghost use Rattle.std.specs.Prelude.{◌≡◌, ◌+◌, ◌≤◌, ◌++◌, Some, length, IfOk, IsOk, IsErrOf};
ghost use Rattle.pm_io.specs.NamedFiles.{file_named};

use pm_io::{
    Failed, FileInputs, ReadFault, Sink, StdSink, SureInputs, SureSink, read_all, write_all,
};
use std::alloc::{AllocError, Global};
use std::io::Write;
use std::test::Fail;
use std::{fs, io};

/// Over sure inputs the answer is the file, where there is memory and it isn't too long.
fn read_sure(
    alloc: Global,
    inputs: &mut SureInputs,
    name: &str,
    limit: usize,
) -> Result<Vec<u8>, ReadFault>
    ensures file { IfOk result (λ bytes. file_named inputs.old.files name.now ≡ Some bytes.items) }
    ensures sure { ¬ IsErrOf result ReadFault.Read }
{
    read_all(alloc, inputs, name, limit)
}

/// A sink with room for the text takes it.
fn write_sure(sink: &mut SureSink, text: &[u8]) -> Result<(), Failed>
    requires { length sink.old.taken + length text.now ≤ sink.old.room }
    ensures ok { IsOk result }
    ensures taken { sink.new.taken ≡ sink.old.taken ++ text.now }
{
    write_all(sink, text)
}

fn some_files(alloc: Global) -> Result<SureInputs, AllocError> {
    let mut files = Vec::new(alloc);
    files.push((String::from_str(alloc, "empty")?, Vec::new(alloc)))?;
    files.push((String::from_str(alloc, "five")?, b"hello".to_vec(alloc)?))?;
    files.push((String::from_str(alloc, "five")?, b"later".to_vec(alloc)?))?;
    files.push((String::from_str(alloc, "long")?, vec![in alloc; 7; 20000]?))?;
    Ok(SureInputs::new(files))
}

#[test]
fn files_are_read_to_the_limit(rt: HostRuntime) -> Result<(), Fail> {
    let mut inputs = some_files(rt.alloc())?;
    for (name, limit, want) in [
        ("empty", 0, Ok(0)),
        ("five", 5, Ok(5)),
        ("five", 4, Err(ReadFault::TooLong)),
        ("six", 9, Err(ReadFault::Missing)),
        ("long", 20000, Ok(20000)),
        ("long", 19999, Err(ReadFault::TooLong)),
    ] {
        let length = read_sure(rt.alloc(), &mut inputs, name, limit).map(|bytes| bytes.len());
        assert_eq!(rt; length, want, "at {name} and {limit}");
    }
    let first = read_sure(rt.alloc(), &mut inputs, "five", 9)?;
    assert_eq!(rt; first.as_slice(), b"hello".as_slice());
    Ok(())
}

#[test]
fn a_sure_sink_takes_what_fits(rt: HostRuntime) -> Result<(), Fail> {
    let mut sink = SureSink::with_room(rt.alloc(), 8)?;
    assert_eq!(rt; write_all(&mut sink, b"hello"), Ok(()));
    assert_eq!(rt; write_all(&mut sink, b" world"), Err(Failed));
    assert_eq!(rt; sink.taken(), b"hello wo".as_slice());
    assert_eq!(rt; sink.write(b""), Ok(0));
    Ok(())
}

#[test]
fn files_of_the_system_are_read(rt: HostRuntime) -> Result<(), Fail> {
    fs::write(&rt, "pm_io_test.txt", b"kept on disk".as_slice())?;
    let mut inputs = FileInputs::new(&rt);
    let bytes = read_all(rt.alloc(), &mut inputs, "pm_io_test.txt", 99)?;
    assert_eq!(rt; bytes.as_slice(), b"kept on disk".as_slice());
    for (name, want) in [
        ("pm_io_test.txt", ReadFault::TooLong),
        ("pm_io_test.none", ReadFault::Missing),
        (".", ReadFault::Read),
    ] {
        let fault = read_all(rt.alloc(), &mut inputs, name, 3).err();
        assert_eq!(rt; fault, Some(want), "at {name}");
    }
    fs::remove_file(&rt, "pm_io_test.txt")?;
    Ok(())
}

#[test]
fn files_of_several_pieces_are_read(rt: HostRuntime) -> Result<(), Fail> {
    let mut want = Vec::new(rt.alloc());
    for at in 0..40_000u32 {
        want.push((at % 251) as u8)?;
    }
    fs::write(&rt, "pm_io_long_test.txt", want.as_slice())?;
    let mut inputs = FileInputs::new(&rt);
    let bytes = read_all(rt.alloc(), &mut inputs, "pm_io_long_test.txt", 40_000)?;
    assert_eq!(rt; bytes.as_slice(), want.as_slice());
    let fault = read_all(rt.alloc(), &mut inputs, "pm_io_long_test.txt", 39_999).err();
    assert_eq!(rt; fault, Some(ReadFault::TooLong));
    fs::remove_file(&rt, "pm_io_long_test.txt")?;
    Ok(())
}

/// Takes three bytes at once, keeps the first six, and then fails.
#[derive(Drop)]
struct Slow<'a> {
    kept: &'a mut Vec<u8>,
}

impl Write for Slow<'_> {
    fn write(&mut self, bytes: &[u8]) -> io::Result<usize> {
        if self.kept.len() >= 6 {
            return Err(io::Error::other("full"));
        }
        let count = bytes.len().min(3);
        self.kept.extend_from_slice(&bytes[..count])?;
        Ok(count)
    }

    fn flush(&mut self) -> io::Result<()> {
        Ok(())
    }
}

#[test]
fn a_writer_takes_bytes_until_it_fails(rt: HostRuntime) -> Result<(), Fail> {
    let mut kept = Vec::new(rt.alloc());
    assert_eq!(rt;
        write_all(&mut StdSink::new(Slow { kept: &mut kept }), b"hello"),
        Ok(())
    );
    assert_eq!(rt; kept.as_slice(), b"hello".as_slice());
    assert_eq!(rt;
        write_all(&mut StdSink::new(Slow { kept: &mut kept }), b"abcdefgh"),
        Err(Failed)
    );
    assert_eq!(rt; kept.as_slice(), b"helloabc".as_slice());
    Ok(())
}

/// Keeps all bytes, 1,000 at once.
#[derive(Drop)]
struct Wide<'a> {
    kept: &'a mut Vec<u8>,
}

impl Write for Wide<'_> {
    fn write(&mut self, bytes: &[u8]) -> io::Result<usize> {
        let count = bytes.len().min(1000);
        self.kept.extend_from_slice(&bytes[..count])?;
        Ok(count)
    }

    fn flush(&mut self) -> io::Result<()> {
        Ok(())
    }
}

#[test]
fn a_long_text_is_written_whole(rt: HostRuntime) -> Result<(), Fail> {
    let mut text = Vec::new(rt.alloc());
    for at in 0..20_000u32 {
        text.push((at % 251) as u8)?;
    }
    let mut kept = Vec::new(rt.alloc());
    let sink = &mut StdSink::new(Wide { kept: &mut kept });
    assert_eq!(rt; write_all(sink, text.as_slice()), Ok(()));
    assert_eq!(rt; kept.as_slice(), text.as_slice());
    Ok(())
}
