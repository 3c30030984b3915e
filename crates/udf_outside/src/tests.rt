//! What no clause says: what a bench in memory holds after calls and a restart, worked out by hand, that its calls succeed where
//! memory is ample, and what real files and devices do.
ghost use Rattle.std.specs.Prelude.{◌≡◌, ◌≤◌, None};

use crate::real_file::RealFile;
use crate::{Access, Bench, Failed, FileBench, MemBench, Role, Sink, StdSink, Stop};
use std::alloc::{AllocError, Global};
use std::fs;
use std::fs::Files;
use std::test::Fail;

/// Calls over an image `abcdef` and a side file `uv`, and what both hold after a restart that fills with `?`. In a row stand
/// its name, the number of the call that fails, that of the call at which a stop comes and how many bytes it then writes, the
/// calls, and the contents. No call has the number 0.
const ROWS: &str = "a write is pending until a sync | 0:0:0 | image:2:XY | ab??ef uv
a sync makes it durable | 0:0:0 | image:2:XY sync:image | abXYef uv
a sync of the other role does not | 0:0:0 | image:0:X sync:side | ?bcdef uv
a write extends | 0:0:0 | image:5:XYZ | abcde??? uv
each role has its own | 0:0:0 | side:2:XYZ image:6:P sync:side image:0:Q | ?bcdef? uvXYZ
a failed write writes nothing, and its range is pending | 1:0:0 | image:4:XY | abcd?? uv
until a sync | 1:0:0 | side:0:X sync:side | abcdef uv
as far as the file reaches | 1:0:0 | side:1:XYZ | abcdef u?
a failed sync leaves all pending | 2:0:0 | image:0:X sync:image | ?bcdef uv
what the stopped call wrote stays, and the rest is filled | 0:1:2 | image:1:XYZ | aXY?ef uv
a call that is stopped behind its end is whole | 0:1:9 | image:0:XY | XYcdef uv
what the stopped call wrote over stays too | 0:2:1 | image:3:XY image:2:PQR | abP??f uv
a file grows to what was written | 0:1:1 | side:2:XYZ | abcdef uvX
and does not where nothing was | 0:1:0 | side:2:X | abcdef uv
after the stop nothing changes | 0:1:1 | image:0:X image:1:Y sync:image | Xbcdef uv
a stopped sync leaves all pending | 0:2:0 | image:0:X sync:image | ?bcdef uv
the stopped call may be one that fails | 1:1:1 | image:0:XY | X?cdef uv
";

fn part(text: &str, separator: char, at: usize) -> &str {
    text.split(separator).nth(at).unwrap_or("").trim()
}

fn number(word: &str, at: usize) -> u64 {
    part(word, ':', at).parse::<u64>().unwrap_or(0)
}

/// A bench of which no call was made.
fn begun(alloc: Global, trouble: &str) -> Result<MemBench, AllocError> {
    let image = Vec::from_slice(alloc, b"abcdef")?;
    let side = Vec::from_slice(alloc, b"uv")?;
    let fail = Vec::from_slice(alloc, &[number(trouble, 0)])?;
    let stop = Stop {
        call: number(trouble, 1),
        bytes: number(trouble, 2),
    };
    Ok(MemBench::new(alloc, image, side, fail, Some(stop)))
}

/// Writes at an offset, or at the end where it lies past that.
#[tactic(auto, unfolding(crate::specs::Memory::files_in))]
fn write(bench: &mut MemBench, role: Role, word: &str) {
    let at = number(word, 1).min(bench.file(role).len());
    let _ = bench.write_at(role, at, part(word, ':', 2).as_bytes());
}

fn make(bench: &mut MemBench, word: &str) {
    match word {
        "sync:image" => {
            let _ = bench.sync(Role::Image);
        }
        "sync:side" => {
            let _ = bench.sync(Role::Side);
        }
        _ if word.starts_with("image") => write(bench, Role::Image, word),
        _ => write(bench, Role::Side, word),
    }
}

/// What the calls of a row leave.
fn left_by(alloc: Global, row: &str) -> Result<MemBench, AllocError> {
    let mut bench = begun(alloc, part(row, '|', 1))?;
    for word in part(row, '|', 2).split_whitespace() {
        make(&mut bench, word);
    }
    bench.restarted(b'?')
}

fn add_bytes(text: &mut String, bytes: &[u8]) -> Result<(), AllocError> {
    for byte in bytes {
        text.push(*byte as char)?;
    }
    Ok(())
}

fn add_contents(alloc: Global, text: &mut String, bench: &MemBench) -> Result<(), AllocError> {
    add_bytes(text, &bench.copy(alloc, Role::Image)?)?;
    text.push(' ')?;
    add_bytes(text, &bench.copy(alloc, Role::Side)?)
}

/// The row with the contents that are found.
fn add_row(alloc: Global, text: &mut String, row: &str) -> Result<(), AllocError> {
    let bench = left_by(alloc, row)?;
    text.push_str(row.rsplit_once('|').map_or(row, |parts| parts.0))?;
    text.push_str("| ")?;
    add_contents(alloc, text, &bench)?;
    text.push('\n')
}

fn found(alloc: Global, rows: &str) -> Result<String, AllocError> {
    let mut text = String::new(alloc);
    for row in rows.lines() {
        add_row(alloc, &mut text, row)?;
    }
    Ok(text)
}

#[test]
fn what_is_left_of_calls(rt: HostRuntime) -> Result<(), Fail> {
    let text = found(rt.alloc(), ROWS)?;
    assert_eq!(rt; text.as_str(), ROWS);
    Ok(())
}

/// Two tebibytes.
fn many() -> u64
    ensures { 4 ≤ result }
{
    2_199_023_255_552
}

/// The last bytes of two tebibytes of zeros, before and after they are written.
fn far_bytes(alloc: Global) -> Result<[[u8; 4]; 2], Failed> {
    let size = many();
    let (mut before, mut after) = ([7; 4], [7; 4]);
    let mut bench = MemBench::sparse(alloc, size);
    bench.read_at(Role::Image, size - 4, &mut before)?;
    bench.write_at(Role::Image, size - 4, b"wxyz")?;
    bench.read_at(Role::Image, size - 4, &mut after)?;
    Ok([before, after])
}

#[test]
fn a_sparse_bench(rt: HostRuntime) -> Result<(), Fail> {
    assert_eq!(rt; far_bytes(rt.alloc())?, [[0; 4], *b"wxyz"]);
    Ok(())
}

/// The lengths of an empty file before and after six letters are written to it.
fn grow(file: &mut RealFile) -> Result<[u64; 2], Failed> {
    let empty = file.len();
    file.write(0, b"abcdef")?;
    file.sync()?;
    Ok([empty, file.len()])
}

/// Three bytes of a file.
fn three(file: &RealFile, at: u64) -> Result<[u8; 3], Failed> {
    let mut bytes = [0; 3];
    file.read(at, &mut bytes)?;
    Ok(bytes)
}

#[test]
fn a_real_file(rt: HostRuntime) -> Result<(), Fail> {
    let name = "udf_outside.img";
    let mut file = RealFile::attached(&rt, name, Access::Create);
    let lengths = grow(&mut file);
    // the same file cannot be attached twice
    let twice = RealFile::attached(&rt, name, Access::Create).answer();
    let (first, last) = (three(&file, 1), three(&file, 3));
    // the file is cut behind its back, so that a read ends too early
    fs::write(&rt, name, "ab")?;
    let short = three(&file, 1);
    fs::remove_file(&rt, name)?;
    assert_eq!(rt; (lengths, twice), (Ok([0, 6]), Err(Failed)));
    assert_eq!(rt;
        [first, last, short],
        [Ok(*b"bcd"), Ok(*b"def"), Err(Failed)]
    );
    Ok(())
}

/// Writes to the side file of a bench.
fn write_aside<R: Files<File = fs::File> + Alloc + Drop>(
    bench: &mut FileBench<R>,
    name: &str,
) -> Result<(), Failed>
    requires { bench.old.files.side.asked ≡ None }
{
    bench.attach(Role::Side, name, Access::Create)?;
    bench.write_at(Role::Side, 0, b"abcdef")?;
    bench.sync(Role::Side)
}

#[test]
fn a_bench_over_files(rt: HostRuntime) -> Result<(), Fail> {
    let name = "udf_outside.log";
    let mut bench = FileBench::new(rt.clone()?);
    let answer = write_aside(&mut bench, name);
    let text = fs::read_to_string(&rt, name)?;
    fs::remove_file(&rt, name)?;
    assert_eq!(rt; (answer, text.as_str()), (Ok(()), "abcdef"));
    Ok(())
}

#[test]
fn what_is_no_file(rt: HostRuntime) -> Result<(), Fail> {
    let mut bench = FileBench::new(rt.clone()?);
    let folder = bench.attach(Role::Image, ".", Access::Read);
    let missing = bench.attach(Role::Side, "no/such/file", Access::Write);
    // what cannot tell its length
    let mut full = FileBench::new(rt.clone()?);
    let endless = full.attach(Role::Image, "/dev/full", Access::Write);
    assert_eq!(rt; [folder, missing, endless], [Err(Failed); 3]);
    Ok(())
}

#[test]
fn a_real_writer(rt: HostRuntime) -> Result<(), Fail> {
    let mut sink = StdSink::new(Vec::new(rt.alloc()));
    sink.put(b"one")?;
    let full = fs::OpenOptions::new().write(true).open(&rt, "/dev/full")?;
    let answer = StdSink::new(full).put(b"one");
    assert_eq!(rt; answer, Err(Failed));
    Ok(())
}
