ghost use Rattle.std.specs.Prelude.{None, []};

use super::*;
use cr_base::PathText;
use std::alloc::Global;
use std::fs::Permissions;
use std::io::{self, Write};
use std::os::unix::fs::{PermissionsExt, symlink};
use std::test::Fail;
use std::{env, fs, process};

fn path_of(alloc: Global, text: &[u8]) -> Result<PathText, Fail> {
    Ok(PathText::normalise(alloc, &PathText::empty(alloc), text)?)
}

// A new folder, whose name no other test and no other run has.
fn folder(rt: &HostRuntime, name: &str) -> Result<String, Fail> {
    let base = env::temp_dir(rt)?;
    let number = process::id(rt.process());
    let path = format!(in rt.alloc(); "{}/cr_world-{name}-{number}", base.display())?;
    fs::create_dir(rt, path.as_str())?;
    Ok(path)
}

#[test]
fn a_tree_in_memory_holds_what_was_put_and_fails_where_told(rt: HostRuntime) -> Result<(), Fail> {
    let alloc = rt.alloc();
    let mut tree = MemTree::new(alloc);
    let here = path_of(alloc, b"/w/a.c")?;
    let there = path_of(alloc, b"/w/b.c")?;
    tree.put(here.copy(alloc)?, b"int a;".to_vec(alloc)?)?;
    tree.fail_read(2)?;
    tree.fail_replace(1)?;
    let mut into = Vec::new(alloc);
    let reads = [
        (&here, 6, ReadEnd::Bytes),
        (&here, 6, ReadEnd::Failed),
        (&here, 5, ReadEnd::Long),
        (&there, 6, ReadEnd::Absent),
    ];
    for (path, max, want) in reads {
        let end = tree.read(alloc, path, max, &mut into);
        assert_eq!(rt; end, want);
    }
    assert_eq!(rt; tree.replace(&there, b"x"), DoneEnd::Failed);
    assert!(rt; tree.get(&there).is_none());
    assert_eq!(rt; tree.replace(&there, b"y"), DoneEnd::Done);
    assert!(rt; matches!(tree.get(&there), Some(b"y")));
    assert!(rt; matches!(tree.get(&here), Some(b"int a;")));
    Ok(())
}

#[test]
fn a_sink_in_memory_skips_the_listed_write(rt: HostRuntime) -> Result<(), Fail> {
    let mut sink = MemSink::new(rt.alloc());
    sink.fail_write(2)?;
    let writes = [
        (b"ab", DoneEnd::Done),
        (b"cd", DoneEnd::Failed),
        (b"ef", DoneEnd::Done),
    ];
    for (piece, want) in writes {
        assert_eq!(rt; sink.write(piece), want);
    }
    assert_eq!(rt; sink.bytes(), b"abef".as_slice());
    Ok(())
}

#[test]
fn real_files_are_read_up_to_the_limit(rt: HostRuntime) -> Result<(), Fail> {
    let alloc = rt.alloc();
    let base = folder(&rt, "read")?;
    let name = format!(in alloc; "{base}/a.c")?;
    let text = vec![in alloc; b'x'; 5000]?;
    fs::write(&rt, name.as_str(), text.as_slice())?;
    let absent = format!(in alloc; "{base}/b.c")?;
    let mut tree = DirTree::new(alloc, SystemDisk::new(&rt));
    let mut into = Vec::new(alloc);
    let reads: [(&[u8], usize, ReadEnd, usize); 7] = [
        (name.as_bytes(), 20000, ReadEnd::Bytes, 5000),
        (name.as_bytes(), 5000, ReadEnd::Bytes, 5000),
        (name.as_bytes(), 4999, ReadEnd::Long, 0),
        (absent.as_bytes(), 5000, ReadEnd::Absent, 0),
        (base.as_bytes(), 5000, ReadEnd::Failed, 0),
        (b"/dev/zero", 5000, ReadEnd::Failed, 0),
        (b"\xff.c", 5000, ReadEnd::Failed, 0),
    ];
    for (path, max, want, len) in reads {
        let end = tree.read(alloc, &path_of(alloc, path)?, max, &mut into);
        assert_eq!(rt; end, want);
        assert_eq!(rt; into.len(), len);
        assert!(rt; into.iter().all(|byte| *byte == b'x'));
    }
    fs::remove_dir_all(&rt, base.as_str())?;
    Ok(())
}

// Replaces a real file by `int new;`.
fn replaced(rt: &HostRuntime, name: &str) -> Result<DoneEnd, Fail> {
    let alloc = rt.alloc();
    let mut tree = DirTree::new(alloc, SystemDisk::new(rt));
    Ok(tree.replace(&path_of(alloc, name.as_bytes())?, b"int new;"))
}

#[test]
fn a_real_file_keeps_its_mode_and_no_neighbour_is_left(rt: HostRuntime) -> Result<(), Fail> {
    let alloc = rt.alloc();
    let base = folder(&rt, "mode")?;
    let name = format!(in alloc; "{base}/a.c")?;
    let beside = format!(in alloc; "{name}.crename~")?;
    for mode in [0o600, 0o755, 0o444] {
        fs::write(&rt, name.as_str(), b"int old;".as_slice())?;
        fs::set_permissions(&rt, name.as_str(), Permissions::from_mode(mode))?;
        assert_eq!(rt; replaced(&rt, &name)?, DoneEnd::Done);
        let now = fs::read_to_string(&rt, name.as_str())?;
        assert_eq!(rt; now.as_str(), "int new;");
        let found = fs::metadata(&rt, name.as_str())?.permissions().mode();
        assert_eq!(rt; found & 0o7777, mode);
        assert!(rt; fs::symlink_metadata(&rt, beside.as_str()).is_err());
        fs::remove_file(&rt, name.as_str())?;
    }
    assert_eq!(rt; replaced(&rt, &name)?, DoneEnd::Failed);
    fs::remove_dir_all(&rt, base.as_str())?;
    Ok(())
}

// What may stand at the neighbour's path before a replace.
#[derive(Clone, Copy, PartialEq, Eq)]
enum Standing {
    File,
    Link,
    Dangling,
    Folder,
}

fn put(rt: &HostRuntime, standing: Standing, at: &str, other: &str) -> io::Result<()> {
    match standing {
        Standing::File => fs::write(rt, at, b"mine".as_slice()),
        Standing::Link => symlink(rt, other, at),
        Standing::Dangling => symlink(rt, "/no/such/file", at),
        Standing::Folder => fs::create_dir(rt, at),
    }
}

#[test]
fn what_stands_at_the_neighbours_path_is_not_touched(rt: HostRuntime) -> Result<(), Fail> {
    let alloc = rt.alloc();
    let all = [
        Standing::File,
        Standing::Link,
        Standing::Dangling,
        Standing::Folder,
    ];
    for standing in all {
        let base = folder(&rt, "neighbour")?;
        let name = format!(in alloc; "{base}/a.c")?;
        let other = format!(in alloc; "{base}/other.c")?;
        let beside = format!(in alloc; "{name}.crename~")?;
        fs::write(&rt, name.as_str(), b"int old;".as_slice())?;
        fs::write(&rt, other.as_str(), b"mine".as_slice())?;
        put(&rt, standing, &beside, &other)?;
        assert_eq!(rt; replaced(&rt, &name)?, DoneEnd::Failed);
        let now = fs::read_to_string(&rt, name.as_str())?;
        assert_eq!(rt; now.as_str(), "int old;");
        let now = fs::read_to_string(&rt, other.as_str())?;
        assert_eq!(rt; now.as_str(), "mine");
        let kind = fs::symlink_metadata(&rt, beside.as_str())?.file_type();
        assert_eq!(rt; kind.is_dir(), standing == Standing::Folder);
        assert_eq!(rt; kind.is_file(), standing == Standing::File);
        fs::remove_dir_all(&rt, base.as_str())?;
    }
    Ok(())
}

#[test]
fn a_link_stays_one_and_its_file_is_replaced(rt: HostRuntime) -> Result<(), Fail> {
    let alloc = rt.alloc();
    let base = folder(&rt, "link")?;
    let file = format!(in alloc; "{base}/file.c")?;
    let link = format!(in alloc; "{base}/link.c")?;
    fs::write(&rt, file.as_str(), b"int old;".as_slice())?;
    symlink(&rt, "file.c", link.as_str())?;
    assert_eq!(rt; replaced(&rt, &link)?, DoneEnd::Done);
    assert!(rt; fs::symlink_metadata(&rt, link.as_str())?.is_symlink());
    let now = fs::read_to_string(&rt, file.as_str())?;
    assert_eq!(rt; now.as_str(), "int new;");
    for name in [&file, &link] {
        let beside = format!(in alloc; "{name}.crename~")?;
        assert!(rt; fs::symlink_metadata(&rt, beside.as_str()).is_err());
    }
    fs::remove_dir_all(&rt, base.as_str())?;
    Ok(())
}

// A disk with one file and at most one draft, of which the step with this number fails.
#[derive(Drop)]
struct FailingDisk {
    step: u32,
    has_draft: bool,
    is_new: bool,
}

impl FailingDisk {
    fn done(&mut self) -> DoneEnd {
        self.step = self.step.wrapping_sub(1);
        if self.step == 0 {
            DoneEnd::Failed
        } else {
            DoneEnd::Done
        }
    }
}

impl Disk for FailingDisk {
    type Reader = io::Empty;

    type Draft = u8;

    ghost files = { λ d. None };

    ghost place = { λ draft. [] };

    fn open(&self, _path: &[u8]) -> Result<io::Empty, OpenFault> {
        Err(OpenFault::Absent)
    }

    fn target(&self, alloc: Global, path: &[u8]) -> Option<Vec<u8>> {
        path.to_vec(alloc).ok()
    }

    fn make(&mut self, _path: &[u8]) -> Option<u8> {
        self.has_draft = true;
        Some(0)
    }

    fn take_mode(&mut self, _draft: &mut u8, _of: &[u8]) -> DoneEnd {
        self.done()
    }

    fn write(&mut self, _draft: &mut u8, _bytes: &[u8]) -> DoneEnd {
        self.done()
    }

    fn sync(&mut self, _draft: &mut u8) -> DoneEnd {
        self.done()
    }

    fn rename(&mut self, _from: &[u8], _to: &[u8]) -> DoneEnd {
        let end = self.done();
        if end == DoneEnd::Done {
            self.has_draft = false;
            self.is_new = true;
        }
        end
    }

    fn remove(&mut self, _path: &[u8]) {
        self.has_draft = false;
    }
}

#[test]
fn whatever_step_fails_the_neighbour_is_taken_away(rt: HostRuntime) -> Result<(), Fail> {
    let alloc = rt.alloc();
    for (step, want) in [
        (1, DoneEnd::Failed),
        (2, DoneEnd::Failed),
        (3, DoneEnd::Failed),
        (4, DoneEnd::Failed),
        (5, DoneEnd::Done),
    ] {
        let disk = FailingDisk {
            step,
            has_draft: false,
            is_new: false,
        };
        let mut tree = DirTree::new(alloc, disk);
        assert_eq!(rt; tree.replace(&path_of(alloc, b"a.c")?, b"x"), want);
        assert!(rt; !tree.disk().has_draft);
        assert_eq!(rt; tree.disk().is_new, want == DoneEnd::Done);
    }
    Ok(())
}

// Takes at most so many bytes at a time.
#[derive(Drop)]
struct Narrow {
    width: usize,
}

impl Write for Narrow {
    fn write(&mut self, buf: &[u8]) -> io::Result<usize> {
        Ok(buf.len().min(self.width))
    }

    fn flush(&mut self) -> io::Result<()> {
        Ok(())
    }
}

#[test]
fn a_stream_that_takes_nothing_is_an_error(rt: HostRuntime) -> Result<(), Fail> {
    for (width, want) in [(0, DoneEnd::Failed), (2, DoneEnd::Done)] {
        let mut sink = StdSink::new(Narrow { width });
        assert_eq!(rt; sink.write(b"abcde"), want);
        assert_eq!(rt; sink.write(b""), DoneEnd::Done);
    }
    let mut out = StdSink::new(io::writer(&rt));
    assert_eq!(rt; out.write(b""), DoneEnd::Done);
    Ok(())
}
