//! Writes to the files of the system: they tell nothing that a clause could speak of.

use outside::{DiskFiles, Failed, Files};
use std::fs::{File, Permissions};
use std::os::unix::fs::PermissionsExt;
use std::{env, fs, io, process};

/// What a write of these bytes to the file is answered.
fn write<R: fs::Files>(files: &R, name: &str, bytes: &[u8]) -> Result<(), Failed> {
    DiskFiles::new(files).write(name.as_bytes(), bytes)
}

/// Whether the file holds these bytes.
fn holds<R: fs::Files + AllocGlobal>(rt: &R, name: &str, bytes: &[u8]) -> bool {
    DiskFiles::new(rt)
        .read(rt.alloc(), name.as_bytes())
        .is_ok_and(|content| content.bytes() == bytes)
}

#[test]
fn a_write_replaces_the_file_or_leaves_it(rt: HostRuntime) -> io::Result<()> {
    let folder = env::temp_dir(&rt)?;
    let name = format!(in rt.alloc();
        "{}/nt_writes_{}",
        folder.display(),
        process::id(rt.process())
    )?;
    let name = name.as_str();
    let beside = format!(in rt.alloc(); "{name}.new")?;
    let beside = beside.as_str();
    // A new file, then more bytes, fewer and none; nothing stays beside it.
    for content in [b"first\n".as_slice(), b"second and longer\n", b"3", b""] {
        assert_eq!(rt; write(&rt, name, content), Ok(()));
        assert!(rt; holds(&rt, name, content));
        assert!(rt; !fs::exists(&rt, beside)?);
    }
    // A file that an earlier stop left beside it is replaced too.
    fs::write(&rt, beside, "left over\n")?;
    assert_eq!(rt; write(&rt, name, b"kept\n"), Ok(()));
    assert!(rt; holds(&rt, name, b"kept\n"));
    assert!(rt; !fs::exists(&rt, beside)?);
    // Where no file can be made beside it, the write fails and the old file stays.
    fs::create_dir(&rt, beside)?;
    assert_eq!(rt; write(&rt, name, b"lost\n"), Err(Failed));
    assert!(rt; holds(&rt, name, b"kept\n"));
    fs::remove_dir(&rt, beside)?;
    // Who may read it stays as it was.
    File::open(&rt, name)?.set_permissions(Permissions::from_mode(0o600))?;
    assert_eq!(rt; write(&rt, name, b"last\n"), Ok(()));
    assert_eq!(rt;
        fs::metadata(&rt, name)?.permissions().mode() & 0o777,
        0o600
    );
    assert!(rt; holds(&rt, name, b"last\n"));
    fs::remove_file(&rt, name)
}

#[test]
fn a_write_needs_a_folder_and_a_file(rt: HostRuntime) -> io::Result<()> {
    let folder = env::temp_dir(&rt)?;
    let name = format!(in rt.alloc();
        "{}/nt_folder_{}",
        folder.display(),
        process::id(rt.process())
    )?;
    let name = name.as_str();
    let inside = format!(in rt.alloc(); "{name}/file")?;
    let inside = inside.as_str();
    let beside = format!(in rt.alloc(); "{name}.new")?;
    // A file in a folder that isn't there.
    assert_eq!(rt; write(&rt, inside, b"lost\n"), Err(Failed));
    assert!(rt; !fs::exists(&rt, name)?);
    // A folder in the place of the file: the folder and what is in it stay, and nothing stays beside it.
    fs::create_dir(&rt, name)?;
    assert_eq!(rt; write(&rt, inside, b"kept\n"), Ok(()));
    assert_eq!(rt; write(&rt, name, b"lost\n"), Err(Failed));
    assert!(rt; holds(&rt, inside, b"kept\n"));
    assert!(rt; !fs::exists(&rt, beside.as_str())?);
    fs::remove_file(&rt, inside)?;
    // A name of no bytes, one that is no text, and one that is longer than a path may be.
    assert_eq!(rt; write(&rt, "", b"lost\n"), Err(Failed));
    assert_eq!(rt; DiskFiles::new(&rt).write(b"\xFF", b"lost\n"), Err(Failed));
    assert_eq!(rt;
        DiskFiles::new(&rt).write(&[b'a'; 4097], b"lost\n"),
        Err(Failed)
    );
    fs::remove_dir(&rt, name)
}
