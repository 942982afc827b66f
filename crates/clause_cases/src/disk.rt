//! The files and the clock of the system: they tell nothing that a clause could speak of.

use outside::{Clock, DiskFiles, FileRefused, Files, SystemClock};
use std::fs::File;
use std::{env, fs, io, process, time};

/// How many bytes the file has, where it is read.
fn size<R: fs::Files + AllocGlobal>(rt: &R, name: &str) -> Result<usize, FileRefused> {
    Ok(
        DiskFiles::new(rt)
            .read(rt.alloc(), name.as_bytes())?
            .bytes()
            .len(),
    )
}

#[test]
fn files_are_read_up_to_the_limit(rt: HostRuntime) -> io::Result<()> {
    let folder = env::temp_dir(&rt)?;
    let name = format!(in rt.alloc();
        "{}/nt_files_{}",
        folder.display(),
        process::id(rt.process())
    )?;
    assert_eq!(rt; size(&rt, name.as_str()), Err(FileRefused::Failed));
    assert_eq!(rt; size(&rt, "/"), Err(FileRefused::Failed));
    let file = File::create(&rt, name.as_str())?;
    assert_eq!(rt; size(&rt, name.as_str()), Ok(0));
    file.set_len(16_777_216)?;
    assert_eq!(rt; size(&rt, name.as_str()), Ok(16_777_216));
    file.set_len(16_777_217)?;
    assert_eq!(rt; size(&rt, name.as_str()), Err(FileRefused::TooLong));
    fs::write(&rt, name.as_str(), "kept as it is\n")?;
    let content = DiskFiles::new(&rt).read(rt.alloc(), name.as_bytes());
    assert!(rt; content.is_ok_and(|content| content.bytes() == b"kept as it is\n".as_slice()));
    assert!(rt; DiskFiles::new(&rt).read(rt.alloc(), b"\xFF").is_err());
    fs::remove_file(&rt, name.as_str())
}

#[test]
fn moments_are_those_of_the_clock(rt: HostRuntime) -> io::Result<()> {
    let moment = SystemClock::new(&rt).now();
    let seconds = time::Clock::since_1970(&rt)?.as_secs();
    // The seconds from 1601 to 1970 (MS-DTYP 2.3.3) are between the two, and little time passed.
    assert!(rt; (moment / 10_000_000).abs_diff(seconds.saturating_add(11_644_473_600)) < 3600);
    Ok(())
}
