use crate::{FileDisk, Missing, OpenFault};
use disk_log::{Disk, DiskLog, LogRefusal};
use outside::{Failed, Keeper};
use std::os::unix::fs::symlink;
use std::process::Abort;
use std::test::Fail;
use std::{fs, io};

const FOLDER: &str = "file_disk_test";

const PATH: &str = "file_disk_test/bytes";

const LINK: &str = "file_disk_test/link";

const LOGS: &str = "file_disk_test_logs";

const JOURNAL: &str = "file_disk_test_logs/journal";

/// Writes three bytes, and reads the last two: what was read, or none if a call failed.
fn two_of_three(disk: &mut FileDisk) -> Option<[u8; 2]> {
    let mut back = [0; 2];
    if disk.size() != 0 || disk.write_at(0, [1, 8, 9].as_slice()).is_err() {
        return None;
    }
    if disk.sync().is_err() || disk.size() != 3 {
        return None;
    }
    match disk.read_at(1, back.as_mut_slice()) {
        Ok(()) => Some(back),
        Err(Failed) => None,
    }
}

/// Appends a record of two bytes to the log of a file: the answer, or none if there is no log.
fn appended(rt: &HostRuntime, member: u32) -> Option<Result<(), LogRefusal>> {
    let Ok(disk) = FileDisk::open(rt, JOURNAL, Missing::IsMade) else {
        return None;
    };
    match DiskLog::open(rt.alloc(), disk, 2) {
        Ok(log) => appended_to(log, member),
        Err(_refused) => None,
    }
}

/// Appends the record if there is such a member.
fn appended_to(log: DiskLog<FileDisk>, member: u32) -> Option<Result<(), LogRefusal>> {
    let mut log = log;
    let answer = if member < log.members() {
        Some(log.append_record(member, [7, 8].as_slice()))
    } else {
        None
    };
    let _disk = log.into_disk();
    answer
}

/// How opening a path ends.
fn opening(rt: &HostRuntime, path: &str, missing: Missing) -> &'static str {
    match FileDisk::open(rt, path, missing) {
        Ok(disk) => {
            drop(disk);
            "opened"
        }
        Err(OpenFault::Link) => "link",
        Err(OpenFault::NotPlain) => "not plain",
        Err(OpenFault::Held) => "held",
        Err(OpenFault::Replaced) => "replaced",
        Err(OpenFault::TooLarge) => "too large",
        Err(OpenFault::NotLog) => "not a log",
        Err(OpenFault::System(_)) => "system",
    }
}

/// Stops the test if two words differ.
fn same(rt: &impl Abort, got: &str, want: &str) {
    assert_eq!(rt; got, want);
}

#[test]
fn a_file_keeps_what_is_written(rt: HostRuntime) -> Result<(), Fail> {
    let _ = fs::remove_dir_all(&rt, FOLDER);
    fs::create_dir(&rt, FOLDER)?;
    same(&rt, opening(&rt, PATH, Missing::IsRefused), "system");
    let Ok(mut disk) = FileDisk::open(&rt, PATH, Missing::IsMade) else {
        return Err(io::Error::from(io::ErrorKind::Other).into());
    };
    assert_eq!(rt; two_of_three(&mut disk), Some([8, 9]));
    same(&rt, opening(&rt, PATH, Missing::IsMade), "held");
    drop(disk);
    same(&rt, opening(&rt, PATH, Missing::IsRefused), "opened");
    fs::write(&rt, PATH, [2].as_slice())?;
    same(&rt, opening(&rt, PATH, Missing::IsMade), "not a log");
    symlink(&rt, "bytes", LINK)?;
    same(&rt, opening(&rt, LINK, Missing::IsRefused), "link");
    fs::remove_dir_all(&rt, FOLDER)?;
    Ok(())
}

#[test]
fn a_journal_is_opened_again(rt: HostRuntime) -> Result<(), Fail> {
    let _ = fs::remove_dir_all(&rt, LOGS);
    fs::create_dir(&rt, LOGS)?;
    assert_eq!(rt; appended(&rt, 1), Some(Ok(())));
    assert_eq!(rt; appended(&rt, 0), Some(Ok(())));
    let bytes = fs::read(&rt, JOURNAL)?;
    let both = [
        1, 2, 0, 0, 0, 1, 0, 0, 0, 7, 8, 1, 2, 0, 0, 0, 0, 0, 0, 0, 7, 8, 0,
    ];
    assert_eq!(rt; bytes.as_slice(), both.as_slice());
    fs::remove_dir_all(&rt, LOGS)?;
    Ok(())
}

#[test]
fn what_is_no_plain_file(rt: HostRuntime) {
    same(&rt, opening(&rt, ".", Missing::IsMade), "system");
    same(&rt, opening(&rt, "/dev/null", Missing::IsMade), "not plain");
    same(
        &rt,
        opening(&rt, "no_such_folder/journal", Missing::IsMade),
        "system",
    );
}
