//! Files that were cut or changed, and disks that stop.
use crate::{Error, Log, Reader};
use sqlite_disk::{Crash, Disk, Fuse, Memory};
use std::alloc::{AllocError, Global};
use std::process::Abort;
use std::test::Fail;

/// How many records the workload has.
const RECORDS: u8 = 20;

/// The payload of the record with this number: so many bytes of that number.
fn payload(alloc: Global, number: u8) -> Result<Vec<u8>, AllocError> {
    vec![in alloc; number; number as usize]
}

/// The bytes of a log of all records, which is kept behind each, or at the end.
fn whole(alloc: Global, keeps_each: bool) -> Result<Vec<u8>, Fail> {
    let mut log = match Log::create(alloc, Memory::new(alloc)) {
        Ok(log) => log,
        Err(refused) => return Err(Fail::from(refused.error)),
    };
    for number in 0..RECORDS {
        log.append(alloc, &payload(alloc, number)?)?;
        if keeps_each {
            log.keep()?;
        }
    }
    log.keep()?;
    Ok(log.into_disk().bytes().to_vec(alloc)?)
}

/// How many records a file with these bytes is opened with, or why it is not. Each has to be that of
/// its number.
fn opened(rt: &impl Abort, alloc: Global, bytes: &[u8]) -> Result<Result<u8, Error>, Fail> {
    let mut disk = Memory::new(alloc);
    disk.write_at(0, bytes)?;
    let mut reader = match Reader::open(alloc, disk) {
        Ok(reader) => reader,
        Err(refused) => return Ok(Err(refused.error)),
    };
    let mut count = 0;
    for number in 0..=RECORDS {
        if reader.next()?.is_none() {
            break;
        }
        assert!(rt; reader.payload() == payload(alloc, number)?.as_slice());
        count = number + 1;
    }
    Ok(match reader.finish() {
        Ok(_) => Ok(count),
        Err(refused) => Err(refused.error),
    })
}

#[test]
fn a_file_that_is_cut_anywhere_reads_as_a_beginning(rt: HostRuntime) -> Result<(), Fail> {
    let alloc = rt.alloc();
    let bytes = whole(alloc, false)?;
    let mut most = 0;
    for end in 0..=bytes.len() {
        match opened(&rt, alloc, &bytes[..end])? {
            Ok(count) => {
                assert!(rt; most <= count);
                most = count;
            }
            Err(error) => assert!(rt; end < 32 && error == Error::NotALog),
        }
    }
    assert_eq!(rt; most, RECORDS);
    Ok(())
}

#[test]
fn a_bit_that_is_changed_is_refused_or_cut_at_the_end(rt: HostRuntime) -> Result<(), Fail> {
    let alloc = rt.alloc();
    let mut bytes = whole(alloc, true)?;
    for place in 0..bytes.len() {
        let was = bytes[place];
        bytes[place] = was ^ (1 << (place % 8));
        match opened(&rt, alloc, &bytes)? {
            Ok(count) => assert_eq!(rt; count, RECORDS - 1),
            Err(Error::NotALog | Error::OtherVersion(_)) => assert!(rt; place < 32),
            Err(Error::Damaged(at)) => assert!(rt; at <= place && place - at < 64),
            Err(_) => assert!(rt; false),
        }
        bytes[place] = was;
    }
    Ok(())
}

#[test]
fn a_disk_that_stops_has_all_that_was_kept(rt: HostRuntime) -> Result<(), Fail> {
    let alloc = rt.alloc();
    for calls in 0..70 {
        let Ok(mut log) = Log::create(alloc, Fuse::new(Memory::new(alloc), calls)) else {
            continue;
        };
        let mut kept = 0;
        for number in 0..RECORDS {
            let was_appended = log.append(alloc, &payload(alloc, number)?).is_ok();
            // After a failure each further call fails.
            assert!(rt; !was_appended || log.failure().is_none());
            if number % 3 == 0 && log.keep().is_ok() {
                kept = number + 1;
            }
        }
        let stopped = log.failure().is_some();
        assert!(rt; !stopped || log.keep().is_err());
        let mut disk = log.into_disk();
        let written = opened(&rt, alloc, disk.inner().bytes())?;
        assert!(rt; matches!(written, Ok(count) if kept <= count));
        disk.crash();
        assert!(rt;
            matches!(opened(&rt, alloc, disk.inner().bytes())?, Ok(count) if kept <= count)
        );
    }
    Ok(())
}
