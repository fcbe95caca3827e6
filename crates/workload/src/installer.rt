// Packages are installed, each by one transaction, beside two processes that look at what is there.
use crate::actor::Actor;
use crate::content::Room;
use crate::digest::Digest;
use crate::drive::{drive, kernel_of};
use anyhow::Result;
use heap::Heap;
use kernel::Kernel;

static STATUS: &str = "/var/lib/packages/status";

static NEW_STATUS: &str = "/var/lib/packages/status-new";

// The directories that are there at the start.
static DIRECTORIES: [&str; 8] = [
    "/usr",
    "/usr/share",
    "/usr/share/doc",
    "/var",
    "/var/lib",
    "/var/lib/packages",
    "/var/lib/packages/info",
    "/var/log",
];

fn make_directories(installer: &mut Actor, heap: Heap) -> Result<()> {
    for directory in &DIRECTORIES {
        installer.mkdir(heap, directory)?;
    }
    Ok(())
}

// Adds the files of a package, and answers how many there are.
fn add_files(installer: &mut Actor, room: &mut Room, package: u64) -> Result<u64> {
    let count = room.random.between(3, 31);
    for number in 0..count {
        let path = format!(in room.heap; "/usr/share/doc/package-{package}/part-{number}.data")?;
        let length = room.random.length();
        let content = if number % 4 == 3 {
            room.binary(length)
        } else {
            room.text(length)
        };
        installer.create(room.heap, path.as_str(), content)?;
    }
    Ok(count)
}

// Installs a package. The status grows with each.
fn add_package(installer: &mut Actor, room: &mut Room, package: u64) -> Result<()> {
    let heap = room.heap;
    installer.begin()?;
    let directory = format!(in heap; "/usr/share/doc/package-{package}")?;
    installer.mkdir(heap, directory.as_str())?;
    let count = add_files(installer, room, package)?;
    let list = format!(in heap; "/var/lib/packages/info/package-{package}.list")?;
    let names = room.text(count.saturating_mul(48).min(65_536) as usize);
    installer.create(heap, list.as_str(), names)?;
    let status = room.text(package.saturating_mul(120).clamp(120, 262_144) as usize);
    installer.rewrite(heap, NEW_STATUS, status)?;
    installer.rename(heap, NEW_STATUS, STATUS)?;
    installer.end()
}

// Looks at a package, which may not be there yet.
fn add_look(reader: &mut Actor, room: &mut Room, package: u64) -> Result<()> {
    let heap = room.heap;
    let number = room.random.below(20);
    let directory = format!(in heap; "/usr/share/doc/package-{package}")?;
    let path = format!(in heap; "/usr/share/doc/package-{package}/part-{number}.data")?;
    reader.stat(heap, path.as_str())?;
    reader.list(heap, directory.as_str())?;
    reader.look_into(heap, path.as_str(), 2)?;
    if number == 0 {
        reader.list(heap, "/var/lib/packages/info")?;
        reader.look_into(heap, STATUS, 2)?;
    }
    Ok(())
}

// So many looks at packages that are there by then.
fn add_looks(reader: &mut Actor, room: &mut Room, packages: u64) -> Result<()> {
    for index in 0..packages.saturating_mul(6) {
        let end = (index / 7).max(1);
        let package = room.random.between(0, end);
        add_look(reader, room, package)?;
    }
    Ok(())
}

fn actors_of(room: &mut Room, packages: u64) -> Result<[Actor; 3]> {
    let mut installer = Actor::new(room.heap, 1);
    make_directories(&mut installer, room.heap)?;
    for package in 0..packages {
        add_package(&mut installer, room, package)?;
    }
    let mut first = Actor::new(room.heap, 2);
    add_looks(&mut first, room, packages)?;
    let mut second = Actor::new(room.heap, 3);
    add_looks(&mut second, room, packages)?;
    Ok([installer, first, second])
}

/// A run in which so many packages are installed.
pub(crate) fn run(room: &mut Room, packages: u64) -> Result<Kernel> {
    let packages = packages.min(1000);
    let mut actors = actors_of(room, packages)?;
    let mut kernel = kernel_of(room.heap, 1, 2, 1_048_576)?;
    drive(&mut kernel, room, &mut actors)?;
    Ok(kernel)
}

/// Installs packages, and prints the transcript.
pub(crate) fn install(room: &mut Room, share: u64) -> Result<u64> {
    let kernel = run(room, share.saturating_mul(6))?;
    let mut digest = Digest::new();
    digest.add_run(&kernel)?;
    drop(kernel);
    Ok(digest.value())
}
