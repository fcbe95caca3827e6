// All that a kernel shows, as a text.
use heap::Heap;
use ids::{Fd, Kind, Name, Num, Pid, Slot};
use kernel::Kernel;
use look::Look;
use std::alloc::AllocError;

type Text = String<Heap>;

// How many bytes of a file or a pipe are shown.
const SHOWN: u32 = 2048;

// How many directories are shown.
const DIRECTORIES: usize = 50;

fn show_file<L: Look>(heap: Heap, text: &mut Text, view: &L, file: Num) -> Result<(), AllocError> {
    let size = view.size(file)?;
    let links = view.links(file)?;
    let rights = view.rights(file);
    let bytes = view.read_file(heap, file, 0, SHOWN)?;
    write!(text, " {size} {links} {rights:?} {bytes:?}")
}

// What a name gives that never changes: by how many names, and the target of a symbolic link.
fn show_fixed<L: Look>(
    heap: Heap,
    text: &mut Text,
    view: &L,
    fixed: Num,
) -> Result<(), AllocError> {
    let links = view.links(fixed)?;
    let rights = view.rights(fixed);
    let target = view.target(heap, fixed)?;
    write!(text, " {links} {rights:?} {target:?}")
}

// Shows the rights and the names of a directory, and puts the directories among them behind the
// others.
fn show_names<L: Look>(
    heap: Heap,
    text: &mut Text,
    view: &L,
    dir: Num,
    dirs: &mut Vec<Num, Heap>,
) -> Result<(), AllocError> {
    let rights = view.rights(dir);
    write!(text, "\n{dir:?} {rights:?}")?;
    let names = view.names(heap, dir)?;
    let shown = show_each(heap, text, view, dir, names.as_slice(), dirs);
    drop(names);
    shown
}

fn show_each<L: Look>(
    heap: Heap,
    text: &mut Text,
    view: &L,
    dir: Num,
    names: &[Name],
    dirs: &mut Vec<Num, Heap>,
) -> Result<(), AllocError> {
    for name in names {
        let found = view.find(dir, name);
        write!(text, " {name:?} {found:?}")?;
        match found {
            Some((num, Some(Kind::Dir))) => dirs.push(num)?,
            Some((num, Some(Kind::File))) => show_file(heap, text, view, num)?,
            Some((num, Some(Kind::Link)))
            | Some((num, Some(Kind::Fifo)))
            | Some((num, Some(Kind::Socket))) => show_fixed(heap, text, view, num)?,
            _ => (),
        }
    }
    Ok(())
}

fn show_tree<L: Look>(heap: Heap, text: &mut Text, view: &L) -> Result<(), AllocError> {
    let mut dirs = Vec::new(heap);
    dirs.push(view.root())?;
    for index in 0..DIRECTORIES {
        if let Some(dir) = dirs.get(index).copied() {
            show_names(heap, text, view, dir, &mut dirs)?;
        }
    }
    Ok(())
}

fn show_pipe<L: Look>(heap: Heap, text: &mut Text, view: &L, pipe: Num) -> Result<(), AllocError> {
    let ends = view.ends(pipe)?;
    let rights = view.rights(pipe);
    let bytes = view.read_pipe(heap, pipe, SHOWN)?;
    write!(text, " {ends:?} {rights:?} {bytes:?}")
}

fn show_slot<L: Look>(
    heap: Heap,
    text: &mut Text,
    view: &L,
    slot: &Slot,
) -> Result<(), AllocError> {
    let Slot {
        description,
        inode,
        kind,
        reading,
        writing,
        appending,
    } = *slot;
    let offset = view.offset(description)?;
    write!(
        text,
        " {description:?} {inode:?} {kind:?} {reading} {writing} {appending} {offset}"
    )?;
    match kind {
        Some(Kind::Pipe) => show_pipe(heap, text, view, inode),
        Some(Kind::File) => show_file(heap, text, view, inode),
        _ => Ok(()),
    }
}

fn show_table<L: Look>(heap: Heap, text: &mut Text, view: &L, pid: Pid) -> Result<(), AllocError> {
    let birth = view.birth(pid)?;
    write!(text, "\n{birth:?}")?;
    let table = view.table(heap, pid)?;
    let shown = show_slots(heap, text, view, table.as_slice());
    drop(table);
    shown
}

fn show_slots<L: Look>(
    heap: Heap,
    text: &mut Text,
    view: &L,
    table: &[(Fd, Slot)],
) -> Result<(), AllocError> {
    for (fd, slot) in table {
        write!(text, "\n{fd:?}")?;
        show_slot(heap, text, view, slot)?;
    }
    Ok(())
}

// What a process sees, and what it has touched.
fn show_process(heap: Heap, text: &mut Text, kernel: &Kernel, pid: Pid) -> Result<(), AllocError> {
    let living = kernel.is_living(pid);
    let live = kernel.shadow(pid).is_some();
    let touches = kernel.records().touches(pid);
    write!(text, "\n{pid:?} {living} {live} {touches:?}")?;
    let view = kernel.view(pid);
    show_tree(heap, text, &view)?;
    show_table(heap, text, &view, pid)
}

/// The history's length, the list modes, and of each process what it sees and what it has touched:
/// first of one that was never made, which sees what is committed.
pub(crate) fn shown(heap: Heap, kernel: &Kernel) -> Result<Text, AllocError> {
    let mut text = String::new(heap);
    let entries = kernel.history().entries().len();
    let made = kernel.made();
    write!(&mut text, "{entries} {made}")?;
    for number in 0..DIRECTORIES {
        let mode = kernel.mode(Num(number));
        write!(&mut text, " {mode:?}")?;
    }
    for number in 0..=made {
        if number < 100 {
            show_process(heap, &mut text, kernel, Pid(number as u32))?;
        }
    }
    Ok(text)
}
