// Requests on a server, by lines of words: a verb, a path, and what else the verb wants.
use crate::texts::{Text, owned, told};
use fuse::bits::{
    MODE_PIPE, OPEN_APPEND, OPEN_EXCLUSIVE, OPEN_TRUNCATE, RENAME_EXCHANGE, RENAME_NO_REPLACE,
};
use fuse::{Changes, Operation, Reply, Request, Time, Whence};
use heap::Heap;
use ids::{Bytes, Limits};
use machine::Machine;
use mounted::Server;
use std::process::Abort;

// The root of the plain tree.
const ROOT: u64 = 1;

// The number of no open file.
const NONE: u64 = u64::MAX;

// To read and write.
const BOTH: u32 = 2;

// When each request is served.
const NOW: Time = Time {
    seconds: 1,
    nanoseconds: 0,
};

// A server, and the numbers of the file and of the directory that were opened last.
pub(crate) struct Client<K: Machine> {
    server: Server<K>,
    heap: Heap,
    file: u64,
    folder: u64,
}

impl<K: Machine> Drop for Client<K> {
    fn drop(self) {
        let Client {
            server: _,
            heap: _,
            file: _,
            folder: _,
        } = self;
    }
}

// What a line asks of a node.
#[derive(Drop)]
struct Asked {
    node: u64,
    operation: Operation,
}

// A line's words.
#[derive(Clone, Copy)]
struct Line<'a> {
    verb: &'a str,
    path: &'a str,
    other: &'a str,
}

// Where a name is.
#[derive(Clone, Copy)]
struct Place<'a> {
    parent: u64,
    name: &'a str,
}

// What a request came to, and how many requests for memory it made.
#[derive(Drop)]
pub(crate) struct Answer {
    pub(crate) told: Text,
    pub(crate) made: u64,
}

// A server of which nothing was asked.
pub(crate) fn new_client<K: Machine>(rt: &impl Abort, heap: Heap) -> Client<K> {
    let made: Result<Server<K>, _> = Server::new(heap, Limits::of_entries(16));
    Client {
        server: made.expect(rt, "memory"),
        heap,
        file: NONE,
        folder: NONE,
    }
}

// The first word, and what is behind it.
fn word_of(text: &str) -> (&str, &str) {
    match text.split_once(' ') {
        Some(words) => words,
        None => (text, ""),
    }
}

fn line_of(text: &str) -> Line<'_> {
    let (verb, rest) = word_of(text);
    let (path, other) = word_of(rest);
    Line { verb, path, other }
}

fn serve<K: Machine>(client: &mut Client<K>, asked: Asked) -> Option<Reply> {
    let Asked { node, operation } = asked;
    let request = Request {
        unique: 1,
        node,
        uid: 0,
        gid: 0,
        pid: 1,
        operation,
    };
    client.server.serve(request, NOW)
}

// The node that a look-up has found, or the number of none.
fn node_in(reply: &Option<Reply>) -> u64 {
    match reply {
        Some(Reply::Entry(entry)) => entry.node,
        _ => 0,
    }
}

fn look_up<K: Machine>(rt: &impl Abort, client: &mut Client<K>, place: Place<'_>) -> u64 {
    let name = owned(rt, client.heap, place.name);
    let reply = serve(
        client,
        Asked {
            node: place.parent,
            operation: Operation::Lookup { name },
        },
    );
    node_in(&reply)
}

// Where the last name of a path is. The names before it are looked up.
fn place_of<'a, K: Machine>(rt: &impl Abort, client: &mut Client<K>, path: &'a str) -> Place<'a> {
    let mut place = Place {
        parent: ROOT,
        name: "",
    };
    for name in path.split('/') {
        if !place.name.is_empty() {
            place.parent = look_up(rt, client, place);
        }
        place.name = name;
    }
    place
}

fn node_of<K: Machine>(rt: &impl Abort, client: &mut Client<K>, path: &str) -> u64 {
    let place = place_of(rt, client, path);
    if place.name.is_empty() {
        place.parent
    } else {
        look_up(rt, client, place)
    }
}

// What is asked of a name.
fn of_name(verb: &str, name: Bytes) -> Operation {
    match verb {
        "lookup" => Operation::Lookup { name },
        "mkdir" => Operation::MkDir { name, mode: 0o700 },
        "mknod" => Operation::MkNod { name, mode: 0o600 },
        "mkfifo" => Operation::MkNod {
            name,
            mode: MODE_PIPE | 0o600,
        },
        "create" => Operation::Create {
            name,
            flags: BOTH,
            mode: 0o600,
            how: 0,
        },
        "create_new" => Operation::Create {
            name,
            flags: BOTH | OPEN_EXCLUSIVE,
            mode: 0o600,
            how: 0,
        },
        "create_cut" => Operation::Create {
            name,
            flags: BOTH | OPEN_TRUNCATE,
            mode: 0o600,
            how: 0,
        },
        "unlink" => Operation::Unlink { name },
        _ => Operation::RmDir { name },
    }
}

fn moving(verb: &str, name: Bytes, new_parent: u64, new_name: Bytes) -> Operation {
    let flags = match verb {
        "move" => RENAME_NO_REPLACE,
        "exchange" => RENAME_EXCHANGE,
        _ => 0,
    };
    Operation::Rename {
        name,
        new_parent,
        new_name,
        flags,
    }
}

fn writing(verb: &str, handle: u64, bytes: Bytes) -> Operation {
    let more = if verb == "append" { OPEN_APPEND } else { 0 };
    Operation::Write {
        handle,
        offset: 0,
        write_flags: 0,
        open_flags: BOTH | more,
        bytes,
    }
}

// A length is set, or a mode and a user, by a decimal number.
fn setting(verb: &str, number: &str) -> Operation {
    let number = number.parse::<u32>().unwrap_or(0);
    let (size, rights) = if verb == "rights" {
        (None, Some(number))
    } else {
        (Some(u64::from(number)), None)
    };
    Operation::SetAttr {
        changes: Changes {
            handle: None,
            size,
            accessed: None,
            modified: None,
            mode: rights,
            uid: rights,
            gid: None,
            drops_set_ids: false,
        },
    }
}

// What becomes of a range that reaches behind the end.
fn ranging(handle: u64, mode: u32) -> Operation {
    Operation::Fallocate {
        handle,
        offset: 2,
        length: 3000,
        mode,
    }
}

// What is asked of an open file, or of a directory.
fn of_open(verb: &str, file: u64, folder: u64) -> Operation {
    match verb {
        "read" => Operation::Read {
            handle: file,
            offset: 0,
            size: 100,
            open_flags: BOTH,
        },
        "seek" => Operation::Lseek {
            handle: file,
            offset: 0,
            whence: Whence::End,
        },
        "data" => Operation::Lseek {
            handle: file,
            offset: 0,
            whence: Whence::NextData,
        },
        "grow" => ranging(file, 0),
        "punch" => ranging(file, 3),
        "copy" => Operation::CopyFileRange {
            handle: file,
            offset: 0,
            to_node: ROOT,
            to_handle: file,
            to_offset: 3000,
            length: 100,
            flags: 0,
        },
        "flush" => Operation::Flush { handle: file },
        "release" => Operation::Release {
            handle: file,
            flags: BOTH,
        },
        "readdir" => Operation::ReadDir {
            handle: folder,
            offset: 0,
            size: 4096,
        },
        _ => Operation::ReleaseDir { handle: folder },
    }
}

// What else is asked of a node.
fn of_node(verb: &str) -> Option<Operation> {
    match verb {
        "getattr" => Some(Operation::GetAttr { handle: None }),
        "open" => Some(Operation::Open {
            flags: BOTH,
            how: 0,
        }),
        "cut" => Some(Operation::Open {
            flags: BOTH | OPEN_TRUNCATE,
            how: 0,
        }),
        "readlink" => Some(Operation::ReadLink),
        "opendir" => Some(Operation::OpenDir),
        "forget" => Some(Operation::Forget { lookups: 1 }),
        "statfs" => Some(Operation::StatFs),
        _ => None,
    }
}

fn on_node<K: Machine>(rt: &impl Abort, client: &mut Client<K>, line: Line<'_>) -> Asked {
    let node = node_of(rt, client, line.path);
    let operation = match line.verb {
        "write" | "append" => writing(line.verb, client.file, owned(rt, client.heap, line.other)),
        "length" | "rights" => setting(line.verb, line.other),
        verb => match of_node(verb) {
            Some(operation) => operation,
            None => of_open(verb, client.file, client.folder),
        },
    };
    Asked { node, operation }
}

// A link, of which a line says the target behind its path.
fn symlink<K: Machine>(rt: &impl Abort, client: &mut Client<K>, line: Line<'_>) -> Asked {
    let place = place_of(rt, client, line.path);
    let name = owned(rt, client.heap, place.name);
    let target = owned(rt, client.heap, line.other);
    Asked {
        node: place.parent,
        operation: Operation::SymLink { name, target },
    }
}

fn on_name<K: Machine>(rt: &impl Abort, client: &mut Client<K>, line: Line<'_>) -> Asked {
    let place = place_of(rt, client, line.path);
    let name = owned(rt, client.heap, place.name);
    Asked {
        node: place.parent,
        operation: of_name(line.verb, name),
    }
}

fn on_names<K: Machine>(rt: &impl Abort, client: &mut Client<K>, line: Line<'_>) -> Asked {
    let to = place_of(rt, client, line.other);
    let new_name = owned(rt, client.heap, to.name);
    if line.verb == "link" {
        let node = node_of(rt, client, line.path);
        return Asked {
            node: to.parent,
            operation: Operation::Link { node, new_name },
        };
    }
    let place = place_of(rt, client, line.path);
    let name = owned(rt, client.heap, place.name);
    Asked {
        node: place.parent,
        operation: moving(line.verb, name, to.parent, new_name),
    }
}

// What a line asks. Its paths are looked up.
fn asked_by<K: Machine>(rt: &impl Abort, client: &mut Client<K>, line: Line<'_>) -> Asked {
    match line.verb {
        "link" | "rename" | "move" | "exchange" => on_names(rt, client, line),
        "symlink" => symlink(rt, client, line),
        "lookup"
        | "mkdir"
        | "mkfifo"
        | "mknod"
        | "create"
        | "create_new"
        | "create_cut"
        | "unlink"
        | "rmdir" => on_name(rt, client, line),
        _ => on_node(rt, client, line),
    }
}

// The number of what was opened.
fn keep<K: Machine>(client: &mut Client<K>, verb: &str, reply: &Option<Reply>) {
    match reply {
        Some(Reply::Opened(opened)) => {
            if verb == "opendir" {
                client.folder = opened.handle;
            } else {
                client.file = opened.handle;
            }
        }
        Some(Reply::Created { entry: _, opened }) => client.file = opened.handle,
        _ => {}
    }
}

// Asks what a line says, where this request for memory is refused, and none at 0.
pub(crate) fn ask<K: Machine>(
    rt: &impl Abort,
    client: &mut Client<K>,
    text: &str,
    request: u64,
) -> Answer {
    let line = line_of(text);
    let asked = asked_by(rt, client, line);
    client.heap.refuse(request);
    let reply = serve(client, asked);
    let made = client.heap.made();
    client.heap.refuse(0);
    keep(client, line.verb, &reply);
    Answer {
        told: told(rt, client.heap, &reply),
        made,
    }
}

// What is asked of each path that is shown.
static LOOKS: [&str; 8] = [
    "getattr",
    "readlink",
    "opendir",
    "readdir",
    "releasedir",
    "open",
    "read",
    "release",
];

// The paths that rows name below the view.
static VIEW: [&str; 6] = [
    "/.tx/v.ctl",
    "/.tx/v",
    "/.tx/v/a",
    "/.tx/v/b",
    "/.tx/v/a/b",
    "/.tx/v/long-name-of-26-bytes-here",
];

// Those in the plain tree, and the directory of transactions.
static PLAIN: [&str; 6] = [
    "/.tx",
    "/",
    "/a",
    "/b",
    "/a/b",
    "/long-name-of-26-bytes-here",
];

fn show_path<K: Machine>(rt: &impl Abort, client: &mut Client<K>, text: &mut Text, path: &str) {
    client.file = NONE;
    client.folder = NONE;
    let node = node_of(rt, client, path);
    for verb in LOOKS {
        let operation = match of_node(verb) {
            Some(operation) => operation,
            None => of_open(verb, client.file, client.folder),
        };
        let reply = serve(client, Asked { node, operation });
        keep(client, verb, &reply);
        let said = told(rt, client.heap, &reply);
        write!(text, "{path} {verb} {said}\n").expect(rt, "memory");
    }
}

// What all requests about these paths show: which are there, their kinds, lengths, links, names and
// bytes. The transaction of the view is ended between, so its changes are shown in the plain tree too.
pub(crate) fn shown<K: Machine>(rt: &impl Abort, client: &mut Client<K>) -> Text {
    let mut text = String::new(client.heap);
    for path in VIEW {
        show_path(rt, client, &mut text, path);
    }
    let ended = ask(rt, client, "write /.tx/v.ctl end", 0).told;
    write!(&mut text, "{ended}\n").expect(rt, "memory");
    for path in PLAIN {
        show_path(rt, client, &mut text, path);
    }
    text
}
