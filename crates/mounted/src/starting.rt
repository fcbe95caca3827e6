// How a session begins, and what is told of the whole tree.
ghost use Rattle.std.specs.Prelude.{◌≡◌, Ok};
ghost use Rattle.fuse.specs.declared.reply.Reply.TheVariants as reply;
ghost use Rattle.mounted.specs.Room.{status_of};
ghost use Rattle.mounted.specs.Served.{IsBeginning};

use fuse::bits::{
    INIT_BIG_WRITES, INIT_DROPS_CHANGED, INIT_DROPS_SET_IDS, INIT_MAX_PAGES, INIT_OPEN_TRUNCATES,
};
use fuse::{Init, Reply, StatFs};

// What is asked of the kernel, where it can: opens that cut, writes of more than a page, requests of
// many pages, that cached pages go where a file has changed, and that it says where set-user-ID and
// set-group-ID go.
const WANTED: u32 = INIT_OPEN_TRUNCATES
    | INIT_BIG_WRITES
    | INIT_DROPS_CHANGED
    | INIT_DROPS_SET_IDS
    | INIT_MAX_PAGES;

// The most bytes of one write.
const MOST_WRITTEN: u32 = 1_048_576;

// The most pages of one request.
const MOST_PAGES: u16 = 256;

const MOST_WAITING: u16 = 16;

const CONGESTED: u16 = 12;

const BLOCK_SIZE: u32 = 4_096;

// About what a small file takes, with its name and what is known of it beside the kernel.
const NODE_SIZE: u64 = 1_024;

const NAME_LENGTH: u32 = 255;

// The session begins.
pub(crate) fn start(max_readahead: u32, flags: u32) -> Reply
    ensures { IsBeginning (Ok result) }
{
    Reply::Init(Init {
        max_readahead,
        flags: flags & WANTED,
        max_background: MOST_WAITING,
        congestion_threshold: CONGESTED,
        max_write: MOST_WRITTEN,
        time_granularity: 1,
        max_pages: MOST_PAGES,
    })
}

// How many bytes a tree may take, how many are held, and how many objects there are.
#[derive(Clone, Copy)]
pub(crate) struct Space {
    pub(crate) limit: u64,
    pub(crate) held: u64,
    pub(crate) objects: u64,
}

// What is told of the whole tree.
pub(crate) fn status(space: Space) -> Reply
    ensures { result ≡ reply.StatFs (status_of space) }
{
    let free = space.limit.saturating_sub(space.held);
    let free_blocks = free / BLOCK_SIZE as u64;
    let free_nodes = free / NODE_SIZE;
    Reply::StatFs(StatFs {
        blocks: space.limit / BLOCK_SIZE as u64,
        free_blocks,
        available_blocks: free_blocks,
        nodes: space.objects.saturating_add(free_nodes),
        free_nodes,
        block_size: BLOCK_SIZE,
        name_length: NAME_LENGTH,
    })
}
