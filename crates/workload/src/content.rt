// What files hold, and paths.
ghost use Rattle.std.specs.Prelude.{◌≡◌, ◌<◌};

use crate::random::Random;
use anyhow::Result;
use heap::Heap;
use ids::Bytes;
use std::alloc::AllocError;

// How many bytes of each kind there are to take from.
const POOL: usize = 1_048_576;

// The letters of plain text, each about as often as in English.
static LETTERS: &[u8; 64] = b"eeeeeetttttaaaaoooonnniiisssrrrhhhllddccuummffppggwy       \n,.BX";

/// The allocator, random numbers, and the bytes that contents are taken from.
pub(crate) struct Room {
    pub(crate) heap: Heap,
    pub(crate) random: Random,
    // Plain text, and then bytes of all values.
    pool: Vec<u8, Heap>,
}

impl Drop for Room {
    fn drop(self) {
        let Room {
            heap: _,
            random: _,
            pool: _,
        } = self;
    }
}

/// A part of the pool: where it begins, and how long it is.
#[derive(Clone, Copy)]
pub(crate) struct Content {
    pub(crate) start: usize,
    pub(crate) length: usize,
}

fn text_of(mut bits: u64) -> [u8; 8] {
    let mut text = [b' '; 8];
    for letter in &mut text {
        *letter = LETTERS[(bits % 64) as usize];
        bits /= 64;
    }
    text
}

fn pool_of(heap: Heap, random: &mut Random) -> std::result::Result<Vec<u8, Heap>, AllocError> {
    let mut pool = Vec::with_capacity(heap, 2 * POOL)?;
    for _ in 0..POOL / 8 {
        pool.extend_from_slice(&text_of(random.next()))?;
    }
    for _ in 0..POOL / 8 {
        pool.extend_from_slice(&random.next().to_le_bytes())?;
    }
    Ok(pool)
}

impl Room {
    pub(crate) fn new(heap: Heap, seed: u64) -> Result<Room> {
        let mut random = Random::new(seed);
        let pool = pool_of(heap, &mut random)?;
        Ok(Room { heap, random, pool })
    }

    // So many bytes of plain text, up to 512 KiB.
    pub(crate) fn text(&mut self, length: usize) -> Content {
        let start = self.random.below(500_000) as usize;
        Content { start, length }
    }

    // So many bytes of any value, up to 512 KiB.
    pub(crate) fn binary(&mut self, length: usize) -> Content {
        let start = POOL + self.random.below(500_000) as usize;
        Content { start, length }
    }

    // The bytes of a content. What lies behind the pool is left out.
    pub(crate) fn slice(&self, content: Content) -> &[u8] {
        let end = content.start.saturating_add(content.length);
        match self.pool.get(content.start..end) {
            Some(bytes) => bytes,
            None => b"",
        }
    }

    pub(crate) fn bytes(&self, content: Content) -> std::result::Result<Bytes, AllocError> {
        Bytes::copy(self.heap, self.slice(content))
    }
}
