// Names are put in byte order.
ghost use Rattle.std.specs.Prelude.{◌≡◌, IsPermutation};
ghost use Rattle.std.specs.List.Sorted.{IsSorted};
ghost use Rattle.model.specs.State.{name_cmp};

use heap::Heap;
use ids::Name;
use std::alloc::AllocError;

// From so many names on keys are sorted first.
const MANY: usize = 64;

// How many pairs of neighbours are looked at for whether names seem to rise or to fall.
const PAIRS: usize = 16;

// How many of these pairs may be the other way round.
const STRAYS: usize = 2;

// How many bytes of a name stand in a key.
const WORD: usize = 8;

// How many bytes of two names are compared at once.
const STRIDE: usize = 32;

// How often groups are parted, at most.
const PASSES: usize = 8;

// How many bytes the passes after the first may look at, for each of the names.
const BYTES: usize = 80;

// What coming to a name costs, in bytes.
const VISIT: usize = 16;

// What a name is sorted by: eight of its bytes as a number, behind those that all of its group share.
// The keys of a group stand together.
#[derive(Clone, Copy)]
struct Key {
    word: u64,
    index: u32,
    group: u32,
}

// Puts names in byte order.
//
// Many names are arranged by keys first, which are smaller than names and need no look elsewhere,
// unless they seem to rise or to fall. The sort behind it alone answers for the order. Mostly it finds
// the names in order, which takes one comparison each. It has more to do where some keys were still
// alike when the passes ended, and where the names were not arranged, as memory for keys was refused
// or the names only seemed to rise or to fall.
pub(crate) fn sort_names(heap: Heap, names: &mut Vec<Name, Heap>)
    ensures permutation { IsPermutation names.old.items names.new.items }
    ensures sorted { IsSorted name_cmp names.new.items }
{
    if !seem_ordered(names.as_slice()) {
        if let Ok(mut keys) = sorted_keys(heap, names.as_slice()) {
            arrange(names, keys.as_mut_slice());
        }
    }
    names.sort_unstable();
}

// Whether there are few names, or they seem to rise or to fall: the sort alone is fast on those. The
// pairs are spread over all names, so that a part of them does not decide.
fn seem_ordered(names: &[Name]) -> bool {
    if names.len() < MANY {
        return true;
    }
    let mut rising = 0usize;
    let mut falling = 0usize;
    for part in names.chunks((names.len() / PAIRS).max(2)) {
        if let [one, two, ..] = part {
            if one < two {
                rising = rising.wrapping_add(1);
            } else {
                falling = falling.wrapping_add(1);
            }
        }
        if rising > STRAYS && falling > STRAYS {
            return false;
        }
    }
    true
}

// The keys of names, in the order of the names.
fn sorted_keys(heap: Heap, names: &[Name]) -> Result<Vec<Key, Heap>, AllocError> {
    let mut keys = Vec::with_capacity(heap, names.len())?;
    for index in 0..names.len() {
        let Ok(index) = u32::try_from(index) else {
            return Err(AllocError);
        };
        keys.push(Key {
            word: 0,
            index,
            group: 0,
        })?;
    }
    let mut alike = split(keys.as_mut_slice(), names);
    let mut left = names.len().saturating_mul(BYTES);
    for _ in 1..PASSES {
        if !alike {
            break;
        }
        alike = refine(keys.as_mut_slice(), names, &mut left);
    }
    Ok(keys)
}

// Sorts each group, and parts it into smaller ones, while `left` bytes may still be looked at. Whether
// a further pass is of use: some keys are still alike, and some bytes are left.
fn refine(keys: &mut [Key], names: &[Name], left: &mut usize) -> bool {
    let mut alike = false;
    let mut start = 0usize;
    for _ in 0..keys.len() {
        let len = match keys.get(start..) {
            Some(rest) => group_len(rest),
            None => 0,
        };
        let end = start.wrapping_add(len);
        if len > 1 {
            if let Some(group) = keys.get_mut(start..end) {
                *left = left.saturating_sub(cost(group, names));
                if *left == 0 {
                    return false;
                }
                alike |= split(group, names);
            }
        }
        start = end;
    }
    alike
}

// How many bytes parting a group looks at, at most: in each name no more than the first one has.
fn cost(group: &[Key], names: &[Name]) -> usize {
    let Some(first) = group.first() else {
        return 0;
    };
    match names.get(first.index as usize) {
        Some(name) => group
            .len()
            .saturating_mul(name.as_slice().len().saturating_add(VISIT)),
        None => 0,
    }
}

// How many keys are of the group of the first.
fn group_len(keys: &[Key]) -> usize {
    let mut len = 0usize;
    if let Some(first) = keys.first() {
        for key in keys {
            if key.group != first.group {
                break;
            }
            len = len.wrapping_add(1);
        }
    }
    len
}

// Sorts a group, and parts it into smaller ones. Whether any two keys are still alike.
fn split(group: &mut [Key], names: &[Name]) -> bool {
    let from = shared_len(group, names);
    for key in group.iter_mut() {
        if let Some(name) = names.get(key.index as usize) {
            key.word = word_at(name.as_slice(), from);
        }
    }
    group.sort_unstable_by_key(|key| key.word);
    let mut alike = false;
    let mut former: Option<Key> = None;
    for key in group.iter_mut() {
        key.group = key.index;
        if let Some(before) = former {
            if before.word == key.word {
                key.group = before.group;
                alike = true;
            }
        }
        former = Some(*key);
    }
    alike
}

// How many bytes all names of a group begin with.
fn shared_len(group: &[Key], names: &[Name]) -> usize {
    let mut shared: Option<&[u8]> = None;
    for key in group {
        if let Some(name) = names.get(key.index as usize) {
            shared = match shared {
                Some(bytes) => Some(common(bytes, name.as_slice())),
                None => Some(name.as_slice()),
            };
        }
    }
    match shared {
        Some(bytes) => bytes.len(),
        None => 0,
    }
}

// The bytes that both begin with.
fn common<'a>(bytes: &'a [u8], other: &[u8]) -> &'a [u8] {
    if other.starts_with(bytes) {
        return bytes;
    }
    let mut len = 0usize;
    for (one, two) in bytes.chunks(STRIDE).zip(other.chunks(STRIDE)) {
        if one != two {
            break;
        }
        len = len.wrapping_add(STRIDE);
    }
    if let (Some(rest), Some(other_rest)) = (bytes.get(len..), other.get(len..)) {
        for (one, two) in rest.iter().zip(other_rest) {
            if one != two {
                break;
            }
            len = len.wrapping_add(1);
        }
    }
    match bytes.get(..len) {
        Some(front) => front,
        None => bytes,
    }
}

// The bytes of a name from an offset on, as many as a word has. Zeros stand behind its end.
fn word_at(name: &[u8], from: usize) -> u64 {
    let Some(rest) = name.get(from..) else {
        return 0;
    };
    if let Some(word) = rest.first_chunk::<WORD>() {
        return u64::from_be_bytes(*word);
    }
    let mut word = [0u8; WORD];
    for (to, byte) in word.iter_mut().zip(rest) {
        *to = *byte;
    }
    u64::from_be_bytes(word)
}

// Puts each name where its key stands: along each cycle of indices, a key whose name has come is told
// its own index.
fn arrange(names: &mut Vec<Name, Heap>, keys: &mut [Key])
    ensures { IsPermutation names.old.items names.new.items }
{
    let mut start = 0u32;
    let mut index = 0u32;
    for _ in 0..names.len().saturating_mul(2) {
        let Some(key) = keys.get_mut(index as usize) else {
            break;
        };
        let from = key.index;
        key.index = index;
        if from != start && (index as usize) < names.len() && (from as usize) < names.len() {
            names.swap(index as usize, from as usize);
            index = from;
        } else {
            start = start.wrapping_add(1);
            index = start;
        }
    }
}
