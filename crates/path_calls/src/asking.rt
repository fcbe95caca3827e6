// The questions about what paths lead to, each with what it reads.
ghost use Rattle.path_calls.specs.Parts.{has_no_names, target_length};
ghost use Rattle.model.specs.Plan.{ask, List_names, Measure, Count_links, Read_target, Find_rights};
ghost use Rattle.look.specs.Asked.{Comes};

use ids::{Aspect, Bytes, NameList, Num, Refusal, Rights};
use look::Look;
use walk::Reads;

// All names of a directory.
pub(crate) fn names<L: Look>(look: &L, dir: Num, reads: &mut Reads) -> Result<NameList, Refusal>
    ensures { Comes (L.state look.now) (ask (List_names dir)) reads.old result reads.new }
{
    reads.add(Aspect::Names(dir))?;
    Ok(look.names(reads.heap(), dir)?)
}

// Whether a directory has no names. It reads all of them, as they would be if they were listed.
pub(crate) fn has_no_names<L: Look>(look: &L, dir: Num, reads: &mut Reads) -> Result<bool, Refusal>
    ensures { Comes (L.state look.now) (has_no_names dir) reads.old result reads.new }
{
    reads.add(Aspect::Names(dir))?;
    Ok(look.is_empty(dir))
}

/// A file's length, and that it is read.
pub fn size<L: Look>(look: &L, file: Num, reads: &mut Reads) -> Result<u64, Refusal>
    ensures { Comes (L.state look.now) (ask (Measure file)) reads.old result reads.new }
{
    reads.add(Aspect::Size(file))?;
    Ok(look.size(file)?)
}

// How many names give a file, or anything else that is no directory.
pub(crate) fn links<L: Look>(look: &L, file: Num, reads: &mut Reads) -> Result<u32, Refusal>
    ensures { Comes (L.state look.now) (ask (Count_links file)) reads.old result reads.new }
{
    reads.add(Aspect::Links(file))?;
    Ok(look.links(file)?)
}

// A symbolic link's target.
pub(crate) fn target<L: Look>(look: &L, link: Num, reads: &mut Reads) -> Result<Bytes, Refusal>
    ensures { Comes (L.state look.now) (ask (Read_target link)) reads.old result reads.new }
{
    reads.add(Aspect::Target(link))?;
    Ok(look.target(reads.heap(), link)?)
}

// The permissions and the owner of an object.
pub(crate) fn rights<L: Look>(look: &L, inode: Num, reads: &mut Reads) -> Result<Rights, Refusal>
    ensures { Comes (L.state look.now) (ask (Find_rights inode)) reads.old result reads.new }
{
    reads.add(Aspect::Rights(inode))?;
    Ok(look.rights(inode))
}

// The length of a symbolic link's target. It reads the target, as it would be if it were told.
pub(crate) fn target_length<L: Look>(look: &L, link: Num, reads: &mut Reads) -> Result<u32, Refusal>
    ensures { Comes (L.state look.now) (target_length link) reads.old result reads.new }
{
    reads.add(Aspect::Target(link))?;
    Ok(look.target_len(link))
}
