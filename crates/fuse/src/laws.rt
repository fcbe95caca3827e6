// Laws of the definitions.
ghost use Rattle.std.specs.Prelude.{◌≡◌, ℕ, ◌<◌, ◌^◌, List, [], ◌∷◌, ◌++◌, length};
ghost use Rattle.fuse.specs.declared.reply.Attr.{Attr};
ghost use Rattle.fuse.specs.declared.reply.Entry.{Entry};
ghost use Rattle.fuse.specs.declared.reply.Init.{Init};
ghost use Rattle.fuse.specs.declared.reply.Opened.{Opened};
ghost use Rattle.fuse.specs.declared.reply.Reply.{Reply};
ghost use Rattle.fuse.specs.declared.reply.StatFs.{StatFs};
ghost use Rattle.fuse.specs.Names.{IsName, name_in};
ghost use Rattle.fuse.specs.Numbers.{u32_at};
ghost use Rattle.fuse.specs.Replies.{attr_reply_bytes, entry_bytes, init_bytes, opened_bytes};
ghost use Rattle.fuse.specs.Replies.{reply_bytes, statfs_bytes};

/// The first number of a reply is its length.
pub fn length_is_told()
    ensures { (unique : ℕ) (reply : Reply) → length (reply_bytes unique reply) < 2 ^ 32
        → u32_at (reply_bytes unique reply) 0 ≡ length (reply_bytes unique reply) }
{}

/// The bodies of replies are as long as Linux's structs.
pub fn bodies_have_their_lengths()
    ensures entry { (entry : Entry) → length (entry_bytes entry) ≡ 128 }
    ensures attr { (attr : Attr) → length (attr_reply_bytes attr) ≡ 104 }
    ensures opened { (opened : Opened) → length (opened_bytes opened) ≡ 16 }
    ensures statfs { (s : StatFs) → length (statfs_bytes s) ≡ 80 }
    ensures init { (init : Init) → length (init_bytes init) ≡ 64 }
{}

/// Bytes are read as a name where they are a name and a zero byte, and nowhere else.
pub fn names_are_told()
    ensures found { (bytes name : List ℕ) → name_in bytes ≡ Some name
        → IsName name × (bytes ≡ name ++ 0 ∷ []) }
    ensures only { (name : List ℕ) → IsName name → name_in (name ++ 0 ∷ []) ≡ Some name }
{}
