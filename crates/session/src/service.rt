// Who serves the requests of a session.
ghost use Rattle.std.specs.Prelude.{◌≡◌, Option, is_some};
ghost use Rattle.fuse.specs.declared.reply.Reply.{Reply};
ghost use Rattle.fuse.specs.declared.request.Request.{Request};
ghost use Rattle.fuse.specs.Operations.{is_answered};

use fuse::{Reply, Request, Time};

/// Who serves requests.
pub trait Service {
    /// From one state to another a request was served at some time, with this reply, or with none.
    ghost serves: { Self → Request → Option Reply → Self → Type 0 };

    /// Serves a request at this time, which may be any. It has a reply where the protocol wants one, and
    /// else none.
    fn serve(&mut self, request: Request, now: Time) -> Option<Reply>
        ensures serves { serves self.old request result self.new }
        ensures answered { is_some result ≡ is_answered request.operation };
}
