// What was done is checked, if that is wanted, and forgotten, where that can be.
ghost use Rattle.std.specs.Prelude.{◌≡◌, is_some, IfErr, IfOk, OnErr, OnOk};
ghost use Rattle.machine.specs.Shown.{Kept};
ghost use Rattle.stream.specs.Heard.{CannotForget, Follows, Forgets, HasFollowed, IsOfLine};

use crate::fault::StreamFault;
use crate::follower::Follower;
use machine::Machine;

// Has the follower, if there is one, check all entries. At a fault it is gone.
fn follow<K: Machine>(kernel: &K, follower: &mut Option<Follower>) -> Result<(), StreamFault>
    ensures followed { OnOk result (Follows follower.old (K.shown kernel.now).log
        → HasFollowed follower.new (K.shown kernel.now).log) }
    ensures same { OnOk result (is_some follower.new ≡ is_some follower.old) }
    ensures fault { IfErr result (λ why. Follows follower.old (K.shown kernel.now).log
        → CannotForget (K.shown kernel.now).log why) }
    ensures of_line { IfErr result IsOfLine }
{
    match follower.take() {
        None => Ok(()),
        Some(former) => match former.catch_up(kernel.history()) {
            Ok(behind) => {
                *follower = Some(behind);
                Ok(())
            }
            Err(fault) => Err(fault),
        },
    }
}

// Has all that is kept checked, if there is a follower, and forgets it. With 2^63 entries or more it
// is only checked, for no more can be forgotten. At a fault nothing is forgotten.
pub(crate) fn settle<K: Machine>(
    kernel: &mut K,
    follower: &mut Option<Follower>,
) -> Result<(), StreamFault>
    ensures kept { Kept (K.shown kernel.new) }
    ensures forgets { OnOk result (Forgets (K.shown kernel.old) (K.shown kernel.new)) }
    ensures followed { OnOk result (Follows follower.old (K.shown kernel.old).log
        → Follows follower.new (K.shown kernel.new).log) }
    ensures same { OnOk result (is_some follower.new ≡ is_some follower.old) }
    ensures unchanged { OnErr result (K.shown kernel.new ≡ K.shown kernel.old) }
    ensures fault { IfErr result (λ why. Follows follower.old (K.shown kernel.old).log
        → CannotForget (K.shown kernel.new).log why) }
    ensures of_line { IfErr result IsOfLine }
{
    // For the proof: what was forgotten are entries of the history.
    let _history = kernel.history();
    match follow(kernel, follower) {
        Ok(()) => {}
        Err(fault) => return Err(fault),
    }
    // Where it answers false the stream goes on, as long as there are places.
    kernel.forget();
    Ok(())
}
