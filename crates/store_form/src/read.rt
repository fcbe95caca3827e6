// A setup, read from bytes.
ghost use Rattle.std.specs.Prelude.{◌≡◌, Ok, IfOk};
ghost use Rattle.model.specs.Moments.{Setup as Given};
ghost use Rattle.entry_codec.specs.Reading.{Gives};
ghost use Rattle.store_form.specs.ReadingSetups.{body_in, setup_in, setup_of, GivesSetup};
ghost use Rattle.store_form.specs.Setups.{setup_bytes, IsSetup};

use crate::fault::SetupError;
use crate::parts::{bounds_of, fault_at, priorities_of, u32_of};
use crate::put::FORM;
use entry_codec::{ReadError, Wrong};
use heap::Heap;
use ids::{Bounds, Priority};

/// What the kernel of a store is given when it is made.
#[derive(Drop)]
pub struct Setup {
    /// The priorities of its first processes: of process 1, of process 2, and so on.
    pub priorities: Vec<Priority, Heap>,
    /// What its calls keep within.
    pub bounds: Bounds,
}

// What stands behind the number of the form, which is all of the bytes.
fn body_of(heap: Heap, bytes: &[u8]) -> Result<Setup, ReadError>
    ensures { Gives setup_of result (body_in bytes.now) }
{
    let (bounds, rest) = bounds_of(bytes)?;
    match priorities_of(heap, rest) {
        Ok((priorities, rest)) => {
            if rest.is_empty() {
                Ok(Setup { priorities, bounds })
            } else {
                Err(fault_at(Wrong::Trailing, rest))
            }
        }
        Err(e) => Err(e),
    }
}

#[tactic(auto, unfolding(crate::specs::ReadingSetups::setup_in))]
fn whole_of(heap: Heap, bytes: &[u8]) -> Result<Setup, SetupError>
    ensures { GivesSetup result (setup_in bytes.now) }
{
    match u32_of(bytes) {
        Ok((form, rest)) => {
            if form != FORM {
                return Err(SetupError::OtherForm(form));
            }
            match body_of(heap, rest) {
                Ok(setup) => Ok(setup),
                Err(ReadError::NoMemory) => Err(SetupError::NoMemory),
                Err(ReadError::Fault(fault)) => Err(SetupError::Fault(fault)),
            }
        }
        Err(ReadError::NoMemory) => Err(SetupError::NoMemory),
        Err(ReadError::Fault(fault)) => Err(SetupError::Fault(fault)),
    }
}

/// The setup that these bytes are, all of them. [`SetupError::OtherForm`] tells that the number of the
/// form is another one, [`SetupError::Fault`] the first fault from the left, and
/// [`SetupError::NoMemory`] that memory was refused. It is asked for only for bytes that are there.
pub fn read_setup(heap: Heap, bytes: &[u8]) -> Result<Setup, SetupError>
    // What is read is what the bytes are the form of.
    ensures found { IfOk result (λ s. IsSetup (setup_of s) × (bytes.now ≡ setup_bytes (setup_of s))) }
    // What was put is read, unless memory is refused.
    ensures only { (setup : Given) → IsSetup setup → bytes.now ≡ setup_bytes setup
        → GivesSetup result (Ok setup) }
    // Which fault it is.
    ensures exact { GivesSetup result (setup_in bytes.now) }
{
    whole_of(heap, bytes)
}
