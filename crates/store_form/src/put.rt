// A setup as bytes.
ghost use Rattle.std.specs.Prelude.{◌≡◌, ◌++◌, ◌<◌, ◌≤◌, length, OnErr, OnOk};
ghost use Rattle.std.specs.List.{AllByRecursion};
ghost use Rattle.ids.specs.declared.limits.TheConstants.{LARGEST_FILE, MAX_PROCESSES};
ghost use Rattle.entry_codec.specs.Parts.{u32_bytes};
ghost use Rattle.store_form.specs.Setups.{bounds_bytes, body_bytes, priorities_bytes, priority_bytes};
ghost use Rattle.store_form.specs.Setups.{setup_bytes, AreBounds, IsSetup};

use heap::Heap;
use ids::{Bounds, Priority};
use std::alloc::AllocError;

/// The number of the form that is written and read here. A form that is changed gets another one.
pub(crate) const FORM: u32 = 1;

#[tactic(auto, unfolding(entry_codec::specs::Parts::u32_bytes))]
fn put_u32(out: &mut Vec<u8, Heap>, number: u32) -> Result<(), AllocError>
    ensures { OnOk result (out.new.items ≡ out.old.items ++ u32_bytes number) }
{
    out.extend_from_slice(&number.to_le_bytes())?;
    Ok(())
}

fn put_bounds(out: &mut Vec<u8, Heap>, bounds: Bounds) -> Result<(), AllocError>
    requires { bounds.file_bytes ≤ LARGEST_FILE }
    ensures put { OnOk result (out.new.items ≡ out.old.items ++ bounds_bytes bounds) }
    ensures fits { OnOk result (AreBounds bounds) }
{
    put_u32(out, bounds.file_bytes)?;
    put_u32(out, bounds.descriptors)?;
    put_u32(out, bounds.path_bytes)?;
    Ok(())
}

fn put_level(out: &mut Vec<u8, Heap>, priority: Priority) -> Result<(), AllocError>
    ensures put { OnOk result (out.new.items ≡ out.old.items ++ priority_bytes priority) }
    ensures fits { OnOk result (priority < 8) }
{
    out.push(priority.level())?;
    Ok(())
}

fn put_priorities(out: &mut Vec<u8, Heap>, priorities: &[Priority]) -> Result<(), AllocError>
    requires { length priorities.now ≤ MAX_PROCESSES }
    ensures put { OnOk result (out.new.items ≡ out.old.items ++ priorities_bytes priorities.now) }
    ensures fits { OnOk result (AllByRecursion (λ p. p < 8) priorities.now) }
{
    put_u32(out, priorities.len() as u32)?;
    for priority in priorities {
        put_level(out, *priority)?;
    }
    Ok(())
}

fn put_body(
    out: &mut Vec<u8, Heap>,
    priorities: &[Priority],
    bounds: Bounds,
) -> Result<(), AllocError>
    requires some { 0 < length priorities.now }
    requires not_too_many { length priorities.now ≤ MAX_PROCESSES }
    requires files { bounds.file_bytes ≤ LARGEST_FILE }
    ensures put { OnOk result (out.new.items ≡ out.old.items
        ++ (u32_bytes 1 ++ body_bytes (record { priorities = priorities.now; bounds = bounds }))) }
    ensures fits { OnOk result (IsSetup (record { priorities = priorities.now; bounds = bounds })) }
{
    put_u32(out, FORM)?;
    put_bounds(out, bounds)?;
    put_priorities(out, priorities)
}

/// Puts the setup of a kernel behind what is there: the number of the form, the kernel's bounds, and
/// the priorities of its first processes. Where memory is refused, which is the one error, `out` is as
/// before; as much as the setup's bytes is asked for besides.
#[tactic(auto, unfolding(crate::specs::Setups::setup_bytes))]
pub fn put_setup(
    priorities: &[Priority],
    bounds: Bounds,
    out: &mut Vec<u8, Heap>,
) -> Result<(), AllocError>
    requires some { 0 < length priorities.now }
    requires not_too_many { length priorities.now ≤ MAX_PROCESSES }
    requires files { bounds.file_bytes ≤ LARGEST_FILE }
    ensures ok { OnOk result (out.new.items ≡ out.old.items
        ++ setup_bytes (record { priorities = priorities.now; bounds = bounds })) }
    ensures err { OnErr result (out.new.items ≡ out.old.items) }
    // Its numbers are in their ranges, so what is put is read again.
    ensures fits { OnOk result (IsSetup (record { priorities = priorities.now; bounds = bounds })) }
{
    let mut bytes = Vec::new(*out.allocator());
    put_body(&mut bytes, priorities, bounds)?;
    out.extend_from_slice(bytes.as_slice())?;
    Ok(())
}
