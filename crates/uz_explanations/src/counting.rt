//! How many instances each program counter has.

ghost use Rattle.std.specs.Prelude.{◌≡◌, ◌<◌, ◌≤◌, ◌^◌, IfOk, length};
ghost use Rattle.uz_explanations.specs.Counting.{counts as counts_by_pc, pc_end as end_of_pcs};

use std::alloc::{AllocError, Global};
use uz_schedule::Instance;

/// One more than the greatest program counter of these instances, 0 if there is none.
fn pc_end(instances: &[Instance]) -> usize
    ensures end { result ≡ end_of_pcs instances.now }
    ensures few { result ≤ 65536 }
{
    let mut end = 0;
    for x in instances {
        end = end.max(usize::from(x.pc) + 1);
    }
    end
}

/// How many instances each program counter has, from 0 to the greatest.
pub(crate) fn counts_of(alloc: Global, instances: &[Instance]) -> Result<Vec<u32>, AllocError>
    requires few { length instances.now < 2 ^ 32 }
    ensures counts { IfOk result (λ v. v.items ≡ counts_by_pc instances.now) }
    ensures within { IfOk result (λ v. length v.items ≤ 65536) }
{
    let mut counts = vec![in alloc; 0; pc_end(instances)]?;
    for x in instances {
        counts[usize::from(x.pc)] += 1;
    }
    Ok(counts)
}
