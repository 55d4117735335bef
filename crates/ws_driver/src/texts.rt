//! The texts of a translation.

ghost use Rattle.std.specs.Prelude.{◌≡◌, IfOk};
ghost use Rattle.lower_constructs.specs.Modules.{lowered};
ghost use Rattle.hlfir_text.specs.ModuleText.{module_text};
ghost use Rattle.assign_schedule.specs.Saved.{saved};
ghost use Rattle.plan_text.specs.ScheduleText.{schedule_text};

use assign_schedule::schedule;
use hlfir_text::print;
use lower_masks::lower;
use plan_text::schedule_text;
use std::alloc::{AllocError, Global};
use ws_sema::Checked;

/// The HLFIR of an accepted source.
pub fn module_lines(alloc: Global, source: &Checked) -> Result<Vec<u8>, AllocError>
    ensures { IfOk result (λ text. text.items ≡ module_text (lowered source.now)) }
{
    let module = lower(alloc, source)?;
    print(alloc, module.module())
}

/// The schedule of the HLFIR of an accepted source.
pub fn schedule_lines(alloc: Global, source: &Checked) -> Result<Vec<u8>, AllocError>
    ensures { IfOk result (λ text. text.items ≡ schedule_text (lowered source.now) (saved (lowered source.now))) }
{
    let module = lower(alloc, source)?;
    let plan = schedule(alloc, &module)?;
    schedule_text(alloc, &module, &plan)
}
