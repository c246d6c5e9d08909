//! The order in which findings are listed.

ghost use Rattle.std.specs.Prelude.{◌≡◌, OnOk};
ghost use Rattle.rh_findings.specs.Order.{IsListed};

use crate::finding::Finding;
use rh_base::OutOfMemory;

/// Puts findings in the order of lines, those without a line first. Of one line errors come before warnings, and these before hints;
/// what is of one line and one kind stays as it was.
pub fn put_in_order(found: &mut Vec<Finding>) -> Result<(), OutOfMemory>
    ensures { OnOk result (IsListed found.old.items found.new.items) }
{
    found.sort_by_key(|finding| finding.place())?;
    Ok(())
}
