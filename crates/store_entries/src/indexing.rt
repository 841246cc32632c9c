//! The index of settings, which is kept beside a branch.
ghost use Rattle.std.specs.Prelude.{◌≡◌, OnOk, OnErr, IsSome};
ghost use Rattle.std.specs.Option.{ForSome};
ghost use Rattle.trust_groups.specs.Adding.{lines_and};
ghost use Rattle.trust_groups.specs.Reads.{HaveReadLines};
ghost use Rattle.trust_groups.specs.Settings.{Lines};
ghost use Rattle.store_entries.specs.Indexed.{IsIndexed};

use annex_base::{Line, NoMemory};
use std::alloc::Global;
use trust_groups::Settings;
use union_merge::Branch;

/// Adds lines of the file of this path.
fn add_lines(settings: &mut Settings, path: &[u8], lines: &[Line]) -> Result<(), NoMemory>
    ensures { OnOk result ((was : Lines) → HaveReadLines settings.old was → HaveReadLines settings.new (lines_and was path.now lines.now)) }
{
    for line in lines {
        settings.add(path, line)?;
    }
    Ok(())
}

/// The index with lines of the file of this path, if there is one. Where memory runs out, there is none from then on.
pub(crate) fn grown(index: Option<Settings>, path: &[u8], lines: &[Line]) -> Option<Settings>
    ensures { (was : Lines) → ForSome index (λ i. HaveReadLines i was) → ForSome result (λ i. HaveReadLines i (lines_and was path.now lines.now)) }
{
    let mut settings = index?;
    match add_lines(&mut settings, path, lines) {
        Ok(()) => Some(settings),
        Err(NoMemory) => None,
    }
}

/// Reads the branch anew where there is no index.
pub fn make_index(
    alloc: Global,
    index: &mut Option<Settings>,
    branch: &Branch,
) -> Result<(), NoMemory>
    ensures some { OnOk result (IsSome index.new) }
    ensures reads { IsIndexed index.old branch.now → IsIndexed index.new branch.now }
    ensures err { OnErr result (index.new ≡ index.old) }
{
    if index.is_none() {
        let settings = Settings::read(alloc, branch)?;
        *index = Some(settings);
    }
    Ok(())
}
